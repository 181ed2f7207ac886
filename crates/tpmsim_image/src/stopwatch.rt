//! The elapsed time of each command. No millisecond is counted twice.

ghost use Rattle.std.specs.Prelude.{◌≡◌, None};
ghost use Rattle.std.specs.Time.{instant_nanos};
ghost use Rattle.tpmsim_image.specs.Stopwatch.{after_command, reported_time};

use std::marker::Model;
use std::time::Instant;

/// A stopwatch, which measures the elapsed time of each command. In contracts, its state is the
/// arrival time of the first command, and how many of the milliseconds since then have been
/// reported as elapsed time, or dropped.
#[derive(Drop)]
pub struct Stopwatch {
    first: Option<Instant>,
    passed_ms: u128,
}

impl Model for Stopwatch {
    ghost use Rattle.std.specs.Option.{option_map};
    ghost use Rattle.std.specs.Time.{instant_nanos};
    ghost use Rattle.tpmsim_image.specs.Stopwatch.{StopwatchState};

    ghost Value = { StopwatchState };

    ghost view = { λ s. record { first = option_map instant_nanos s.first; passed = s.passed_ms } };
}

impl Stopwatch {
    /// A stopwatch before the first command.
    pub fn new() -> Stopwatch
        ensures { result ≡ record { first = None; passed = 0 } }
    {
        Stopwatch {
            first: None,
            passed_ms: 0,
        }
    }

    /// Returns the elapsed milliseconds of a command that arrives now. For the first command, this
    /// is 0. For a later command, it is the number of milliseconds since the first command that
    /// have not yet been reported for any command, at most 2^32 - 1. All milliseconds above this
    /// limit are dropped.
    pub fn tell(&mut self, now: Instant) -> u32
        ensures value { result ≡ reported_time (instant_nanos now) self.old }
        ensures after { self.new ≡ after_command (instant_nanos now) self.old }
    {
        let first = self.first.unwrap_or(now);
        let since_ms = now.saturating_duration_since(first).as_millis();
        let untold_ms = since_ms.saturating_sub(self.passed_ms);
        self.first = Some(first);
        self.passed_ms = self.passed_ms.max(since_ms);
        u32::try_from(untold_ms).unwrap_or(u32::MAX)
    }
}

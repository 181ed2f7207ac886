//! The values that the host passes with each command: random bytes from a reader, the time that has
//! passed, and a locality.

ghost use Rattle.std.specs.Prelude.{◌≡◌, IfOk, ℕ};
ghost use Rattle.std.specs.Io.KnownBytes.{Consumes};
ghost use Rattle.tpmsim_image.specs.Stopwatch.{after_command, reported_time};

use crate::entropy::RandomReader;
use crate::stopwatch::Stopwatch;
use std::fs::File;
use std::io;
use std::io::{BufReader, Read};
use std::time::{Clock, Instant};
use tpm_types_common::Locality;
use tpm_wire::Host;

/// The source of the values for each command: a reader of random bytes, and a stopwatch on the
/// host's clock.
#[derive(Drop)]
pub struct Source<R> {
    entropy: RandomReader<R>,
    locality: Locality,
    stopwatch: Stopwatch,
}

/// The source of a served device, whose random bytes come from a file.
pub type HostSource = Source<BufReader<File>>;

impl<R: Read> Source<R> {
    /// Creates the source for commands from this locality, with random bytes from this reader.
    pub fn new(entropy: RandomReader<R>, locality: Locality) -> Source<R>
        ensures locality { result.locality ≡ locality }
        ensures entropy { result.entropy ≡ entropy }
    {
        Source {
            entropy,
            locality,
            stopwatch: Stopwatch::new(),
        }
    }

    /// Returns the values for a command that arrives now. They are the locality, which never
    /// changes; the next 256 random bytes of the reader; and the elapsed time. The stopwatch
    /// computes the elapsed time from the current time of the host's clock.
    pub fn host(&mut self, clock: &impl Clock) -> io::Result<Host>
        ensures locality { IfOk result (λ host. host.locality ≡ self.old.locality) }
        ensures elapsed { IfOk result (λ host. (now : ℕ)
            × (host.elapsed_ms ≡ reported_time now self.old.stopwatch)
            × (self.new.stopwatch ≡ after_command now self.old.stopwatch)) }
        ensures random { IfOk result (λ host. Consumes (R.remaining self.old.entropy.reader)
            (R.remaining self.new.entropy.reader) host.random) }
        ensures kept { self.new.locality ≡ self.old.locality }
    {
        let elapsed_ms = self.stopwatch.tell(Instant::now(clock)?);
        let random = self.entropy.random()?;
        Ok(Host {
            locality: self.locality,
            elapsed_ms,
            random,
        })
    }
}

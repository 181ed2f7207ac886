//! Counts failed tries, forgives them over time, and disables and enables lockoutAuth (TPM 2.0
//! Library, Part 1, section 19.8).

ghost use Rattle.std.specs.Prelude.{◌≡◌, ◌-◌, ◌<◌, ◌*◌, ◌^◌, false};
ghost use Rattle.tpm_lockout.specs.Lockout.{milliseconds, new_lockout, restored_lockout, times_restarted};
ghost use Rattle.tpm_lockout.specs.Lockout.{IsLockout, with_parameters};
ghost use Rattle.tpm_lockout.specs.Recovery.{closed_by_failure, lockout_ticked, opened_after};
ghost use Rattle.tpm_lockout.specs.Recovery.{with_closed};
ghost use Rattle.tpm_lockout.specs.Tries.{after_failure, forgiven_after, is_locked, with_tries};

use crate::fields::LockoutFields;
use std::marker::Model;

/// The state of dictionary attack protection: the fields that an image contains, and two times.
/// Contracts represent it by a `LockoutState`.
#[derive(Drop)]
pub struct Lockout {
    fields: LockoutFields,
    /// Milliseconds that count towards forgiving the next failed try.
    forgiving_time: u64,
    /// Milliseconds that count towards enabling lockoutAuth again.
    closed_time: u64,
    ghost short_forgiving: { forgiving_time < milliseconds (2 ^ 32) },
    ghost short_closed: { closed_time < milliseconds (2 ^ 32) },
}

impl Model for Lockout {
    ghost use Rattle.tpm_lockout.specs.Lockout.{LockoutState};

    ghost Value = { LockoutState };

    ghost view = { λ l. record {
      fields = l.fields;
      forgiving_time = l.forgiving_time;
      closed_time = l.closed_time;
    } };
}

/// This number of seconds, converted to milliseconds.
fn milliseconds(seconds: u32) -> u64
    ensures { result ≡ milliseconds seconds }
{
    1000 * u64::from(seconds)
}

/// The number of failed tries left after this number of tries has been forgiven.
fn tries_left(tries: u32, forgiven: u64) -> u32
    ensures { result ≡ tries - forgiven }
{
    u64::from(tries).saturating_sub(forgiven) as u32
}

impl Lockout {
    /// The lockout state of a newly manufactured device: maxTries is 3, and both recovery times
    /// are 1,000 seconds.
    pub fn new() -> Lockout
        ensures { result ≡ new_lockout }
    {
        Lockout::restore(LockoutFields {
            failed_tries: 0,
            max_tries: 3,
            recovery_time: 1000,
            lockout_recovery: 1000,
            closed: false,
        })
    }

    /// The lockout state at power-on: the saved fields, with both times at zero.
    pub fn restore(fields: LockoutFields) -> Lockout
        ensures { result ≡ restored_lockout fields }
    {
        Lockout {
            fields,
            forgiving_time: 0,
            closed_time: 0,
        }
    }

    /// The lockout state of a device that continues to run, with these fields and times.
    pub fn resume(fields: LockoutFields, forgiving_time: u64, closed_time: u64) -> Lockout
        requires forgiving { forgiving_time < milliseconds (2 ^ 32) }
        requires closed { closed_time < milliseconds (2 ^ 32) }
        ensures { result ≡ record {
          fields = fields;
          forgiving_time = forgiving_time;
          closed_time = closed_time;
        } }
    {
        Lockout {
            fields,
            forgiving_time,
            closed_time,
        }
    }

    /// Milliseconds that count towards forgiving the next failed try.
    pub fn forgiving_time(&self) -> u64
        ensures { result ≡ self.now.forgiving_time }
    {
        self.forgiving_time
    }

    /// Milliseconds that count towards enabling lockoutAuth again.
    pub fn closed_time(&self) -> u64
        ensures { result ≡ self.now.closed_time }
    {
        self.closed_time
    }

    /// The fields that survive a power cycle.
    pub fn fields(&self) -> LockoutFields
        ensures value { result ≡ self.now.fields }
        // Each field and each time is within its range.
        ensures is_lockout { IsLockout self.now }
    {
        let _failed_tries = self.fields.failed_tries;
        let _max_tries = self.fields.max_tries;
        let _recovery_time = self.fields.recovery_time;
        let _lockout_recovery = self.fields.lockout_recovery;
        self.fields
    }

    /// Lets some milliseconds elapse. Each full recoveryTime forgives a failed try. lockoutAuth is
    /// enabled again once it has been disabled for lockoutRecovery.
    pub fn tick(&mut self, elapsed_ms: u32)
        ensures { self.new ≡ lockout_ticked elapsed_ms self.old }
    {
        self.forgive(elapsed_ms);
        self.open_in_time(elapsed_ms);
    }

    #[tactic(auto, unfolding(crate::specs::Tries::forgiven_after))]
    fn forgive(&mut self, elapsed_ms: u32)
        ensures { self.new ≡ forgiven_after elapsed_ms self.old }
    {
        if self.fields.recovery_time == 0 || self.fields.failed_tries == 0 {
            self.forgiving_time = 0;
            return;
        }
        let period = milliseconds(self.fields.recovery_time);
        let time = self.forgiving_time + u64::from(elapsed_ms);
        let left = tries_left(self.fields.failed_tries, time / period);
        self.fields.failed_tries = left;
        self.forgiving_time = if left == 0 { 0 } else { time % period };
    }

    #[tactic(auto, unfolding(crate::specs::Recovery::opened_after))]
    fn open_in_time(&mut self, elapsed_ms: u32)
        ensures { self.new ≡ opened_after elapsed_ms self.old }
    {
        if !self.fields.closed || self.fields.lockout_recovery == 0 {
            self.closed_time = 0;
            return;
        }
        let time = self.closed_time + u64::from(elapsed_ms);
        if time >= milliseconds(self.fields.lockout_recovery) {
            self.fields.closed = false;
            self.closed_time = 0;
        } else {
            self.closed_time = time;
        }
    }

    /// Whether failed tries lock out the protected entities.
    pub fn is_locked(&self) -> bool
        ensures { result ≡ is_locked self.now.fields }
    {
        self.fields.recovery_time != 0 && self.fields.failed_tries >= self.fields.max_tries
    }

    /// Counts a failed try, unless the protected entities are locked out or failed tries are not
    /// counted.
    #[tactic(auto, unfolding(crate::specs::Tries::after_failure))]
    pub fn failed(&mut self)
        ensures { self.new ≡ after_failure self.old }
    {
        let most = self.fields.max_tries;
        if self.fields.recovery_time != 0 && self.fields.failed_tries < most {
            self.fields.failed_tries += 1;
            self.forgiving_time = 0;
        }
    }

    /// Sets the number of failed tries to zero (TPM2_DictionaryAttackLockReset). The times do not
    /// change.
    pub fn reset(&mut self)
        ensures { self.new ≡ with_tries 0 self.old }
    {
        self.fields.failed_tries = 0;
    }

    /// Sets the parameters (TPM2_DictionaryAttackParameters) and restarts both times.
    pub fn set_parameters(&mut self, max_tries: u32, recovery_time: u32, lockout_recovery: u32)
        ensures { self.new ≡ with_parameters max_tries recovery_time lockout_recovery self.old }
    {
        self.fields.max_tries = max_tries;
        self.fields.recovery_time = recovery_time;
        self.fields.lockout_recovery = lockout_recovery;
        self.power_cycle();
    }

    /// Disables lockoutAuth after a failed attempt to authorize with it. If it is already disabled,
    /// nothing changes.
    pub fn lockout_failed(&mut self)
        ensures { self.new ≡ closed_by_failure self.old }
    {
        if !self.fields.closed {
            self.fields.closed = true;
            self.closed_time = 0;
        }
    }

    /// Whether lockoutAuth is disabled.
    pub fn lockout_closed(&self) -> bool
        ensures { result ≡ self.now.fields.closed }
    {
        self.fields.closed
    }

    /// Enables lockoutAuth, and changes nothing else.
    pub fn lockout_open(&mut self)
        ensures { self.new ≡ with_closed false self.old }
    {
        self.fields.closed = false;
    }

    /// Restarts both times after a power cycle.
    pub fn power_cycle(&mut self)
        ensures { self.new ≡ times_restarted self.old }
    {
        self.forgiving_time = 0;
        self.closed_time = 0;
    }
}

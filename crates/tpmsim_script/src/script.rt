//! The values that the lines of a script set for the next command: the locality, the elapsed time,
//! and the random bytes.

ghost use Rattle.std.specs.Prelude.{◌≡◌, ◌+◌, ◌≤◌, ◌<◌, ◌^◌, ◌↔◌, length, replicate};
ghost use Rattle.std.specs.Prelude.{IsOk, OnOk, OnErr};
ghost use Rattle.tpm_types_common.specs.Locality.{locality_number};
ghost use Rattle.tpmsim_script.specs.Script.{repeated};

use crate::line::Unfit;
use std::mem;
use tpm_step::Event;
use tpm_types_common::Locality;

/// The number of random bytes for each command.
pub const RANDOM_BYTES: usize = 256;

/// The values that earlier lines of a script have set for its next command.
#[derive(Drop)]
pub struct Script {
    locality: Locality,
    /// Milliseconds since the last command.
    waited: u32,
    random: [u8; 256],
}

impl Script {
    /// The start of a script: locality 0, no elapsed time, and random bytes that are all 0.
    pub fn new() -> Script
        ensures locality { locality_number result.locality ≡ 0 }
        ensures time { result.waited ≡ 0 }
        ensures random { result.random ≡ replicate 256 0 }
    {
        Script {
            locality: Locality::new(0).unwrap(),
            waited: 0,
            random: [0; 256],
        }
    }

    /// Sets the locality of the following commands.
    pub fn set_locality(&mut self, locality: Locality)
        ensures { self.new ≡ record self.old { locality = locality } }
    {
        self.locality = locality;
    }

    /// Adds elapsed time. Fails if more than 2^32 - 1 milliseconds would have elapsed since the
    /// last command.
    pub fn wait(&mut self, milliseconds: u32) -> Result<(), Unfit>
        ensures fits { IsOk result ↔ (self.old.waited + milliseconds < 2 ^ 32) }
        ensures ok { OnOk result
            (self.new ≡ record self.old { waited = self.old.waited + milliseconds }) }
        ensures err { OnErr result (self.new ≡ self.old) }
    {
        self.waited = self.waited.checked_add(milliseconds).ok_or(Unfit)?;
        Ok(())
    }

    /// Sets the random bytes of later commands. The given bytes are repeated until there are 256
    /// bytes. Fails unless 1 to 256 bytes are given.
    pub fn set_entropy(&mut self, entropy: &[u8]) -> Result<(), Unfit>
        ensures fits { IsOk result
            ↔ ((0 < length entropy.now) × (length entropy.now ≤ RANDOM_BYTES)) }
        ensures ok { OnOk result (self.new ≡ record self.old { random = repeated entropy.now }) }
        ensures err { OnErr result (self.new ≡ self.old) }
    {
        if entropy.is_empty() || entropy.len() > RANDOM_BYTES {
            return Err(Unfit);
        }
        self.random = repeated(entropy);
        Ok(())
    }

    /// Returns the event of this command, with the values that earlier lines of the script have
    /// set. Then sets the elapsed time to 0.
    pub fn command<'a>(&mut self, buffer: &'a [u8]) -> Event<'a>
        ensures event { result
            ≡ Event.Command buffer.entry self.old.locality self.old.waited self.old.random }
        ensures time { self.new ≡ record self.old { waited = 0 } }
    {
        let elapsed_ms = mem::take(&mut self.waited);
        Event::of_command(buffer, self.locality, elapsed_ms, self.random)
    }
}

/// Returns 256 bytes, made by repeating the given bytes.
pub fn repeated(entropy: &[u8]) -> [u8; 256]
    requires { 0 < length entropy.now }
    ensures { result ≡ repeated entropy.now }
{
    let mut random = [0; 256];
    for place in 0..256 {
        random[place] = entropy[place % entropy.len()];
    }
    random
}

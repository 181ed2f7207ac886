//! The state of a policy session: its digest, and the values that its assertions have recorded (TPM
//! 2.0 Library, Part 1, section 19.7).

ghost use Rattle.std.specs.Prelude.{◌≡◌, ◌<◌, ◌≤◌, ◌^◌, IfSome, length, option_map, replicate};
ghost use Rattle.tpm_mac.specs.Digest.{digest_size};
ghost use Rattle.tpm_policy.specs.Size.{resized};

use crate::size::resized;
use arrayvec::ArrayVec;
use std::marker::Model;
use tpm_bytes::{append, copied};
use tpm_mac::{Digest, HashAlg};

/// What a policy requires in the authorization entry, in addition to its conditions.
#[derive(Clone, Copy, PartialEq, Eq)]
pub enum Demand {
    /// Nothing.
    None,
    /// An HMAC whose key includes the entity's authorization value.
    AuthValue,
    /// The entity's authorization value as a password.
    Password,
}

/// The state of a policy session (TPM 2.0 Library, Part 1, section 19.7). Contracts treat the
/// state as a `Policy`, a plain record.
#[derive(Drop)]
pub struct PolicyState {
    pub(crate) digest: Digest,
    /// The PCRs' update counter at the last TPM2_PolicyPCR.
    pub(crate) update_count: Option<u64>,
    /// The code of the only allowed command, if one is recorded.
    pub(crate) command: Option<u32>,
    /// The cpHash of the only allowed command, if one is recorded.
    pub(crate) cp_hash: Option<Digest>,
    /// Whether the NV index must be written (true) or unwritten (false), if this is recorded.
    pub(crate) nv_written: Option<bool>,
    /// The allowed localities, bit n for locality n.
    pub(crate) localities: u8,
    pub(crate) demand: Demand,
}

impl Model for PolicyState {
    ghost use Rattle.std.specs.Prelude.{◌≤◌, option_map};
    ghost use Rattle.tpm_policy.specs.State.{Policy};

    ghost Value = { Policy };

    ghost view = { λ s. record {
      digest = s.digest.items;
      update_count = s.update_count;
      command = s.command;
      cp_hash = option_map (λ hash. hash.items) s.cp_hash;
      nv_written = s.nv_written;
      localities = s.localities;
      demand = s.demand;
    } };

    ghost invariant = { λ s. s.localities ≤ 31 };
}

/// All localities that can be allowed: 0 to 4.
const ALL_LOCALITIES: u8 = 0x1f;

/// A policy digest of all zeros.
fn zeros(hash: HashAlg) -> Digest
    ensures { result.items ≡ replicate (digest_size hash) 0 }
{
    let mut digest = ArrayVec::new();
    append(&mut digest, hash.zeros());
    digest
}

impl PolicyState {
    ghost use Rattle.tpm_policy.specs.State.{IsPolicy, starting};

    /// The initial state of a session.
    pub fn new(hash: HashAlg) -> PolicyState
        ensures { result ≡ starting hash }
    {
        PolicyState {
            digest: zeros(hash),
            update_count: None,
            command: None,
            cp_hash: None,
            nv_written: None,
            localities: ALL_LOCALITIES,
            demand: Demand::None,
        }
    }

    /// The same state, whose policy digest has the size of a digest of this hash algorithm: its
    /// first bytes, or all of them followed by zeros.
    #[inline(always)]
    pub fn resized(self, hash: HashAlg) -> PolicyState
        ensures value { result
            ≡ record self { digest = resized (digest_size hash) self.digest } }
        ensures size { length result.digest ≡ digest_size hash }
        // A state whose digest has this size does not change.
        ensures same { length self.digest ≡ digest_size hash → result ≡ self }
    {
        PolicyState {
            digest: resized(self.digest, hash.size()),
            update_count: self.update_count,
            command: self.command,
            cp_hash: self.cp_hash,
            nv_written: self.nv_written,
            localities: self.localities,
            demand: self.demand,
        }
    }

    /// A policy state with these values.
    pub fn of(
        digest: Digest,
        update_count: Option<u64>,
        command: Option<u32>,
        cp_hash: Option<Digest>,
        nv_written: Option<bool>,
        localities: u8,
        demand: Demand,
    ) -> PolicyState
        requires { localities ≤ 31 }
        ensures { result ≡ record {
          digest = digest.items;
          update_count = update_count;
          command = command;
          cp_hash = option_map (λ hash. hash.items) cp_hash;
          nv_written = nv_written;
          localities = localities;
          demand = demand;
        } }
    {
        PolicyState {
            digest,
            update_count,
            command,
            cp_hash,
            nv_written,
            localities,
            demand,
        }
    }

    /// The PCRs' update counter at the last TPM2_PolicyPCR.
    pub fn recorded_update_count(&self) -> Option<u64>
        ensures { result ≡ self.now.update_count }
    {
        self.update_count
    }

    /// The code of the only allowed command, if one is recorded.
    pub fn recorded_command(&self) -> Option<u32>
        ensures { result ≡ self.now.command }
    {
        self.command
    }

    /// The cpHash of the only allowed command, if one is recorded.
    pub fn recorded_cp_hash(&self) -> Option<&Digest>
        ensures { option_map (λ hash. hash.now.items) result ≡ self.now.cp_hash }
    {
        self.cp_hash.as_ref()
    }

    /// Whether the NV index must be written (true) or unwritten (false), if this is recorded.
    pub fn recorded_nv_written(&self) -> Option<bool>
        ensures { result ≡ self.now.nv_written }
    {
        self.nv_written
    }

    /// The allowed localities, bit n for locality n.
    pub fn localities(&self) -> u8
        ensures { result ≡ self.now.localities }
    {
        self.localities
    }

    /// Resets the policy to the initial state of a session.
    pub fn restart(&mut self, hash: HashAlg)
        ensures { self.new ≡ starting hash }
    {
        *self = PolicyState::new(hash);
    }

    /// The policy digest.
    pub fn digest(&self) -> &[u8]
        ensures value { result.now ≡ self.now.digest }
        ensures fits { length result.now ≤ 32 }
    {
        self.digest.as_slice()
    }

    /// What the policy requires in the authorization entry, in addition to its conditions.
    pub fn demand(&self) -> Demand
        ensures { result ≡ self.now.demand }
    {
        self.demand
    }

    /// A copy of the state.
    pub fn copy(&self) -> PolicyState
        ensures { result ≡ self.now }
    {
        PolicyState {
            digest: copied(self.digest.as_slice()),
            update_count: self.update_count,
            command: self.command,
            cp_hash: self.cp_hash.as_ref().map(|hash| copied(hash.as_slice())),
            nv_written: self.nv_written,
            localities: self.localities,
            demand: self.demand,
        }
    }

    /// States that the cpHash is at most 32 bytes long.
    #[inline(always)]
    fn read_cp_hash(&self)
        ensures { IfSome self.now.cp_hash (λ hash. length hash ≤ 32) }
    {
        if let Some(hash) = &self.cp_hash {
            let _hash = hash.as_slice();
        }
    }

    /// States that the update counter fits its integer type.
    #[inline(always)]
    fn read_update_count(&self)
        ensures { IfSome self.now.update_count (λ count. count < 2 ^ 64) }
    {
        if let Some(count) = self.update_count {
            let _count = count;
        }
    }

    #[inline(always)]
    fn read_command(&self)
        ensures { IfSome self.now.command (λ number. number < 2 ^ 32) }
    {
        if let Some(number) = self.command {
            let _number = number;
        }
    }

    /// States the bounds that the types of the fields guarantee. This function is only a proof: it
    /// has no effect at run time.
    #[inline(always)]
    pub fn read_sizes(&self)
        ensures { IsPolicy self.now }
    {
        self.read_update_count();
        self.read_command();
        self.read_cp_hash();
        let _digest = self.digest.as_slice();
        let _localities = self.localities;
    }
}

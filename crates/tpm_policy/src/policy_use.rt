//! Checks whether a policy session authorizes a use of an entity, and returns what its policy
//! requires. The first condition that fails determines the response code.

ghost use Rattle.std.specs.Prelude.{◌≡◌, ◌==◌, option_map};
ghost use Rattle.std.specs.Int.{bit_at};
ghost use Rattle.tpm_types_common.specs.Locality.{locality_number};
ghost use Rattle.tpm_policy.specs.Assertion.{is_other_written};
ghost use Rattle.tpm_policy.specs.Use.{entity_parts, is_policy_of, lacks_command, parts_of, use_passes};

use crate::state::{Demand, PolicyState};
use tpm_bytes::is_equal;
use tpm_mac::HashAlg;
use tpm_types_common::{Locality, Rc, ResponseCode, Role, SessionType, hash_number};

/// The policy of an entity.
#[derive(Clone, Copy)]
pub struct EntityPolicy<'a> {
    /// The nameAlg of the entity.
    pub hash: HashAlg,
    /// The authPolicy of the entity.
    pub digest: &'a [u8],
}

/// A use of an entity, which a policy session has to authorize.
#[derive(Clone, Copy)]
pub struct Use<'a> {
    /// The number of the authorization entry.
    pub entry: u8,
    /// The type of the session.
    pub kind: SessionType,
    /// The hash algorithm of the session.
    pub hash: HashAlg,
    /// Whether the entity can be authorized by a policy.
    pub available: bool,
    /// The update counter of the PCRs.
    pub update_count: u64,
    /// The command code.
    pub command: u32,
    /// The authorization role: USER or ADMIN.
    pub role: Role,
    /// The cpHash of the command.
    pub cp_hash: &'a [u8],
    /// If the entity is an NV index: whether it has been written.
    pub written: Option<bool>,
    pub locality: Locality,
    /// The policy of the entity, if it has one.
    pub entity: Option<EntityPolicy<'a>>,
}

impl PolicyState {
    /// Whether the role requires the policy to name the command, but this policy names no command.
    fn lacks_command(&self, role: Role) -> bool
        ensures { result ≡ lacks_command role self.now.command }
    {
        match role {
            Role::User => false,
            Role::Admin => self.command.is_none(),
        }
    }

    /// Whether the policy requires that an NV index is written (or unwritten), but the entity is
    /// not an index or is in the opposite state.
    pub(crate) fn records_other_written(&self, found: Option<bool>) -> bool
        ensures { result ≡ is_other_written self.now.nv_written found }
    {
        match (self.nv_written, found) {
            (None, _) => false,
            (Some(_), None) => true,
            (Some(recorded), Some(found)) => recorded != found,
        }
    }

    /// Whether the policy forbids commands from this locality.
    #[tactic(auto, using(std::proofs::lemmas::Nat::Bits::shr_and_one))]
    fn forbids(&self, locality: Locality) -> bool
        ensures { result ≡ (bit_at self.now.localities (locality_number locality) == 0) }
    {
        (self.localities >> locality.number()) & 1 == 0
    }

    /// Whether the session's hash algorithm and policy digest are the entity's nameAlg and
    /// authPolicy.
    fn is_policy_of(&self, hash: HashAlg, entity: Option<EntityPolicy>) -> bool
        ensures { result
            ≡ is_policy_of hash self.now.digest (option_map entity_parts entity.entry) }
    {
        match entity {
            Some(entity) => {
                hash_number(entity.hash) == hash_number(hash)
                    && is_equal(self.digest.as_slice(), entity.digest)
            }
            None => false,
        }
    }

    /// Checks whether the policy authorizes this use, and returns what the policy requires. The
    /// first condition that fails determines the error: ATTRIBUTES for a trial session;
    /// AUTH_UNAVAILABLE if the entity cannot be authorized by a policy; PCR_CHANGED if the update
    /// counter has changed; POLICY_CC for another command; POLICY_FAIL if the role requires a
    /// command code and none is recorded, for another cpHash, or if the entity does not have the
    /// recorded written state; LOCALITY for a forbidden locality; POLICY_FAIL if the policy is not
    /// the entity's policy.
    #[tactic(auto, unfolding(crate::specs::Use::use_passes))]
    pub fn check_use(&self, asked: &Use) -> Result<Demand, Rc>
        ensures { result ≡ use_passes self.now (parts_of asked.now) }
    {
        let number = asked.entry;
        if asked.kind.is_trial() {
            return Err(ResponseCode::Attributes.anywhere().at_session(number));
        }
        if !asked.available {
            return Err(ResponseCode::AuthUnavailable.anywhere());
        }
        if self.records_other_count(asked.update_count) {
            return Err(ResponseCode::PcrChanged.anywhere());
        }
        if self.records_other_code(asked.command) {
            return Err(ResponseCode::PolicyCc.anywhere().at_session(number));
        }
        if self.lacks_command(asked.role) || self.records_other_hash(asked.cp_hash) {
            return Err(ResponseCode::PolicyFail.anywhere().at_session(number));
        }
        if self.records_other_written(asked.written) {
            return Err(ResponseCode::PolicyFail.anywhere().at_session(number));
        }
        if self.forbids(asked.locality) {
            return Err(ResponseCode::Locality.anywhere());
        }
        if !self.is_policy_of(asked.hash, asked.entity) {
            return Err(ResponseCode::PolicyFail.anywhere().at_session(number));
        }
        Ok(self.demand)
    }
}

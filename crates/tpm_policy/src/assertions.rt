//! The assertions that depend on no other part of the device: PolicyOR, PolicyAuthValue,
//! PolicyPassword, PolicyCommandCode, PolicyCpHash, PolicyNvWritten and PolicyLocality.

ghost use Rattle.tpm_commands.specs.CommandCode.{code_number};
ghost use Rattle.std.specs.Prelude.{◌≡◌, ◌++◌, ◌≤◌, length, map};
ghost use Rattle.std.specs.Int.{w32, to_be_bytes};
ghost use Rattle.std.specs.List.{list_any};
ghost use Rattle.std.specs.Str.{bytes_eq};
ghost use Rattle.tpm_mac.specs.Digest.{digest_size, hash_of};
ghost use Rattle.tpm_types_common.specs.DigestList.{digests_of};
ghost use Rattle.tpm_policy.specs.Assertion.{Asserts, auth_value_asserted, command_code_asserted, extended_policy, is_other, locality_asserted, or_asserted, or_digest, password_asserted};
ghost use Rattle.tpm_policy.specs.Assertion.{cp_hash_asserted, nv_written_asserted};

use crate::state::{Demand, PolicyState};
use arrayvec::ArrayVec;
use tpm_bytes::{copied, is_equal};
use tpm_commands::{CommandCode, Profile};
use tpm_mac::{Digest, HashAlg, digest_parts};
use tpm_types_common::{ActionCheck, ActionFault, DigestList, ResponseCode};

/// The largest parameter of TPM2_PolicyLocality: localities 0 to 4, one bit each.
const LOCALITIES_LIMIT: u8 = 31;

/// The policy digest after an assertion: the hash of the old digest, the command code, and the
/// assertion's data.
fn extended_digest(hash: HashAlg, digest: &[u8], command: CommandCode, about: &[u8]) -> Digest
    ensures { result.items
        ≡ hash_of hash (digest.now ++ to_be_bytes w32 (code_number command) ++ about.now) }
{
    digest_parts(hash, &[digest, &command.number().to_be_bytes(), about])
}

/// Whether the list contains the digest.
fn is_among(digest: &[u8], digests: &[Digest]) -> bool
    ensures { result ≡ list_any (λ other. bytes_eq other digest.now) (digests_of digests.now) }
{
    match digests {
        [first, others @ ..] => is_equal(first.as_slice(), digest) || is_among(digest, others),
        [] => false,
    }
}

/// The policy digest after TPM2_PolicyOR with these digests.
#[tactic(auto, unfolding(crate::specs::Assertion::or_digest))]
fn or_digest(hash: HashAlg, list: &DigestList) -> Digest
    ensures { result.items ≡ or_digest hash (digests_of list.now.digests.items) }
{
    let zeros = [0; 32];
    let code = CommandCode::PolicyOr.number().to_be_bytes();
    let mut parts: ArrayVec<&[u8], 10> = ArrayVec::new();
    parts.push(&zeros[..hash.size()]);
    parts.push(&code);
    for digest in list.digests.as_slice() {
        parts.push(digest.as_slice());
    }
    digest_parts(hash, parts.as_slice())
}

impl PolicyState {
    /// Whether the policy has recorded a different command code.
    pub(crate) fn records_other_code(&self, number: u32) -> bool
        ensures { result ≡ is_other self.now.command number }
    {
        match self.command {
            Some(recorded) => recorded != number,
            None => false,
        }
    }

    fn extend(&mut self, hash: HashAlg, command: CommandCode, about: &[u8])
        ensures { self.new ≡ extended_policy hash command about.now self.old }
    {
        self.digest = extended_digest(hash, self.digest.as_slice(), command, about);
    }

    /// TPM2_PolicyOR: returns VALUE if the list does not contain the policy digest. A trial
    /// session accepts any list.
    #[tactic(auto, unfolding(crate::specs::Assertion::or_asserted))]
    pub fn or(&mut self, hash: HashAlg, trial: bool, list: &DigestList) -> Result<(), ActionFault>
        ensures { Asserts (or_asserted hash trial (digests_of list.now.digests.items) self.old)
            self.old result self.new }
    {
        if !trial && !is_among(self.digest.as_slice(), list.digests.as_slice()) {
            let check = ActionCheck::First;
            return Err(ActionFault::in_parameter(check, 1, ResponseCode::Value));
        }
        self.digest = or_digest(hash, list);
        Ok(())
    }

    /// TPM2_PolicyAuthValue: the HMAC key must include the entity's authorization value.
    #[tactic(auto, unfolding(crate::specs::Assertion::auth_value_asserted))]
    pub fn auth_value(&mut self, hash: HashAlg)
        ensures { self.new ≡ auth_value_asserted hash self.old }
    {
        self.extend(hash, CommandCode::PolicyAuthValue, &[]);
        self.demand = Demand::AuthValue;
    }

    /// TPM2_PolicyPassword: the entity's authorization value must be sent as a plaintext
    /// password.
    #[tactic(auto, unfolding(crate::specs::Assertion::password_asserted))]
    pub fn password(&mut self, hash: HashAlg)
        ensures { self.new ≡ password_asserted hash self.old }
    {
        self.extend(hash, CommandCode::PolicyAuthValue, &[]);
        self.demand = Demand::Password;
    }

    /// TPM2_PolicyCommandCode: returns VALUE if the policy already names another command, and
    /// POLICY_CC if a device of this profile serves no command with this code.
    #[tactic(auto, unfolding(crate::specs::Assertion::command_code_asserted))]
    pub fn command_code(
        &mut self,
        hash: HashAlg,
        profile: Profile,
        number: u32,
    ) -> Result<(), ActionFault>
        ensures { Asserts (command_code_asserted hash profile number self.old)
            self.old result self.new }
    {
        if self.records_other_code(number) {
            let check = ActionCheck::First;
            return Err(ActionFault::in_parameter(check, 1, ResponseCode::Value));
        }
        if !profile.serves_number(number) {
            let check = ActionCheck::Second;
            return Err(ActionFault::in_parameter(check, 1, ResponseCode::PolicyCc));
        }
        self.extend(hash, CommandCode::PolicyCommandCode, &number.to_be_bytes());
        self.command = Some(number);
        Ok(())
    }

    /// TPM2_PolicyCpHash: returns SIZE if the cpHash is not as long as a digest of the session's
    /// algorithm, and CPHASH if a different cpHash is recorded.
    #[tactic(auto, unfolding(crate::specs::Assertion::cp_hash_asserted))]
    pub fn cp_hash(&mut self, hash: HashAlg, cp_hash: &[u8]) -> Result<(), ActionFault>
        ensures { Asserts (cp_hash_asserted hash cp_hash.now self.old) self.old result self.new }
    {
        if cp_hash.len() != hash.size() {
            let check = ActionCheck::First;
            return Err(ActionFault::in_parameter(check, 1, ResponseCode::Size));
        }
        if self.records_other_hash(cp_hash) {
            return Err(ActionFault::plain(ActionCheck::Second, ResponseCode::Cphash));
        }
        self.extend(hash, CommandCode::PolicyCpHash, cp_hash);
        self.cp_hash = Some(copied(cp_hash));
        Ok(())
    }

    /// TPM2_PolicyNvWritten: returns VALUE if the opposite value is recorded.
    #[tactic(auto, unfolding(crate::specs::Assertion::nv_written_asserted))]
    pub fn nv_written(&mut self, hash: HashAlg, is_written: bool) -> Result<(), ActionFault>
        ensures { Asserts (nv_written_asserted hash is_written self.old) self.old result self.new }
    {
        if self.records_other_written(Some(is_written)) {
            let check = ActionCheck::First;
            return Err(ActionFault::in_parameter(check, 1, ResponseCode::Value));
        }
        self.extend(hash, CommandCode::PolicyNvWritten, &[u8::from(is_written)]);
        self.nv_written = Some(is_written);
        Ok(())
    }

    /// TPM2_PolicyLocality: returns RANGE if the parameter selects no locality, an extended
    /// locality, or only localities that are no longer allowed.
    #[tactic(auto, unfolding(crate::specs::Assertion::locality_asserted))]
    pub fn locality(&mut self, hash: HashAlg, localities: u8) -> Result<(), ActionFault>
        ensures { Asserts (locality_asserted hash localities self.old) self.old result self.new }
    {
        let left = self.localities & localities;
        if localities == 0 || localities > LOCALITIES_LIMIT || left == 0 {
            let check = ActionCheck::First;
            return Err(ActionFault::in_parameter(check, 1, ResponseCode::Range));
        }
        self.extend(hash, CommandCode::PolicyLocality, &[localities]);
        self.localities = left;
        Ok(())
    }
}

//! The assertion of TPM2_PolicySecret: the caller knows the authorization value of an entity.

ghost use Rattle.std.specs.Prelude.{◌≡◌};
ghost use Rattle.tpm_policy.specs.Assertion as assertion;
ghost use Rattle.tpm_policy.specs.Assertion.{Asserts, asserted_policy, is_other_hash, secret_digest, secret_parts};

use crate::state::PolicyState;
use tpm_bytes::{copied, is_equal};
use tpm_commands::CommandCode;
use tpm_mac::{Digest, HashAlg, digest_parts};
use tpm_types_common::{ActionCheck, ActionFault, ResponseCode};
use tpm_types_name::Name;

/// The data of a TPM2_PolicySecret assertion. An empty buffer means that the parameter is absent.
#[derive(Clone, Copy)]
pub struct SecretAssertion<'a> {
    /// The Name of the entity that authHandle names. The caller knows the authorization value of
    /// this entity.
    pub name: &'a Name,
    /// The nonce in the command.
    pub nonce: &'a [u8],
    /// The session's nonceTPM.
    pub nonce_tpm: &'a [u8],
    /// cpHashA: the cpHash of the only allowed command.
    pub cp_hash: &'a [u8],
    /// The parameter policyRef.
    pub reference: &'a [u8],
    pub expiration: u32,
}

/// The policy digest after TPM2_PolicySecret.
fn secret_digest(hash: HashAlg, digest: &[u8], name: &Name, reference: &[u8]) -> Digest
    ensures { result.items ≡ secret_digest hash digest.now name.now reference.now }
{
    let code = CommandCode::PolicySecret.number().to_be_bytes();
    let first = digest_parts(hash, &[digest, &code, name.as_slice()]);
    digest_parts(hash, &[first.as_slice(), reference])
}

impl PolicyState {
    /// Whether the policy has recorded the cpHash of another command.
    pub(crate) fn records_other_hash(&self, cp_hash: &[u8]) -> bool
        ensures { result ≡ is_other_hash self.now.cp_hash cp_hash.now }
    {
        match &self.cp_hash {
            Some(recorded) => !is_equal(recorded.as_slice(), cp_hash),
            None => false,
        }
    }

    /// TPM2_PolicySecret: returns VALUE if expiration is not 0, and SIZE if cpHashA is present but
    /// not as long as a digest. Returns NONCE if the nonce is present but not the session's
    /// nonceTPM, and CPHASH if cpHashA is present and a different cpHash is recorded. A trial
    /// session does not make the last two checks.
    #[tactic(auto, unfolding(crate::specs::Assertion::secret_asserted))]
    pub fn secret(
        &mut self,
        hash: HashAlg,
        trial: bool,
        about: &SecretAssertion,
    ) -> Result<(), ActionFault>
        ensures { Asserts
            (asserted_policy hash trial (assertion.Secret (secret_parts about.now)) self.old)
            self.old result self.new }
    {
        let (cp_hash, nonce) = (about.cp_hash, about.nonce);
        if about.expiration != 0 {
            let check = ActionCheck::First;
            return Err(ActionFault::in_parameter(check, 4, ResponseCode::Value));
        }
        if !cp_hash.is_empty() && cp_hash.len() != hash.size() {
            let check = ActionCheck::Second;
            return Err(ActionFault::in_parameter(check, 2, ResponseCode::Size));
        }
        if !trial && !nonce.is_empty() && !is_equal(nonce, about.nonce_tpm) {
            let check = ActionCheck::Third;
            return Err(ActionFault::in_parameter(check, 1, ResponseCode::Nonce));
        }
        if !trial && !cp_hash.is_empty() && self.records_other_hash(cp_hash) {
            return Err(ActionFault::plain(ActionCheck::Fourth, ResponseCode::Cphash));
        }
        let digest = self.digest.as_slice();
        self.digest = secret_digest(hash, digest, about.name, about.reference);
        if !cp_hash.is_empty() {
            self.cp_hash = Some(copied(cp_hash));
        }
        Ok(())
    }
}

//! The assertion of TPM2_PolicyPCR: the selected PCRs have values with a certain digest.

ghost use Rattle.tpm_commands.specs.CommandCode.{code_number};
ghost use Rattle.tpm_commands.specs.declared.command_code.CommandCode.TheVariants as served;
ghost use Rattle.std.specs.Prelude.{◌≡◌, ◌++◌};
ghost use Rattle.std.specs.Int.{w32, to_be_bytes};
ghost use Rattle.tpm_mac.specs.Digest.{hash_of};
ghost use Rattle.tpm_types_common.specs.PcrSelection.{selection_text};
ghost use Rattle.tpm_policy.specs.Assertion as assertion;
ghost use Rattle.tpm_policy.specs.Assertion.{Asserts, asserted_policy, is_other, pcr_parts, taken_digest};

use crate::state::PolicyState;
use tpm_bytes::{Sink, is_equal};
use tpm_commands::CommandCode;
use tpm_mac::{Digest, HashAlg, digest_parts};
use tpm_types_common::{ActionCheck, ActionFault, PcrSelection, ResponseCode};

/// The data of a TPM2_PolicyPCR assertion.
#[derive(Clone, Copy)]
pub struct PcrAssertion<'a> {
    /// The digest in the command, which may be empty.
    pub given: &'a [u8],
    pub selection: &'a PcrSelection,
    /// The digest of the values of the selected PCRs.
    pub digest: &'a [u8],
    /// The update counter of the PCRs.
    pub update_count: u64,
}

impl<'a> PcrAssertion<'a> {
    /// The digest with which the policy digest is extended: the digest of the PCRs' values. A trial
    /// session uses the digest in the command instead, if it is not empty.
    fn taken(&self, trial: bool) -> &'a [u8]
        ensures { result.now ≡ taken_digest trial (pcr_parts self.now) }
    {
        if trial && !self.given.is_empty() {
            self.given
        } else {
            self.digest
        }
    }
}

impl PolicyState {
    /// Whether the policy has recorded a different update counter of the PCRs.
    pub(crate) fn records_other_count(&self, update_count: u64) -> bool
        ensures { result ≡ is_other self.now.update_count update_count }
    {
        match self.update_count {
            Some(recorded) => recorded != update_count,
            None => false,
        }
    }

    /// The policy digest after TPM2_PolicyPCR.
    fn pcr_digest(&self, hash: HashAlg, trial: bool, about: &PcrAssertion) -> Digest
        ensures { result.items ≡ hash_of hash
            (self.now.digest ++ to_be_bytes w32 (code_number served.PolicyPcr)
            ++ (selection_text about.now.selection.now.banks.items
            ++ taken_digest trial (pcr_parts about.now))) }
    {
        let mut selection: Sink<100> = Sink::new();
        about.selection.append_to(&mut selection);
        let code = CommandCode::PolicyPcr.number().to_be_bytes();
        let (digest, taken) = (self.digest.as_slice(), about.taken(trial));
        digest_parts(hash, &[digest, &code, selection.as_slice(), taken])
    }

    /// TPM2_PolicyPCR: returns PCR_CHANGED if the session has recorded a different update counter
    /// of the PCRs. Returns VALUE if the command contains a digest that differs from the digest of
    /// the PCRs. A trial session makes neither check.
    #[tactic(auto, unfolding(crate::specs::Assertion::pcr_asserted))]
    pub fn pcr(
        &mut self,
        hash: HashAlg,
        trial: bool,
        about: &PcrAssertion,
    ) -> Result<(), ActionFault>
        ensures { Asserts
            (asserted_policy hash trial (assertion.Pcr (pcr_parts about.now)) self.old)
            self.old result self.new }
    {
        let (given, digest) = (about.given, about.digest);
        if !trial && self.records_other_count(about.update_count) {
            return Err(ActionFault::plain(ActionCheck::First, ResponseCode::PcrChanged));
        }
        if !trial && !given.is_empty() && !is_equal(given, digest) {
            let check = ActionCheck::Second;
            return Err(ActionFault::in_parameter(check, 1, ResponseCode::Value));
        }
        self.digest = self.pcr_digest(hash, trial, about);
        self.update_count = Some(about.update_count);
        Ok(())
    }
}

//! The assertion of TPM2_PolicyNV: the data of an NV index passes a comparison with an operand.

ghost use Rattle.std.specs.Prelude.{◌≡◌};
ghost use Rattle.tpm_policy.specs.Assertion as assertion;
ghost use Rattle.tpm_policy.specs.Assertion.{Asserts, asserted_policy, nv_arguments, nv_compared, nv_parts};

use crate::comparison::compares;
use crate::state::PolicyState;
use tpm_commands::CommandCode;
use tpm_mac::{Digest, HashAlg, digest_parts};
use tpm_types_common::{ActionCheck, ActionFault, Operation, ResponseCode};
use tpm_types_name::Name;

/// The data of a TPM2_PolicyNV assertion.
#[derive(Clone, Copy)]
pub struct NvAssertion<'a> {
    /// The Name of the index.
    pub name: &'a Name,
    pub operand: &'a [u8],
    pub offset: u16,
    pub operation: Operation,
    /// The bytes of the index that are compared with the operand, as many as the operand has; or
    /// the error if these bytes cannot be read.
    pub compared: Result<&'a [u8], ActionFault>,
}

impl NvAssertion<'_> {
    /// The digest of the operand, the offset and the operation.
    fn arguments(&self, hash: HashAlg) -> Digest
        ensures { result.items ≡ nv_arguments hash (nv_parts self.now) }
    {
        let (offset, operation) = (
            self.offset.to_be_bytes(),
            self.operation.number().to_be_bytes(),
        );
        digest_parts(hash, &[self.operand, &offset, &operation])
    }

    /// Returns an error if the bytes cannot be read or the comparison does not hold. Never returns
    /// an error in a trial session.
    fn check(&self, trial: bool) -> Result<(), ActionFault>
        ensures { result ≡ nv_compared trial (nv_parts self.now) }
    {
        if trial {
            return Ok(());
        }
        let bytes = self.compared?;
        if !compares(self.operation, bytes, self.operand) {
            return Err(ActionFault::plain(ActionCheck::Fifth, ResponseCode::Policy));
        }
        Ok(())
    }
}

impl PolicyState {
    /// TPM2_PolicyNV: returns the error from reading the index, or POLICY if the comparison does
    /// not hold. A trial session accepts any index and operand.
    #[tactic(auto, unfolding(crate::specs::Assertion::nv_asserted))]
    pub fn nv(&mut self, hash: HashAlg, trial: bool, about: &NvAssertion) -> Result<(), ActionFault>
        ensures { Asserts (asserted_policy hash trial (assertion.Nv (nv_parts about.now)) self.old)
            self.old result self.new }
    {
        about.check(trial)?;
        let code = CommandCode::PolicyNv.number().to_be_bytes();
        let (digest, arguments) = (self.digest.as_slice(), about.arguments(hash));
        self.digest = digest_parts(
            hash,
            &[digest, &code, arguments.as_slice(), about.name.as_slice()],
        );
        Ok(())
    }
}

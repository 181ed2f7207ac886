//! The NV index whose data TPM2_PolicyNV compares. The calls read the data, or return the reason
//! why it cannot be read, and assert that the comparison holds.

ghost use Rattle.std.specs.Prelude.{◌≡◌, ◌≤◌, length};
ghost use Rattle.tpm_policy.specs.Assertion as assertion;
ghost use Rattle.tpm_policy.specs.Assertion.{Asserts, asserted_policy, compared_bytes};
ghost use Rattle.tpm_types_common.specs.SessionType.{is_trial};
ghost use Rattle.tpm_actions_policy.specs.PolicyNv.{compared, nv_parts_of};

use tpm_nv::Indices;
use tpm_policy::{NvAssertion, PolicyState};
use tpm_record::rows::target::Target;
use tpm_record::{Keep, name_of};
use tpm_session::Session;
use tpm_types_common::{ActionCheck, ActionFault, Operation, ResponseCode};

/// The comparison that TPM2_PolicyNV asserts: the index, the operand, the offset and the operation.
#[derive(Clone, Copy)]
pub struct ComparedIndex<'a> {
    pub(crate) target: Target,
    pub(crate) operand: &'a [u8],
    pub(crate) offset: u16,
    pub(crate) operation: Operation,
    ghost few: { length operand.now ≤ 32 },
}

impl ComparedIndex<'_> {
    ghost use Rattle.tpm_actions_policy.specs.AssertionParameters.{nv_asked};

    /// The bytes of the index's data that are compared (as many as the operand has), or the reason
    /// why they cannot be read.
    fn compared<'k, K: Keep>(&self, keep: &'k K) -> Result<&'k [u8], ActionFault>
        ensures { compared_bytes result
            ≡ compared (K.record_of keep.now) self.now.target (nv_asked self.now) }
    {
        self.target.check_reading()?;
        let size = self.operand.len() as u16;
        match keep.nv().read(self.target.handle, self.offset, size) {
            Ok(bytes) => Ok(bytes),
            Err(_) => Err(ActionFault::plain(ActionCheck::Fourth, ResponseCode::NvRange)),
        }
    }

    /// Adds an assertion to a session's policy: the comparison with the operand holds for the
    /// current data of the index.
    pub fn assert_on<K: Keep>(
        &self,
        keep: &K,
        session: &Session,
        policy: &mut PolicyState,
    ) -> Result<(), ActionFault>
        ensures { Asserts
            (asserted_policy session.now.hash (is_trial session.now.kind)
            (assertion.Nv (nv_parts_of (K.record_of keep.now) self.now.target (nv_asked self.now)))
            policy.old)
            policy.old result policy.new }
    {
        let name = name_of(keep, self.target.handle);
        let about = NvAssertion {
            name: &name,
            operand: self.operand,
            offset: self.offset,
            operation: self.operation,
            compared: self.compared(keep),
        };
        policy.nv(session.hash(), session.kind().is_trial(), &about)
    }
}

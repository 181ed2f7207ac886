//! What the commands on NV indices have in common: which authHandle may write or read an index, and
//! how a write or a lock is refused.

ghost use Rattle.std.specs.Prelude.{◌≡◌};
ghost use Rattle.tpm_nvactions.specs.Access.{lock_refusal, reader_passes, writing_refusal, writer_passes};

use tpm_nv::{LockFault, WriteFault};
use tpm_record::rows::refusals::{action_refusal, handle_refusal};
use tpm_record::rows::target::Target;
use tpm_types_common::{ActionCheck, Refused, ResponseCode};

/// Refuses an authHandle that may not write the index.
pub fn check_writer(target: &Target) -> Result<(), Refused>
    ensures { result ≡ writer_passes target.now }
{
    if target.may_write() {
        Ok(())
    } else {
        Err(action_refusal(ActionCheck::First, ResponseCode::NvAuthorization.anywhere()))
    }
}

/// Refuses an authHandle that may not read the index.
pub fn check_reader(target: &Target) -> Result<(), Refused>
    ensures { result ≡ reader_passes target.now }
{
    if target.may_read() {
        Ok(())
    } else {
        Err(action_refusal(ActionCheck::First, ResponseCode::NvAuthorization.anywhere()))
    }
}

/// The refusal of a write that failed with this fault.
pub fn writing_refusal(fault: WriteFault) -> Refused
    ensures { result ≡ writing_refusal fault }
{
    match fault {
        WriteFault::Locked => {
            action_refusal(ActionCheck::Second, ResponseCode::NvLocked.anywhere())
        }
        WriteFault::Attributes => action_refusal(
            ActionCheck::Third,
            ResponseCode::Attributes.anywhere().at_handle(2),
        ),
        WriteFault::PastData | WriteFault::Partial | WriteFault::Exhausted => {
            action_refusal(ActionCheck::Fourth, ResponseCode::NvRange.anywhere())
        }
        WriteFault::Undefined => handle_refusal(),
    }
}

/// The refusal of a lock that failed with this fault.
pub fn lock_refusal(fault: LockFault) -> Refused
    ensures { result ≡ lock_refusal fault }
{
    match fault {
        LockFault::Attributes => action_refusal(
            ActionCheck::Second,
            ResponseCode::Attributes.anywhere().at_handle(2),
        ),
        LockFault::Undefined => handle_refusal(),
    }
}

//! The refusals that TPM2_PCR_Extend, TPM2_PCR_Event and TPM2_PCR_Reset share.

ghost use Rattle.std.specs.Prelude.{◌≡◌};
ghost use Rattle.tpm_actions_device.specs.PcrChange.{change_refusal};

use tpm_pcr::ChangeFault;
use tpm_record::rows::refusals::action_refusal;
use tpm_types_common::{ActionCheck, Refused, ResponseCode};

/// The refusal of a command that could not change a PCR because of this fault.
pub fn change_refusal(fault: ChangeFault) -> Refused
    ensures { result ≡ change_refusal fault }
{
    match fault {
        ChangeFault::Locality => action_refusal(
            ActionCheck::First,
            ResponseCode::Locality.anywhere(),
        ),
        ChangeFault::Failure => action_refusal(
            ActionCheck::Second,
            ResponseCode::Failure.anywhere(),
        ),
    }
}

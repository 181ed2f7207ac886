//! The refusals that the rows of all commands use: refusals by one of the command's own checks,
//! because of a handle, or because memory ran out.

ghost use Rattle.std.specs.Prelude.{◌≡◌};
ghost use Rattle.tpm_record.specs.rows.Refusals.{action_refusal, fault_refusal, handle_refusal, memory_refusal, parameter_refusal};

use tpm_types_common::{ActionCheck, ActionFault, Check, Rc, Refused, ResponseCode};

/// The refusal if a handle names no entity. It never occurs, because the general checks have found
/// an entity.
pub fn handle_refusal() -> Refused
    ensures { result ≡ handle_refusal }
{
    Refused::by(Check::Handles, ResponseCode::Failure.anywhere())
}

/// The refusal by one of a command's own checks.
pub fn action_refusal(check: ActionCheck, rc: Rc) -> Refused
    ensures { result ≡ action_refusal check rc }
{
    Refused::by(Check::Action(check), rc)
}

/// The refusal of a parameter by one of the command's own checks, with this response code.
pub fn parameter_refusal(check: ActionCheck, parameter: u8, code: ResponseCode) -> Refused
    ensures { result ≡ parameter_refusal check parameter code }
{
    action_refusal(check, code.anywhere().at_parameter(parameter))
}

/// The refusal for a fault that one of the command's own checks found.
pub fn fault_refusal(fault: ActionFault) -> Refused
    ensures { result ≡ fault_refusal fault }
{
    action_refusal(fault.check, fault.rc)
}

/// The refusal because memory ran out.
pub fn memory_refusal() -> Refused
    ensures { result ≡ memory_refusal }
{
    Refused::by(Check::Memory, ResponseCode::Memory.anywhere())
}

//! The refusal of a command by one of its own checks.

ghost use Rattle.std.specs.Prelude.{◌≡◌};

use crate::action_check::ActionCheck;
use crate::rc::{Rc, ResponseCode};

/// A refusal by one of a command's own checks: the check and the response code.
#[derive(Clone, Copy, PartialEq, Eq)]
pub struct ActionFault {
    pub check: ActionCheck,
    pub rc: Rc,
}

impl ActionFault {
    ghost use Rattle.tpm_types_common.specs.ActionFault.{parameter_fault, plain_fault};

    /// A fault whose response code names no handle, parameter or session.
    pub fn plain(check: ActionCheck, code: ResponseCode) -> ActionFault
        ensures { result ≡ plain_fault check code }
    {
        ActionFault {
            check,
            rc: code.anywhere(),
        }
    }

    /// A fault in the parameter with this number.
    pub fn in_parameter(check: ActionCheck, parameter: u8, code: ResponseCode) -> ActionFault
        ensures { result ≡ parameter_fault check parameter code }
    {
        ActionFault {
            check,
            rc: code.anywhere().at_parameter(parameter),
        }
    }
}

//! The checks that can refuse a command. The row of an event reports the number of the check.

ghost use Rattle.std.specs.Prelude.{◌≡◌};

use crate::action_check::ActionCheck;

/// The check that refused a command: one of G1 to G11, which apply to every command; one of A1 to
/// A7, the command's own checks; or M, out of memory. A row reports its number.
#[derive(Clone, Copy, PartialEq, Eq)]
pub enum Check {
    /// G1: the buffer is shorter than a header, or longer than the limit.
    Length,
    /// G2: the tag is neither TPM_ST_SESSIONS nor TPM_ST_NO_SESSIONS.
    Tag,
    /// G3: commandSize differs from the length of the buffer.
    Size,
    /// G4: the command code is not supported.
    Code,
    /// G5: the device is not started and the command is not TPM2_Startup, or the device is started
    /// and the command is TPM2_Startup.
    Started,
    /// G6: a handle is truncated, has a type that the command does not accept, or names nothing
    /// that exists.
    Handles,
    /// G7: the command has sessions but allows none, or has no sessions but a handle needs
    /// authorization.
    Sessions,
    /// G8: the authorization area or one of its entries has a fault.
    Entries,
    /// G9: the authorization of one of the command's handles fails.
    Authorization,
    /// G10: an entry that authorizes no handle fails, or the first parameter cannot be decrypted.
    Others,
    /// G11: a parameter has a fault, or bytes follow the last parameter.
    Parameters,
    /// A1 to A7: the command's own checks.
    Action(ActionCheck),
    /// M: out of memory.
    Memory,
}

impl Check {
    ghost use Rattle.tpm_types_common.specs.Check.{check_number};

    /// The number that a row reports for the check.
    pub fn number(self) -> u8
        ensures { result ≡ check_number self }
    {
        match self {
            Check::Length => 1,
            Check::Tag => 2,
            Check::Size => 3,
            Check::Code => 4,
            Check::Started => 5,
            Check::Handles => 6,
            Check::Sessions => 7,
            Check::Entries => 8,
            Check::Authorization => 9,
            Check::Others => 10,
            Check::Parameters => 11,
            Check::Action(action) => 20 + action.number(),
            Check::Memory => 255,
        }
    }
}

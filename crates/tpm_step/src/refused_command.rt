//! A refusal with the code of the refused command.

ghost use Rattle.std.specs.Prelude.{◌≡◌};
ghost use Rattle.tpm_commands.specs.CommandCode.{code_number};

use tpm_commands::CommandCode;
use tpm_types_common::Refused;

/// A refusal, and the code of the refused command, or 0 if no code was found.
#[derive(Clone, Copy, PartialEq, Eq)]
pub struct RefusedCommand {
    pub code: u32,
    pub refused: Refused,
}

impl RefusedCommand {
    /// Adds the code of a command to its refusal.
    pub fn of(code: CommandCode, refused: Refused) -> RefusedCommand
        ensures { result ≡ record { code = code_number code; refused = refused } }
    {
        RefusedCommand {
            code: code.number(),
            refused,
        }
    }
}

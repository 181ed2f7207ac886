//! The reason why a line is not a command: the first fault from the left, with its column.

ghost use Rattle.std.specs.Prelude.{◌≡◌};
ghost use Rattle.tpm_text.specs.Fault.{fault_at};

use std::alloc::AllocError;
use tpm_number::TokenFault;

/// The reasons why a line is not a command, or encodes a command that does not fit in a buffer. The
/// first fault from the left is the reason. A column is the position of a token's first byte,
/// counted from 1.
#[derive(Clone, Copy, PartialEq, Eq)]
pub enum AsmFault {
    /// The first token is not the name of a command.
    BadName,
    /// The token at this column is not of the expected kind, or no token is expected there.
    BadField { column: usize },
    /// The line ends before an expected token.
    Missing,
    /// A number in the token at this column is too large.
    Range { column: usize },
    /// The command does not fit into a buffer. The line has no other fault.
    TooLong,
    /// An allocation failed. The line has no fault.
    NoMemory,
}

impl From<AllocError> for AsmFault {
    ghost use Rattle.tpm_text.specs.declared.fault.AsmFault.TheVariants.{NoMemory};

    ghost from_gives = { λ _ fault. fault ≡ NoMemory };

    fn from(_error: AllocError) -> AsmFault {
        AsmFault::NoMemory
    }
}

/// Returns the fault of a line whose token at this column has this fault.
pub fn fault_at(column: usize, fault: TokenFault) -> AsmFault
    ensures { result ≡ fault_at column fault }
{
    match fault {
        TokenFault::Bad => AsmFault::BadField { column },
        TokenFault::Range => AsmFault::Range { column },
    }
}

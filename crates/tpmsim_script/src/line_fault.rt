//! Why a script stops at a line, before the line's number is known.

ghost use Rattle.std.specs.Prelude.{◌≡◌};

use crate::bad_line::BadLine;
use crate::fault::RunFault;
use crate::line::Unfit;
use tpm_text::AsmFault;

/// The reasons why a script stops at a line.
#[derive(Clone, Copy, PartialEq, Eq)]
pub enum LineFault {
    /// The line is not allowed in a script.
    Bad,
    /// The line's response, or an earlier response, could not be written.
    Write,
    /// The device could not be saved.
    Save,
}

impl LineFault {
    ghost use Rattle.tpmsim_script.specs.LineFault.{fault_at};

    /// The fault of a script that stops at the line with this number.
    pub fn at(self, number: u32) -> RunFault
        ensures { result ≡ fault_at number self }
    {
        match self {
            LineFault::Bad => RunFault::Line(number),
            LineFault::Write => RunFault::Write,
            LineFault::Save => RunFault::Save,
        }
    }
}

impl From<BadLine> for LineFault {
    ghost use Rattle.tpmsim_script.specs.declared.line_fault.LineFault.TheVariants.{Bad};

    ghost from_gives = { λ _ fault. fault ≡ Bad };

    fn from(_error: BadLine) -> LineFault {
        LineFault::Bad
    }
}

impl From<Unfit> for LineFault {
    ghost use Rattle.tpmsim_script.specs.declared.line_fault.LineFault.TheVariants.{Bad};

    ghost from_gives = { λ _ fault. fault ≡ Bad };

    fn from(_error: Unfit) -> LineFault {
        LineFault::Bad
    }
}

impl From<AsmFault> for LineFault {
    ghost use Rattle.tpmsim_script.specs.declared.line_fault.LineFault.TheVariants.{Bad};

    ghost from_gives = { λ _ fault. fault ≡ Bad };

    fn from(_error: AsmFault) -> LineFault {
        LineFault::Bad
    }
}

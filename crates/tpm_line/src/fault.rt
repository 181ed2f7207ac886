//! The error if no line was returned for a buffer.

ghost use Rattle.std.specs.Prelude.{◌≡◌};

use std::fmt;
use tpm_bytes::{Short, SizedFault};
use tpm_types_common::Rc;

/// The reasons why no line was returned for a buffer.
#[derive(Clone, Copy, PartialEq, Eq)]
pub enum SpellFault {
    /// No line was found that encodes the buffer.
    NoLine,
    /// There is not enough memory for the line.
    NoMemory,
}

impl From<fmt::Error> for SpellFault {
    ghost use Rattle.tpm_line.specs.declared.fault.SpellFault.TheVariants.{NoMemory};

    ghost from_gives = { λ _ fault. fault ≡ NoMemory };

    fn from(_error: fmt::Error) -> SpellFault {
        SpellFault::NoMemory
    }
}

impl From<Short> for SpellFault {
    ghost use Rattle.tpm_line.specs.declared.fault.SpellFault.TheVariants.{NoLine};

    ghost from_gives = { λ _ fault. fault ≡ NoLine };

    fn from(_fault: Short) -> SpellFault {
        SpellFault::NoLine
    }
}

impl From<SizedFault> for SpellFault {
    ghost use Rattle.tpm_line.specs.declared.fault.SpellFault.TheVariants.{NoLine};

    ghost from_gives = { λ _ fault. fault ≡ NoLine };

    fn from(_fault: SizedFault) -> SpellFault {
        SpellFault::NoLine
    }
}

impl From<Rc> for SpellFault {
    ghost use Rattle.tpm_line.specs.declared.fault.SpellFault.TheVariants.{NoLine};

    ghost from_gives = { λ _ fault. fault ≡ NoLine };

    fn from(_code: Rc) -> SpellFault {
        SpellFault::NoLine
    }
}

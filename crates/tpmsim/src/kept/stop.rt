//! Why a script that is played on a kept device stops.

ghost use Rattle.std.specs.Prelude.{◌≡◌};

use std::alloc::AllocError;
use tpm_text::AsmFault;
use tpmsim_folder::KeptFault;
use tpmsim_script::line::Unfit;
use tpmsim_script::{BadLine, RunFault};

/// Why a script was not played to its end.
#[derive(Clone, Copy, PartialEq, Eq)]
pub enum PlayFault {
    Script(RunFault),
    Kept(KeptFault),
}

/// Why a line was not performed.
#[derive(Clone, Copy, PartialEq, Eq)]
pub enum Stop {
    /// The line is not allowed in a script.
    Bad,
    /// The output of the line could not be written.
    Write,
    /// The kept device could not perform the line.
    Kept(KeptFault),
}

impl Stop {
    ghost use Rattle.tpmsim.specs.kept.Stop.{fault_at};

    /// The fault of a script that stops at the line with this number.
    pub fn at(self, number: u32) -> PlayFault
        ensures { result ≡ fault_at number self }
    {
        match self {
            Stop::Bad => PlayFault::Script(RunFault::Line(number)),
            Stop::Write => PlayFault::Script(RunFault::Write),
            Stop::Kept(fault) => PlayFault::Kept(fault),
        }
    }
}

impl From<BadLine> for Stop {
    ghost use Rattle.tpmsim.specs.declared.kept.stop.Stop.TheVariants.{Bad};

    ghost from_gives = { λ _ stop. stop ≡ Bad };

    fn from(_bad: BadLine) -> Stop {
        Stop::Bad
    }
}

impl From<Unfit> for Stop {
    ghost use Rattle.tpmsim.specs.declared.kept.stop.Stop.TheVariants.{Bad};

    ghost from_gives = { λ _ stop. stop ≡ Bad };

    fn from(_unfit: Unfit) -> Stop {
        Stop::Bad
    }
}

impl From<AsmFault> for Stop {
    ghost use Rattle.tpmsim.specs.declared.kept.stop.Stop.TheVariants.{Bad};

    ghost from_gives = { λ _ stop. stop ≡ Bad };

    fn from(_fault: AsmFault) -> Stop {
        Stop::Bad
    }
}

impl From<KeptFault> for Stop {
    ghost use Rattle.tpmsim.specs.declared.kept.stop.Stop.TheVariants.{Kept};

    ghost from_gives = { λ fault stop. stop ≡ Kept fault };

    fn from(fault: KeptFault) -> Stop {
        Stop::Kept(fault)
    }
}

impl From<AllocError> for PlayFault {
    ghost use Rattle.tpmsim.specs.declared.kept.stop.PlayFault.TheVariants.{Script};
    ghost use Rattle.tpmsim_script.specs.declared.fault.RunFault.TheVariants.{NoMemory};

    ghost from_gives = { λ _ fault. fault ≡ Script NoMemory };

    fn from(_error: AllocError) -> PlayFault {
        PlayFault::Script(RunFault::NoMemory)
    }
}

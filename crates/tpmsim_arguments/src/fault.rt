//! Why the words of a command line are refused.

ghost use Rattle.std.specs.Prelude.{◌≡◌};

use std::alloc::AllocError;

/// The reason why the words of a command line are refused.
#[derive(Clone, Copy, PartialEq, Eq)]
pub enum ArgumentFault {
    /// The words are not one of the program's command lines.
    Usage,
    NoMemory,
}

impl From<AllocError> for ArgumentFault {
    ghost use Rattle.tpmsim_arguments.specs.declared.fault.ArgumentFault.TheVariants.{NoMemory};

    ghost from_gives = { λ _ fault. fault ≡ NoMemory };

    fn from(_error: AllocError) -> ArgumentFault {
        ArgumentFault::NoMemory
    }
}

impl From<clap::Error> for ArgumentFault {
    ghost use Rattle.clap.specs.Words.{kind_of};
    ghost use Rattle.tpmsim_arguments.specs.Fault.{fault_of_words};

    ghost from_gives = { λ error fault. fault ≡ fault_of_words (kind_of error) };

    fn from(error: clap::Error) -> ArgumentFault {
        match error.kind() {
            clap::error::ErrorKind::OutOfMemory => ArgumentFault::NoMemory,
            _ => ArgumentFault::Usage,
        }
    }
}

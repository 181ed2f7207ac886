//! Why a run of a device's script does not reach the script's end.

ghost use Rattle.std.specs.Prelude.{◌≡◌};

use std::alloc::AllocError;
use tpm_bytes::NoMemory;

/// The reasons why a script did not run to its end. The lines before the fault were run, and
/// their responses written. Only a `Write` or a `Save` fault can truncate the responses.
#[derive(Clone, Copy, PartialEq, Eq)]
pub enum RunFault {
    /// The line with this number, counted from 1, is not allowed in a script.
    Line(u32),
    /// The reader failed. The complete lines that it had returned were run.
    Read,
    /// The script contains more lines than the limit. The lines up to the limit were run.
    TooManyLines,
    /// The responses could not be written.
    Write,
    /// The device could not be saved. The response to the last command was not written.
    Save,
    /// The device or the buffers could not be allocated. Nothing was read.
    NoMemory,
}

impl From<AllocError> for RunFault {
    ghost use Rattle.tpmsim_script.specs.declared.fault.RunFault.TheVariants.{NoMemory};

    ghost from_gives = { λ _ fault. fault ≡ NoMemory };

    fn from(_error: AllocError) -> RunFault {
        RunFault::NoMemory
    }
}

impl From<NoMemory> for RunFault {
    ghost use Rattle.tpmsim_script.specs.declared.fault.RunFault.TheVariants.{NoMemory as Refused};

    ghost from_gives = { λ _ fault. fault ≡ Refused };

    fn from(_error: NoMemory) -> RunFault {
        RunFault::NoMemory
    }
}

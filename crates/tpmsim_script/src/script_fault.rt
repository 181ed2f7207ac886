//! Why a script on a new device does not run to its end.

ghost use Rattle.std.specs.Prelude.{◌≡◌};

use tpm_bytes::NoMemory;

/// The reasons why a script on a new device did not run to its end. The lines before the fault were
/// run, and their responses written. Only a `Write` fault can truncate the responses.
#[derive(Clone, Copy, PartialEq, Eq)]
pub enum ScriptFault {
    /// The line with this number, counted from 1, is not allowed in a script.
    Line(u32),
    /// The reader failed, or the script contains more lines than the limit. The complete lines that
    /// the reader had returned were run, up to the limit.
    Read,
    /// The responses could not be written.
    Write,
    /// The device or the buffers could not be allocated. Nothing was read.
    NoMemory,
}

impl From<NoMemory> for ScriptFault {
    ghost use Rattle.tpmsim_script.specs.declared.script_fault.ScriptFault.TheVariants.{NoMemory as Refused};

    ghost from_gives = { λ _ fault. fault ≡ Refused };

    fn from(_error: NoMemory) -> ScriptFault {
        ScriptFault::NoMemory
    }
}

//! Why this program failed, and its exit status.

use std::alloc::AllocError;
use std::io;
use std::io::ErrorKind;
use tpm_bytes::NoMemory;
use tpm_image::ImageFault;
use tpm_text::AsmFault;
use tpmsim_script::ScriptFault;

/// Why the program failed.
#[derive(Clone, Copy, PartialEq, Eq)]
pub enum Fault {
    /// The arguments are not a valid command line.
    Usage,
    /// The script contains a bad line, or could not be read, or its responses could not be
    /// written.
    Script,
    /// The line in words is not a command.
    Line,
    /// The file is not an image.
    Image,
    /// A file or standard output could not be opened, read or written.
    File,
    Memory,
}

impl Fault {
    /// The word that is printed on standard error for the fault.
    pub fn name(self) -> &'static str {
        match self {
            Fault::Usage => "usage",
            Fault::Script => "script",
            Fault::Line => "line",
            Fault::Image => "image",
            Fault::File => "file",
            Fault::Memory => "memory",
        }
    }

    /// The exit status: 3 if an allocation failed, otherwise 1.
    pub fn status(self) -> u8 {
        match self {
            Fault::Memory => 3,
            _ => 1,
        }
    }
}

impl From<AllocError> for Fault {
    fn from(_error: AllocError) -> Fault {
        Fault::Memory
    }
}

impl From<NoMemory> for Fault {
    fn from(_fault: NoMemory) -> Fault {
        Fault::Memory
    }
}

impl From<io::Error> for Fault {
    fn from(error: io::Error) -> Fault {
        match error.kind() {
            ErrorKind::OutOfMemory => Fault::Memory,
            _ => Fault::File,
        }
    }
}

impl From<ScriptFault> for Fault {
    fn from(fault: ScriptFault) -> Fault {
        match fault {
            ScriptFault::NoMemory => Fault::Memory,
            _ => Fault::Script,
        }
    }
}

impl From<ImageFault> for Fault {
    fn from(fault: ImageFault) -> Fault {
        match fault {
            ImageFault::NoMemory => Fault::Memory,
            _ => Fault::Image,
        }
    }
}

impl From<AsmFault> for Fault {
    fn from(fault: AsmFault) -> Fault {
        match fault {
            AsmFault::NoMemory => Fault::Memory,
            _ => Fault::Line,
        }
    }
}

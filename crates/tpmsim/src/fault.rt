//! Why the program fails: its message on standard error, and its exit status.

ghost use Rattle.std.specs.Prelude.{◌≡◌, if◌then◌else◌};
ghost use Rattle.tpmsim_folder.specs.Fault.{is_of_contents};

use crate::kept::PlayFault;
use std::alloc::AllocError;
use std::io::ErrorKind;
use std::{fmt, io};
use tpm_bytes::NoMemory;
use tpm_image_text::ImageFault;
use tpm_line::SpellFault;
use tpm_state_text::StateFault;
use tpm_text::AsmFault;
use tpmsim_arguments::ArgumentFault;
use tpmsim_folder::KeptFault;
use tpmsim_image::{Cause, DeviceFault, Subject};
use tpmsim_script::{RunFault, ScriptFault};

/// Why the program failed. `Display` writes the line for standard error. That line does not contain
/// a cause, which [`crate::explaining`] prints on request.
#[derive(Clone, Copy, PartialEq, Eq)]
pub enum Fault {
    /// The command line is not valid.
    Usage,
    /// The line with this number, counted from 1, is not allowed in a script.
    ScriptLine(u32),
    /// The line to be assembled does not encode a command.
    Asm(AsmFault),
    /// No line encodes the buffer.
    NoLine,
    /// The image file does not contain an image.
    Image(ImageFault),
    /// The file that `restore` reads does not contain a state text.
    State(StateFault),
    /// A file could not be opened, read or written; or standard input could not be read; or
    /// standard output could not be written.
    File(Cause),
    /// The socket could not be created, or could not accept a connection.
    Socket(Cause),
    /// The file of random bytes could not be opened, or has too few bytes left.
    Entropy(Cause),
    Memory,
    /// An action on the device in a folder failed.
    Kept(KeptFault),
    /// A journal could not be executed again to its end.
    Journal(JournalFault),
}

/// Why a journal could not be executed again to its end. Its lines are numbered from 1.
#[derive(Clone, Copy, PartialEq, Eq)]
pub enum JournalFault {
    /// The journal does not begin with a head.
    IsNoJournal,
    /// The head's image is not an image of this version of the program.
    HoldsNoImage,
    /// The head's state text is not a state text of this version of the program.
    HoldsNoState,
    /// The head's state text has version 1, which is no longer read.
    HoldsEarlierState,
    /// The entry that begins at this line is damaged.
    IsDamaged(u64),
    /// The response recorded in the entry that begins at this line differs from the device's
    /// response.
    WasAnsweredOtherwise(u64),
}

impl Fault {
    ghost use Rattle.tpmsim.specs.Fault.{alone, fault_or, given_or, image_text, state_fault_text};
    ghost use Rattle.tpmsim.specs.Fault.{status_of, with_cause};
    ghost use Rattle.tpmsim.specs.declared.fault.Fault.TheVariants.{File};

    /// Returns the fault of a file or a stream, without a system error.
    pub fn file(subject: Subject) -> Fault
        ensures { result ≡ File (alone subject) }
    {
        Fault::File(subject.alone())
    }

    /// Returns the value of the result. If the result is an error, returns `Memory` if memory ran
    /// out, and otherwise this fault with the number of the error.
    pub fn unless<T>(self, given: io::Result<T>) -> Result<T, Fault>
        ensures { result ≡ given_or self given }
    {
        match given {
            Ok(value) => Ok(value),
            Err(error) => Err(Fault::of_io(error, self)),
        }
    }

    /// Returns `Memory` if memory ran out, and otherwise the fault `otherwise` with the number of
    /// the error.
    fn of_io(error: io::Error, otherwise: Fault) -> Fault
        ensures { result ≡ fault_or otherwise error }
    {
        match error.kind() {
            ErrorKind::OutOfMemory => Fault::Memory,
            _ => otherwise.with(&error),
        }
    }

    /// Adds the number of a system error to the fault's cause. A fault without a cause is
    /// unchanged.
    fn with(self, error: &io::Error) -> Fault
        ensures { result ≡ with_cause self error.now }
    {
        match self {
            Fault::File(cause) => Fault::File(cause.with(error)),
            Fault::Socket(cause) => Fault::Socket(cause.with(error)),
            Fault::Entropy(cause) => Fault::Entropy(cause.with(error)),
            fault => fault,
        }
    }

    /// Returns the exit status for the fault. It is 2 if the request is not valid. It is 3 if a
    /// file, a socket, a stream or memory caused the failure. It is 4 if the contents of an image,
    /// a state text or a journal are not accepted.
    pub fn status(self) -> u8
        ensures { result ≡ status_of self }
    {
        match self {
            Fault::Usage | Fault::ScriptLine(_) | Fault::Asm(_) | Fault::NoLine => 2,
            Fault::File(_) | Fault::Socket(_) | Fault::Entropy(_) | Fault::Memory => 3,
            Fault::Image(_) | Fault::State(_) | Fault::Journal(_) => 4,
            Fault::Kept(fault) => kept_status(fault),
        }
    }

    /// The name of an image's fault.
    fn image_name(fault: ImageFault) -> &'static str
        ensures { result.now ≡ image_text fault }
    {
        match fault {
            ImageFault::Short => "Short",
            ImageFault::Magic => "Magic",
            ImageFault::Version => "Version",
            ImageFault::Length => "Length",
            ImageFault::Digest => "Digest",
            ImageFault::Body => "Body",
            ImageFault::NoMemory => "NoMemory",
        }
    }

    /// The name of a state text's fault.
    fn state_name(fault: StateFault) -> &'static str
        ensures { result.now ≡ state_fault_text fault }
    {
        match fault {
            StateFault::Short => "Short",
            StateFault::Magic => "Magic",
            StateFault::Version => "Version",
            StateFault::Length => "Length",
            StateFault::Digest => "Digest",
            StateFault::Body => "Body",
            StateFault::Earlier => "Earlier",
        }
    }
}

impl fmt::Display for Fault {
    ghost use Rattle.std.specs.Prelude.{Some};
    ghost use Rattle.tpmsim.specs.Fault.{fault_text};

    ghost output = { λ fault. Some (fault_text fault) };

    fn fmt<W: fmt::Write>(&self, f: &mut fmt::Formatter<W>) -> fmt::Result {
        match self {
            Fault::Usage => write!(f, "usage"),
            Fault::ScriptLine(number) => write!(f, "script line {number}"),
            Fault::Asm(AsmFault::BadName) => write!(f, "asm BadName"),
            Fault::Asm(AsmFault::BadField { column }) => write!(f, "asm BadField {column}"),
            Fault::Asm(AsmFault::Missing) => write!(f, "asm Missing"),
            Fault::Asm(AsmFault::Range { column }) => write!(f, "asm Range {column}"),
            Fault::Asm(AsmFault::TooLong) => write!(f, "asm TooLong"),
            Fault::Asm(AsmFault::NoMemory) => write!(f, "asm NoMemory"),
            Fault::NoLine => write!(f, "line NoLine"),
            Fault::Image(fault) => {
                let name = Fault::image_name(*fault);
                write!(f, "image {name}")
            }
            Fault::State(fault) => {
                let name = Fault::state_name(*fault);
                write!(f, "snapshot {name}")
            }
            Fault::File(_) => write!(f, "file"),
            Fault::Socket(_) => write!(f, "socket"),
            Fault::Entropy(_) => write!(f, "entropy"),
            Fault::Memory => write!(f, "memory"),
            Fault::Kept(fault) => write!(f, "{fault}"),
            Fault::Journal(fault) => write!(f, "{fault}"),
        }
    }
}

impl fmt::Display for JournalFault {
    ghost use Rattle.std.specs.Prelude.{Some};
    ghost use Rattle.tpmsim.specs.Fault.{journal_fault_text};

    ghost output = { λ fault. Some (journal_fault_text fault) };

    fn fmt<W: fmt::Write>(&self, f: &mut fmt::Formatter<W>) -> fmt::Result {
        match self {
            JournalFault::IsNoJournal => write!(f, "journal is no journal of a device"),
            JournalFault::HoldsNoImage => {
                write!(f, "journal holds an image that this program does not open")
            }
            JournalFault::HoldsNoState => {
                write!(f, "journal holds a state that this program does not open")
            }
            JournalFault::HoldsEarlierState => write!(
                f,
                "journal holds a state text of version 1, which is no longer read: begin with a new device"
            ),
            JournalFault::IsDamaged(line) => write!(f, "journal line {line} is damaged"),
            JournalFault::WasAnsweredOtherwise(line) => {
                write!(f, "journal line {line} was answered otherwise")
            }
        }
    }
}

impl From<AllocError> for Fault {
    ghost use Rattle.tpmsim.specs.declared.fault.Fault.TheVariants.{Memory};

    ghost from_gives = { λ _ fault. fault ≡ Memory };

    fn from(_error: AllocError) -> Fault {
        Fault::Memory
    }
}

impl From<NoMemory> for Fault {
    ghost use Rattle.tpmsim.specs.declared.fault.Fault.TheVariants.{Memory};

    ghost from_gives = { λ _ fault. fault ≡ Memory };

    fn from(_fault: NoMemory) -> Fault {
        Fault::Memory
    }
}

impl From<DeviceFault> for Fault {
    ghost use Rattle.tpmsim.specs.Fault.{fault_of_device};

    ghost from_gives = { λ device_fault fault. fault ≡ fault_of_device device_fault };

    fn from(fault: DeviceFault) -> Fault {
        match fault {
            DeviceFault::Image(fault) => Fault::Image(fault),
            DeviceFault::File(cause) => Fault::File(cause),
            DeviceFault::Socket(cause) => Fault::Socket(cause),
            DeviceFault::Entropy(cause) => Fault::Entropy(cause),
            DeviceFault::Memory => Fault::Memory,
        }
    }
}

impl From<ScriptFault> for Fault {
    ghost use Rattle.tpmsim.specs.Fault.{fault_of_script};

    ghost from_gives = { λ script_fault fault. fault ≡ fault_of_script script_fault };

    fn from(fault: ScriptFault) -> Fault {
        match fault {
            ScriptFault::Line(number) => Fault::ScriptLine(number),
            ScriptFault::Read => Fault::file(Subject::Script),
            ScriptFault::Write => Fault::file(Subject::Output),
            ScriptFault::NoMemory => Fault::Memory,
        }
    }
}

impl From<RunFault> for Fault {
    ghost use Rattle.tpmsim.specs.Fault.{fault_of};

    ghost from_gives = { λ run_fault fault. fault ≡ fault_of run_fault };

    fn from(fault: RunFault) -> Fault {
        match fault {
            RunFault::Line(number) => Fault::ScriptLine(number),
            RunFault::Read | RunFault::TooManyLines => Fault::file(Subject::Script),
            RunFault::Write => Fault::file(Subject::Output),
            RunFault::Save => Fault::file(Subject::Image),
            RunFault::NoMemory => Fault::Memory,
        }
    }
}

impl From<AsmFault> for Fault {
    ghost use Rattle.tpmsim.specs.Fault.{fault_of_line};

    ghost from_gives = { λ asm_fault fault. fault ≡ fault_of_line asm_fault };

    fn from(fault: AsmFault) -> Fault {
        match fault {
            AsmFault::NoMemory => Fault::Memory,
            fault => Fault::Asm(fault),
        }
    }
}

impl From<SpellFault> for Fault {
    ghost use Rattle.tpmsim.specs.Fault.{fault_of_spelling};

    ghost from_gives = { λ spell_fault fault. fault ≡ fault_of_spelling spell_fault };

    fn from(fault: SpellFault) -> Fault {
        match fault {
            SpellFault::NoLine => Fault::NoLine,
            SpellFault::NoMemory => Fault::Memory,
        }
    }
}

impl From<ArgumentFault> for Fault {
    ghost use Rattle.tpmsim.specs.Fault.{fault_of_arguments};

    ghost from_gives = { λ argument_fault fault. fault ≡ fault_of_arguments argument_fault };

    fn from(fault: ArgumentFault) -> Fault {
        match fault {
            ArgumentFault::Usage => Fault::Usage,
            ArgumentFault::NoMemory => Fault::Memory,
        }
    }
}

/// Returns the exit status for a fault of a kept device: 4 if the contents of the device's journal
/// are not accepted, otherwise 3.
fn kept_status(fault: KeptFault) -> u8
    ensures { result ≡ (if is_of_contents fault.said then 4 else 3) }
{
    if fault.said.is_of_contents() { 4 } else { 3 }
}

impl From<KeptFault> for Fault {
    ghost use Rattle.tpmsim.specs.declared.fault.Fault.TheVariants.{Kept};

    ghost from_gives = { λ kept_fault fault. fault ≡ Kept kept_fault };

    fn from(fault: KeptFault) -> Fault {
        Fault::Kept(fault)
    }
}

impl From<PlayFault> for Fault {
    ghost use Rattle.tpmsim.specs.Fault.{fault_of_play};

    ghost from_gives = { λ play_fault fault. fault ≡ fault_of_play play_fault };

    fn from(fault: PlayFault) -> Fault {
        match fault {
            PlayFault::Script(fault) => Fault::from(fault),
            PlayFault::Kept(fault) => Fault::Kept(fault),
        }
    }
}

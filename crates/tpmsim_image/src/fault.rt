//! Why a device that is kept in an image could not be opened, saved or served.

ghost use Rattle.std.specs.Prelude.{◌≡◌, None};
ghost use Rattle.std.specs.IoError.{raw_os_error};

use std::alloc::AllocError;
use std::io;
use std::io::ErrorKind;
use tpm_bytes::NoMemory;
use tpm_image::ImageFault;

/// The file, socket or stream that a fault concerns.
#[derive(Clone, Copy, PartialEq, Eq)]
pub enum Subject {
    Image,
    /// The new image, which is to replace the old image.
    NewImage,
    ImageLock,
    Log,
    Socket,
    Entropy,
    Script,
    StateText,
    Journal,
    Output,
}

impl Subject {
    /// Returns a cause that concerns this subject, without a system error.
    pub fn alone(self) -> Cause
        ensures { result ≡ record { subject = self; error = None } }
    {
        Cause {
            subject: self,
            error: None,
        }
    }
}

/// The subject of a fault, and the number of the system's error, if that is known.
#[derive(Clone, Copy, PartialEq, Eq)]
pub struct Cause {
    pub subject: Subject,
    pub error: Option<i32>,
}

impl Cause {
    /// Returns the same cause with the number of a system error.
    pub fn with(self, error: &io::Error) -> Cause
        ensures { result ≡ record self { error = raw_os_error error.now } }
    {
        Cause {
            subject: self.subject,
            error: error.raw_os_error(),
        }
    }
}

/// Why a device that is kept in an image could not be opened, saved or served.
#[derive(Clone, Copy, PartialEq, Eq)]
pub enum DeviceFault {
    /// The image file does not contain an image.
    Image(ImageFault),
    /// A file could not be opened, read or written.
    File(Cause),
    /// The socket could not be created, or could not accept a connection.
    Socket(Cause),
    /// The file of random bytes could not be opened, or has too few bytes left.
    Entropy(Cause),
    Memory,
}

impl DeviceFault {
    ghost use Rattle.tpmsim_image.specs.Fault.{fault_or, given_or, with_cause};

    /// Returns the value of the result. If the result is an error, returns `Memory` if memory ran
    /// out, and otherwise this fault with the number of the error.
    pub(crate) fn unless<T>(self, given: io::Result<T>) -> Result<T, DeviceFault>
        ensures { result ≡ given_or self given }
    {
        match given {
            Ok(value) => Ok(value),
            Err(error) => Err(DeviceFault::of_io(error, self)),
        }
    }

    /// Returns `Memory` if memory ran out, and otherwise the fault `otherwise` with the number of
    /// the error.
    pub(crate) fn of_io(error: io::Error, otherwise: DeviceFault) -> DeviceFault
        ensures { result ≡ fault_or otherwise error }
    {
        match error.kind() {
            ErrorKind::OutOfMemory => DeviceFault::Memory,
            _ => otherwise.with(&error),
        }
    }

    /// Adds the number of a system error to the fault's cause. A fault without a cause is
    /// unchanged.
    fn with(self, error: &io::Error) -> DeviceFault
        ensures { result ≡ with_cause self error.now }
    {
        match self {
            DeviceFault::File(cause) => DeviceFault::File(cause.with(error)),
            DeviceFault::Socket(cause) => DeviceFault::Socket(cause.with(error)),
            DeviceFault::Entropy(cause) => DeviceFault::Entropy(cause.with(error)),
            fault => fault,
        }
    }
}

impl From<AllocError> for DeviceFault {
    ghost use Rattle.tpmsim_image.specs.declared.fault.DeviceFault.TheVariants.{Memory};

    ghost from_gives = { λ _ fault. fault ≡ Memory };

    fn from(_error: AllocError) -> DeviceFault {
        DeviceFault::Memory
    }
}

impl From<NoMemory> for DeviceFault {
    ghost use Rattle.tpmsim_image.specs.declared.fault.DeviceFault.TheVariants.{Memory};

    ghost from_gives = { λ _ fault. fault ≡ Memory };

    fn from(_fault: NoMemory) -> DeviceFault {
        DeviceFault::Memory
    }
}

impl From<ImageFault> for DeviceFault {
    ghost use Rattle.tpmsim_image.specs.Fault.{fault_of_image};

    ghost from_gives = { λ image_fault fault. fault ≡ fault_of_image image_fault };

    fn from(fault: ImageFault) -> DeviceFault {
        match fault {
            ImageFault::NoMemory => DeviceFault::Memory,
            fault => DeviceFault::Image(fault),
        }
    }
}

//! A device that is kept in a folder. Its journal contains the device as it was when the journal
//! began, and each command that has been answered since. tpm_keeping decides each step in the
//! folder, and proves that the device executed exactly the answered commands, even if processes are
//! killed, operations fail or the system crashes.
//!
//! [`Kept`] is a kept device, which performs the keeper's requests in the folder. Several processes
//! can use one device at the same time. [`playing`] plays a script on it, and [`serving`] serves it
//! on a connection. The folder, its lock and their faults are in tpmsim_folder.

mod keeping;
mod playing;
mod said;
mod serving;
mod stop;
mod tail;
mod tracing;

pub use keeping::Kept;
pub use playing::play;
pub use said::{said_of_following, said_of_opening};
pub use serving::{RandomBytes, ServeFault, Terms, serve};
pub use stop::PlayFault;

#![tactic(auto)]

//! The folder of a kept device: its paths and the files that may be at them ([`standing`]), the
//! files that are opened and created in it ([`folder`]), the finished journals that stay in it
//! ([`past`]), its lock ([`lock`]), the tasks of a keeper's host in it ([`host`]), the host's clock
//! and random numbers ([`moment`]), and the possible faults ([`fault`]).
//!
//! The crate does not depend on a TPM. Contracts say which kinds of files and which owners are
//! refused, and define the message of each fault. No contract can define the contents of a file.
//! tpm_keeping decides when each task is done, and proves what follows from that.

pub mod fault;
pub mod folder;
pub mod host;
pub mod lock;
pub mod moment;
mod past;
pub mod standing;

pub use fault::{KeptFault, Place, Said};
pub use folder::{Folder, Identity, OpenedFile};
pub use host::Host;
pub use lock::Lock;

#![tactic(auto)]

//! The journal of a device: a head, and an entry for each command answered since. The head contains
//! the device's image from when power came on, or the device's state text. Executing the entries
//! again opens the device.
//!
//! [`Journal`] is the state of a journal apart from the device: the checksum of its marks, its
//! time, and the completing layer, which restarts at each head that does not contain its state. A
//! journal begins at a power cycle, or is opened from bytes. It executes commands and writes their
//! entries, and executes entries again. An entry says whether the layer was on, and contains the
//! random bytes that its command drew. Other random bytes have no effect, as [`draw_laws`] says.
//! The opened device and layer executed exactly the answered commands. [`retell`] converts a
//! journal to a script, or to its device's answers, and writes it to a writer. The crate does no
//! other input or output: all bytes are in the caller's memory.

pub mod draw_laws;
pub mod following;
pub mod journal;
pub mod laws;
pub mod opening;
pub mod retelling;

pub use following::{FollowFault, Followed, perform};
pub use journal::Journal;
pub use opening::{OpenFault, Opened};
pub use retelling::{RetellFault, Telling, retell};

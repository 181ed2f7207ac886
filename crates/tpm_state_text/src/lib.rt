#![tactic(auto)]

//! The state text of a device: its complete state, as bytes. A device that is restored from these
//! bytes continues from the same state.
//!
//! `specs/State` defines the encoding and the decoding, with one file for each part; the code is
//! divided into the same files. The state that a device keeps without power is encoded as in the
//! body of an image, which tpm_image_text writes. This crate adds the state that a power cycle
//! clears, and the completing layer's state.
//!
//! [`snapshot_into`] writes the state text of a device, in version 2, or in version 3 if the device is
//! of the complete profile. [`restored`], [`restore_new`] and [`restore_into`] read both, into any
//! type that stores a device's state. These functions allocate memory only for the state itself.
//!
//! Decoding the state text of a device returns exactly that device. Decoding succeeds only if the
//! encoded device can exist. No proper prefix of a state text is a state text ([`laws`]).

mod banks;
mod bindings;
mod body;
pub mod fault;
mod frame;
pub mod laws;
pub mod layer;
mod objects;
mod optional;
mod policies;
mod restoring;
mod sequences;
mod session;
mod sessions;
mod snapshot;
pub mod version;
mod volatile;

pub use fault::{RestoreFault, StateFault};
pub use layer::Layer;
pub use restoring::{restore_into, restore_new, restored};
pub use snapshot::{STATE_TEXT_LIMIT, StateBody, snapshot_into, write_state};
pub use version::StateVersion;

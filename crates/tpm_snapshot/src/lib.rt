#![tactic(auto)]

//! Saves the complete state of a device as a state text, and restores a device from it. The
//! restored device continues from the same state.
//!
//! [`snapshot_into`] writes the state text of a machine into the caller's buffer. [`restored`],
//! [`restore_new`] and [`restore_into`] read a state text. [`layer_of`] and [`completion_of`] convert
//! between the completing layer and its part of a state text. The crate uses the machine and the
//! completing layer, and tpm_state_text for the bytes.
//!
//! A device that is restored from the state text of another device is in the same state, and
//! follows the same history ([`laws`] proves the layer's part).

pub mod laws;
mod layer;
mod sequences;
mod snapshot;

pub use layer::{completion_of, layer_of};
pub use snapshot::{restore_into, restore_new, restored, snapshot_into};
pub use tpm_state_text::{Layer, RestoreFault, STATE_TEXT_LIMIT, StateFault};

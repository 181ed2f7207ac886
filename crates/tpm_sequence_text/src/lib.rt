#![tactic(auto)]

//! Encodes a slot for a sequence object, and decodes it again.
//!
//! State texts use this encoding (`specs/Slot`) for the sequence objects of the completing layer.
//! So do the contexts of sequence objects. The crate uses `tpm_sequence` for the objects, and
//! `tpm_image_text` for the fields.
//!
//! Decoding returns a slot exactly when the bytes begin with its encoding. Therefore each slot has
//! only one encoding ([`laws`]). No function allocates memory.

mod hash_state;
mod kind;
pub mod laws;
mod slot;

pub use slot::{read_slot, write_slot};

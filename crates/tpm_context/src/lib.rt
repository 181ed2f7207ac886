#![tactic(auto)]

//! The context of a transient object or of a sequence object (TPM 2.0 Library, Part 1, section 30):
//! TPM2_ContextSave returns it, and TPM2_ContextLoad loads the object from it. The completing layer
//! answers both commands with this crate.
//!
//! A context contains the whole object, encrypted, and an integrity value, which binds it to the
//! proof of the object's hierarchy and to the device's count of TPM Resets ([`Binding`]). [`seal`]
//! makes the context of an object, and [`open`] reads it; [`seal_sequence`] and [`open_sequence`] do
//! the same for a sequence object. No call allocates memory.
//!
//! Opening a context returns the object from which it was made. Unless the HMAC has a collision, a
//! context opens only with the proof and the binding with which it was made ([`laws`]).

mod binding;
mod fault;
mod head;
pub mod laws;
mod opening;
mod protection;
mod sealing;

pub use binding::Binding;
pub use fault::ContextFault;
pub use head::{ContextHead, SavedHandle};
pub use opening::{open, open_sequence};
pub use sealing::{CONTEXT_SIZE, seal, seal_sequence};

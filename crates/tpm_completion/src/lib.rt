#![tactic(auto)]

//! The completing layer answers commands that firmware and tools need, but the device by design
//! does not support. Its answer depends on a small state of its own, the device and the command.
//! The caller turns it on or off for each command.
//!
//! The device executes the command first, in which saved sessions are hidden ([`hiding`]). If it refuses a command that the layer knows, or lists
//! less than the layer does, the client gets the layer's [`reply`]. Otherwise it gets the device's
//! response, byte for byte. The lists are in [`capability`], [`handles`] and [`properties`], the
//! contexts in [`context`], [`saving`] and [`loading`], four more commands in [`testing`] and
//! [`hashing`], and sequence objects in [`sequences`]. Callers use [`execution`].
//!
//! The context of a session is a token, and the session stays in its slot. The context of an object
//! contains the whole object, encrypted and authenticated (tpm_context). The layer changes the
//! device in two ways: it places the object of a context in a free slot, which is an event of
//! tpm_machine, or it sends a command ([`sending`]), if necessary with the client's session
//! ([`session_entry`]).

mod answer;
mod authorizing;
mod capability;
mod codes;
mod command;
pub mod completion;
mod context;
mod event_completing;
pub mod execution;
mod handles;
mod hashing;
mod hiding;
mod hmac_starting;
pub mod laws;
mod listing;
mod loading;
mod properties;
mod reply;
mod saving;
mod sending;
mod sent_commands;
mod sequence_reply;
mod sequence_rows;
mod sequences;
mod session_entry;
mod testing;

pub use completion::Completion;
pub use execution::execute;

#![tactic(auto)]

//! The journal of a kept device: definitions and laws, and no code.
//!
//! `specs/DeviceJournal` defines the journal, as functions of bytes. An encoded state contains
//! everything about the device and its completing layer. An encoded command contains everything on
//! which its effect depends: what the client sent, when the command arrives, and random bytes.
//! Power cycles and restoring a snapshot are also commands. [`laws`] says that this journal
//! satisfies what a keeper requires. [`text_laws`] says what can be read from a journal.

pub mod laws;
pub mod text_laws;

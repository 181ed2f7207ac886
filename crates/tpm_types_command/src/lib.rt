#![tactic(auto)]

//! Whole commands (TPM 2.0 Library, Part 1, section 18): their headers, handles, authorization
//! areas and entries.
//!
//! The crate uses `tpm_commands` for the supported commands, and `tpm_types_common` for handles and
//! response codes. A read returns the value, or the standard's response code for the first fault. A
//! read that fails leaves the input unchanged, and a write that fails writes nothing. Each entry
//! and each command has exactly one encoding, and no other bytes decode to it. A [`CommandRef`] is
//! a command that borrows its entries. No function of this crate allocates memory.

pub mod auth_area;
pub mod auth_entry;
pub mod command;
pub mod command_ref;
pub mod header;
pub mod tag;

pub use auth_entry::AuthEntry;
pub use command::Command;
pub use command::reading::read_sessions;
pub use command_ref::CommandRef;
pub use header::{HEADER_SIZE, Header, HeaderFault};
pub use tag::Tag;

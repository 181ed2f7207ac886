#![tactic(auto)]

//! Commands and traces as people write and read them.
//!
//! A line is a command in words: its name, its handles, its authorization entries and its
//! parameters, separated by single spaces. [`line`] reads it token by token ([`token`]) and writes
//! the buffer of the command ([`draft`]); the shape of the command says which token is expected
//! next. The tokens are handles and entries ([`entry`]), and parameters ([`parameter`]): numbers
//! (tpm_number), words ([`word`]), bytes in hex ([`digits`]) and lists ([`list`]). The first fault
//! from the left is reported with its column ([`fault`]). A trace ([`trace`]) is one line about an
//! event: its command, the locality, the elapsed time, the check that refused the command, and the
//! response code.
//!
//! The crate uses `tpm_commands` for the shapes of commands, and `tpm_step` for events. Each call
//! has the result that `specs/` defines: a line becomes the buffer of the command that it encodes,
//! and parsing the buffer yields that command; or the result is the line's first fault.

mod digits;
pub mod draft;
mod element;
mod entry;
pub mod fault;
pub mod line;
mod list;
mod parameter;
mod token;
pub mod trace;
mod word;

pub use draft::Draft;
pub use fault::AsmFault;
pub use line::{assemble, assemble_for, assemble_in, read_back_laws};
pub use token::position_of;
pub use trace::{trace_line, trace_text, traceable_laws};

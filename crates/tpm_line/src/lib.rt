#![tactic(auto)]

//! Finds a line, if there is one, that expresses a given command buffer in words.
//!
//! [`line::line_of`] and [`line::write_line`] read a buffer according to the shape of its command,
//! and write a word for each of its parts: handles and entries ([`entry`]), and parameters
//! ([`parameter`]). A parameter is a number ([`number`]), an algorithm, bytes in hex ([`word`]) or
//! a list ([`list`]). Both functions then assemble the line, and return it only if the result is
//! the same buffer. Therefore the theorem about the line depends only on `tpm_text`, and the
//! functions that write words have no contract. Tests show that a line is found for each buffer
//! that some line encodes.

mod entry;
pub mod fault;
pub mod line;
mod list;
mod number;
mod parameter;
mod word;

pub use fault::SpellFault;
pub use line::{LINE_LIMIT, line_of, write_line};

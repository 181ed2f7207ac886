//! Writes numbers as words of a line: codes, sets of bits and handles in hexadecimal, and all other
//! numbers in decimal.

use std::fmt::{self, Write};
use tpm_commands::CommandCode;

/// The form in which a number is written.
#[derive(Clone, Copy, PartialEq, Eq)]
pub enum Form {
    Decimal,
    Hexadecimal,
    /// Hexadecimal, with all eight digits of a handle.
    Handle,
}

impl Form {
    /// Returns the form of a parameter that is a number of fewer than eight bytes. `place` is the
    /// number's position among the parameters of the command.
    pub fn of(code: CommandCode, place: usize) -> Form {
        match code {
            CommandCode::FlushContext | CommandCode::EvictControl => Form::Handle,
            CommandCode::PolicyCommandCode | CommandCode::PolicyLocality => Form::Hexadecimal,
            CommandCode::GetCapability if place < 2 => Form::Hexadecimal,
            _ => Form::Decimal,
        }
    }
}

/// Adds a number to the line.
pub fn put_number<W: Write>(number: u64, form: Form, line: &mut W) -> fmt::Result {
    match form {
        Form::Decimal => write!(line, "{number}"),
        Form::Hexadecimal => write!(line, "{number:#x}"),
        Form::Handle => write!(line, "{number:#010x}"),
    }
}

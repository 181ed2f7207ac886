//! What a call returns about a line of a script, or about a command in words.

ghost use Rattle.std.specs.Prelude.{◌≡◌};
ghost use Rattle.tpmsim_web.specs.Reading.{TellsFault, fault_column, fault_kind};

use crate::front::put_front;
use tpm_text::AsmFault;

/// What a call returns about a line.
#[repr(C)]
#[derive(Clone, Copy, PartialEq, Eq)]
pub struct ReadLine {
    /// The size of the line's command or entropy.
    pub size: usize,
    /// The column of the wrong token, counted from 1; 0 if no token is wrong.
    pub column: usize,
    /// The size of the message that says what was expected at the error.
    pub wanted: usize,
    /// The number of a locality, the milliseconds of a wait, or, for a command, the milliseconds
    /// since the previous command.
    pub number: u32,
    /// The kind of the line.
    pub kind: u8,
    /// The number of the error; 0 if there is no error.
    pub fault: u8,
}

/// The kinds of lines. The kind of a bad line is NOTHING.
pub const NOTHING: u8 = 0;

pub const HEX: u8 = 1;

pub const WORDS: u8 = 2;

pub const LOCALITY: u8 = 3;

pub const WAIT: u8 = 4;

pub const ENTROPY: u8 = 5;

pub const POWER: u8 = 6;

impl ReadLine {
    /// Returns the result for a good line of this kind, with a number and a size.
    pub fn good(kind: u8, number: u32, size: usize) -> ReadLine
        ensures { result ≡ record {
          size = size;
          column = 0;
          wanted = 0;
          number = number;
          kind = kind;
          fault = 0;
        } }
    {
        ReadLine {
            size,
            column: 0,
            wanted: 0,
            number,
            kind,
            fault: 0,
        }
    }

    /// Returns the result for a bad line. Writes what was expected to the start of a buffer, if it
    /// fits.
    pub fn bad(fault: AsmFault, word: &str, wanted: &mut [u8; 64]) -> ReadLine
        ensures { TellsFault fault word.now result wanted.old wanted.new }
    {
        ReadLine {
            size: 0,
            column: column_of(fault),
            wanted: put_front(word.as_bytes(), wanted),
            number: 0,
            kind: NOTHING,
            fault: number_of(fault),
        }
    }
}

/// Returns the number of an error.
fn number_of(fault: AsmFault) -> u8
    ensures { result ≡ fault_kind fault }
{
    match fault {
        AsmFault::BadName => 1,
        AsmFault::BadField { .. } => 2,
        AsmFault::Missing => 3,
        AsmFault::Range { .. } => 4,
        AsmFault::TooLong => 5,
        AsmFault::NoMemory => 6,
    }
}

/// Returns the column of the wrong token; 0 if no token is wrong.
fn column_of(fault: AsmFault) -> usize
    ensures { result ≡ fault_column fault }
{
    match fault {
        AsmFault::BadField { column } | AsmFault::Range { column } => column,
        AsmFault::BadName | AsmFault::Missing | AsmFault::TooLong | AsmFault::NoMemory => 0,
    }
}

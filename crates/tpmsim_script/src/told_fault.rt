//! The report of one bad line.

ghost use Rattle.std.specs.Prelude.{◌≡◌, drop};
ghost use Rattle.tpmsim_script.specs.Report.{wanted_text};

use crate::bad_line::{BadLine, Wanted};
use std::fmt;
use tpm_help::word_at;
use tpm_text::AsmFault;

/// A bad line: its number, its fault, and what is expected instead.
#[derive(Clone, Copy)]
pub struct ToldFault {
    pub number: u32,
    pub fault: AsmFault,
    pub wanted: &'static str,
}

impl ToldFault {
    /// The report of the bad line with this number.
    pub fn new(number: u32, line: &[u8], bad: BadLine) -> ToldFault
        ensures number { result.number ≡ number }
        ensures fault { result.fault ≡ bad.fault }
        ensures wanted { result.wanted.now ≡ wanted_text bad.wanted line.now bad.fault }
    {
        ToldFault {
            number,
            fault: bad.fault,
            wanted: wanted_text(bad, line),
        }
    }
}

impl fmt::Display for ToldFault {
    ghost use Rattle.std.specs.Prelude.{Some};
    ghost use Rattle.tpmsim_script.specs.Report.{fault_text};

    ghost output = { λ told. Some (fault_text told.number told.fault told.wanted.now) };

    fn fmt<W: fmt::Write>(&self, f: &mut fmt::Formatter<W>) -> fmt::Result {
        let number = self.number;
        let fault = FaultName { fault: self.fault };
        let wanted = self.wanted;
        write!(f, "line {number}: {fault}: {wanted}")
    }
}

/// The name of a line's fault, with the column of the faulty token.
#[derive(Clone, Copy)]
struct FaultName {
    fault: AsmFault,
}

impl fmt::Display for FaultName {
    ghost use Rattle.std.specs.Prelude.{Some};
    ghost use Rattle.tpmsim_script.specs.Report.{fault_name};

    ghost output = { λ name. Some (fault_name name.fault) };

    fn fmt<W: fmt::Write>(&self, f: &mut fmt::Formatter<W>) -> fmt::Result {
        match self.fault {
            AsmFault::BadName => write!(f, "BadName"),
            AsmFault::BadField { column } => write!(f, "BadField {column}"),
            AsmFault::Missing => write!(f, "Missing"),
            AsmFault::Range { column } => write!(f, "Range {column}"),
            AsmFault::TooLong => write!(f, "TooLong"),
            AsmFault::NoMemory => write!(f, "NoMemory"),
        }
    }
}

/// Says what is expected at the position of a bad line's fault.
fn wanted_text(bad: BadLine, line: &[u8]) -> &'static str
    ensures { result.now ≡ wanted_text bad.wanted line.now bad.fault }
{
    match bad.wanted {
        Wanted::Word => "do, cmd, loc, wait, entropy or power",
        Wanted::Command => word_at(words_of(line), bad.fault),
        Wanted::Hex => "hex",
        Wanted::Locality => "0 to 4",
        Wanted::Milliseconds => "u32",
        Wanted::Entropy => "1 to 256 bytes of hex",
        Wanted::End => "end of line",
        Wanted::ShortLine => "at most 65536 bytes",
    }
}

/// The words of a line after `do` and a space.
fn words_of(line: &[u8]) -> &[u8]
    ensures { result.now ≡ drop 3 line.now }
{
    if line.len() < 3 { &[] } else { &line[3..] }
}

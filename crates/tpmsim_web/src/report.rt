//! The export that writes the report on a script, one line at a time.

ghost use Rattle.std.specs.Prelude.{◌≡◌, ◌≤◌, ◌++◌, ◌∷◌, [], OnOk, take};
ghost use Rattle.std.specs.List.{flat_map};
ghost use Rattle.tpmsim_script.specs.Checking.{fault_at, line_check, waited_behind};
ghost use Rattle.tpmsim_script.specs.Report.{fault_text, report_line};

use crate::front::put_front;
use crate::script::read_line;
use crate::wanted::wanted_text;
use arrayvec::ArrayString;
use std::fmt;
use std::fmt::Write;
use tpm_text::AsmFault;
use tpmsim_script::BadLine;

/// The maximum size of a line in a report.
const REPORT_LIMIT: usize = 256;

/// The result if a line of the report is longer than `REPORT_LIMIT`.
const TOO_LONG: usize = REPORT_LIMIT + 1;

/// Writes the report on the line with this number, or nothing if the line is good. The line is
/// passed without its line feed. `waited` is the number of milliseconds since the last command.
/// Returns the size of the report, or 257 if the buffer cannot hold it; the contract does not
/// specify when this happens.
#[unsafe(no_mangle)]
pub extern "C" fn script_report(
    number: u32,
    line: &[u8],
    waited: &mut u32,
    written: &mut [u8; 32768],
    report: &mut [u8; 256],
) -> usize
    ensures text { result ≤ 256 → take result report.new
        ≡ flat_map report_line (fault_at (line_check waited.old line.now) number line.now) }
    ensures waited { waited.new ≡ waited_behind (line_check waited.old line.now) waited.old }
{
    match read_line(line, waited, written) {
        Ok(_) => 0,
        Err(bad) => put_fault(number, line, bad, report),
    }
}

/// Writes the report on the bad line with this number to the start of a buffer.
fn put_fault(number: u32, line: &[u8], bad: BadLine, report: &mut [u8; 256]) -> usize
    ensures { result ≤ 256 → take result report.new
        ≡ report_line (record { number = number; line = line.now; bad = bad }) }
{
    let fault = FaultLine {
        number,
        fault: bad.fault,
        wanted: wanted_text(bad, line),
    };
    let mut text: ArrayString<REPORT_LIMIT> = ArrayString::new();
    match write_fault(&mut text, fault) {
        Ok(()) => put_front(text.as_str().as_bytes(), report),
        Err(_) => TOO_LONG,
    }
}

/// Appends a report line.
fn write_fault(text: &mut ArrayString<REPORT_LIMIT>, line: FaultLine) -> fmt::Result
    ensures { OnOk result (text.new.bytes ≡ text.old.bytes
        ++ (fault_text line.number line.fault line.wanted.now ++ 10 ∷ [])) }
{
    writeln!(text, "{line}")
}

/// A report line about a bad line: its number, its error, and what was expected.
#[derive(Clone, Copy)]
struct FaultLine {
    number: u32,
    fault: AsmFault,
    wanted: &'static str,
}

impl fmt::Display for FaultLine {
    ghost use Rattle.std.specs.Prelude.{Some};
    ghost use Rattle.tpmsim_script.specs.Report.{fault_text};

    ghost output = { λ line. Some (fault_text line.number line.fault line.wanted.now) };

    fn fmt<W: fmt::Write>(&self, f: &mut fmt::Formatter<W>) -> fmt::Result {
        let number = self.number;
        let fault = FaultName { fault: self.fault };
        let wanted = self.wanted;
        write!(f, "line {number}: {fault}: {wanted}")
    }
}

/// The name of a line's error, with the column of the wrong token.
#[derive(Clone, Copy)]
struct FaultName {
    fault: AsmFault,
}

impl fmt::Display for FaultName {
    ghost use Rattle.std.specs.Prelude.{Some};
    ghost use Rattle.tpmsim_script.specs.Report.{fault_name};

    ghost output = { λ name. Some (fault_name name.fault) };

    fn fmt<W: fmt::Write>(&self, f: &mut fmt::Formatter<W>) -> fmt::Result {
        match self.fault {
            AsmFault::BadName => write!(f, "BadName"),
            AsmFault::BadField { column } => write!(f, "BadField {column}"),
            AsmFault::Missing => write!(f, "Missing"),
            AsmFault::Range { column } => write!(f, "Range {column}"),
            AsmFault::TooLong => write!(f, "TooLong"),
            AsmFault::NoMemory => write!(f, "NoMemory"),
        }
    }
}

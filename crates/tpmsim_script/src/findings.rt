//! The bad lines found in a script so far.

ghost use Rattle.std.specs.Prelude.{◌≡◌, ◌==◌, ◌++◌, ◌∷◌, ◌<◌, [], None, Some, length, nat_lt, not, IfOk, OnOk};
ghost use Rattle.std.specs.List.{flat_map};
ghost use Rattle.std.specs.Option.{option_or};
ghost use Rattle.tpmsim_script.specs.Checker.{waited_of};
ghost use Rattle.tpmsim_script.specs.Checking.{fault_at, first_number, line_check, waited_behind};
ghost use Rattle.tpmsim_script.specs.Line.{lines_of};
ghost use Rattle.tpmsim_script.specs.Report.{faults_text, hinted_line, script_faults};

use crate::bad_line::BadLine;
use crate::checker::Checker;
use crate::hint::put_hint;
use crate::run::SCRIPT_LINES;
use crate::told_fault::ToldFault;
use std::alloc::{AllocError, Global};
use tpm_text::position_of;

/// The bad lines found in a script.
#[derive(Drop)]
pub struct Findings {
    alloc: Global,
    /// The text of the report so far, with one line for each bad line, and the hints.
    pub text: String,
    /// The number of the first bad line.
    pub first: Option<u32>,
}

impl Findings {
    /// Findings without any bad line.
    pub fn new(alloc: Global) -> Findings
        ensures text { result.text.bytes.items ≡ [] }
        ensures first { result.first ≡ None }
    {
        Findings {
            alloc,
            text: String::new(alloc),
            first: None,
        }
    }

    /// Checks the lines of a text, up to the limit on lines, and returns the text after them.
    pub fn check_lines<'t>(
        &mut self,
        text: &'t [u8],
        checker: &mut Checker,
    ) -> Result<&'t [u8], AllocError>
        requires { waited_of checker.old ≡ 0 }
        ensures text { OnOk result
            (self.new.text.bytes.items ≡ self.old.text.bytes.items ++ faults_text text.now) }
        ensures first { OnOk result (self.new.first
            ≡ option_or self.old.first (first_number (script_faults text.now))) }
        ensures more { IfOk result (λ rest. nat_lt 1048576 (length (lines_of text.now))
            ≡ not (length rest.now == 0)) }
    {
        let mut rest = text;
        for number in 1..SCRIPT_LINES + 1 {
            if rest.is_empty() {
                return Ok(rest);
            }
            let (line, others) = first_line(rest);
            self.check_line(checker, number, line)?;
            rest = others;
        }
        Ok(rest)
    }

    /// Checks the line with this number.
    fn check_line(
        &mut self,
        checker: &mut Checker,
        number: u32,
        line: &[u8],
    ) -> Result<(), AllocError>
        ensures text { OnOk result (self.new.text.bytes.items ≡ self.old.text.bytes.items
            ++ flat_map hinted_line
            (fault_at (line_check (waited_of checker.old) line.now) number line.now)) }
        ensures first { OnOk result (self.new.first ≡ option_or self.old.first
            (first_number
            (fault_at (line_check (waited_of checker.old) line.now) number line.now))) }
        ensures waited { OnOk result (waited_of checker.new
            ≡ waited_behind (line_check (waited_of checker.old) line.now) (waited_of checker.old)) }
    {
        match checker.check(line) {
            Ok(()) => Ok(()),
            Err(bad) => self.put(number, line, bad),
        }
    }

    /// Adds the report of the bad line with this number.
    fn put(&mut self, number: u32, line: &[u8], bad: BadLine) -> Result<(), AllocError>
        ensures text { OnOk result (self.new.text.bytes.items ≡ self.old.text.bytes.items
            ++ hinted_line (record { number = number; line = line.now; bad = bad })) }
        ensures first { OnOk result
            (self.new.first ≡ option_or self.old.first (Some number)) }
    {
        self.first = self.first.or(Some(number));
        let fault = ToldFault::new(number, line, bad);
        writeln!(self.text, "{fault}")?;
        put_hint(self.alloc, &mut self.text, line, bad)
    }
}

/// The first line of a non-empty text, without its 0a, and the text after it.
fn first_line(text: &[u8]) -> (&[u8], &[u8])
    ensures { 0 < length text.now → lines_of text.now ≡ result.0.now ∷ lines_of result.1.now }
{
    match position_of(b'\n', text) {
        Some(end) => (&text[..end], &text[end + 1..]),
        None => (text, &[]),
    }
}

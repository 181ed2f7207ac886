//! Reports the bad lines of a script, and how a run of the script would end.

ghost use Rattle.std.specs.Prelude.{◌≡◌, if◌then◌else◌, IfOk};
ghost use Rattle.tpmsim_script.specs.Foreign.{is_foreign};
ghost use Rattle.tpmsim_script.specs.Report.{end_of, foreign_text, report_end, report_text};

use crate::checker::Checker;
use crate::fault::RunFault;
use crate::findings::Findings;
use crate::foreign::is_foreign;
use std::alloc::{AllocError, Global};

/// The faults in the lines of a script.
#[derive(Drop)]
pub struct Report {
    /// One line of text for each bad line, followed by a hint, if there is one. If the text is not
    /// a script, one line that says so.
    pub text: String,
    /// How a run of the script would end: with success, at its first bad line, or because the
    /// script contains more lines than the limit.
    pub end: Result<(), RunFault>,
}

/// The report of this script.
pub fn report_of(alloc: Global, text: &[u8]) -> Result<Report, AllocError>
    ensures text { IfOk result (λ report. report.text.bytes.items ≡ report_text text.now) }
    ensures end { IfOk result (λ report. report.end ≡ report_end text.now) }
{
    let mut checker = Checker::new(alloc)?;
    let mut findings = Findings::new(alloc);
    let rest = findings.check_lines(text, &mut checker)?;
    let end = end_of(findings.first, !rest.is_empty());
    Ok(Report {
        text: unless_foreign(alloc, text, findings.text)?,
        end,
    })
}

/// What the report says about a text that is not a script.
const FOREIGN: &str =
    "not a script: no line begins with do, cmd, loc, wait, entropy or power; tpmsim-explain FILE \
     explains traces, dumps and arrays\n";

/// The report of a text that is not a script.
#[tactic(auto, unfolding(crate::specs::Report::foreign_text))]
fn foreign_report(alloc: Global) -> Result<String, AllocError>
    ensures { IfOk result (λ report. report.bytes.items ≡ foreign_text) }
{
    String::from_str(alloc, FOREIGN)
}

/// The reports of a text's bad lines, unless the text is not a script.
fn unless_foreign(alloc: Global, text: &[u8], faults: String) -> Result<String, AllocError>
    ensures { IfOk result (λ report. report.bytes.items
        ≡ (if is_foreign text.now then foreign_text else faults.bytes.items)) }
{
    if is_foreign(text) {
        foreign_report(alloc)
    } else {
        Ok(faults)
    }
}

/// How a run of the script ends, given the number of its first bad line, if any. `more` says
/// whether the script contains more lines than the limit.
fn end_of(first: Option<u32>, more: bool) -> Result<(), RunFault>
    ensures { result ≡ end_of first more }
{
    match first {
        Some(number) => Err(RunFault::Line(number)),
        None if more => Err(RunFault::TooManyLines),
        None => Ok(()),
    }
}

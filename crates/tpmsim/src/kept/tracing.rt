//! The row of a kept device's answer, which the trace of the answer needs.

ghost use Rattle.std.specs.Prelude.{◌≡◌, IfSome, is_some, true};
ghost use Rattle.tpm_types_common.specs.Check.{check_number};
ghost use Rattle.tpm_types_common.specs.declared.check.Check.{Check};
ghost use Rattle.tpmsim.specs.kept.Tracing.{IsCheck, IsCode, IsTraceable, row_of};

use tpm_commands::CommandCode;
use tpm_kept_device::answer::Answer;
use tpm_step::Row;
use tpm_types_common::{ActionCheck, Check};

/// Returns the row of an answer: the command, and the check that refused it. None if the answer
/// cannot be traced, which never happens with a device's answer.
pub fn traced_row(answer: Answer<'_>) -> Option<Row>
    ensures found { IfSome result (λ row. IsTraceable answer.entry × (row ≡ row_of answer.entry)) }
    ensures all { IsTraceable answer.entry → is_some result ≡ true }
{
    let Answer {
        code,
        check,
        response,
        ..
    } = answer;
    if !is_code(code) || !is_check(check) || response.len() < 10 {
        return None;
    }
    Some(Row { code, check })
}

/// Whether a number is 0 or the number of a command.
#[tactic(auto, using(tpm_commands::proofs::Codes::codes))]
fn is_code(number: u32) -> bool
    ensures only { result ≡ true → IsCode number }
    ensures all { IsCode number → result ≡ true }
{
    match CommandCode::named(number) {
        Some(_) => true,
        None => number == 0,
    }
}

/// Whether a number is 0 or the number of a check.
fn is_check(number: u8) -> bool
    ensures only { result ≡ true → IsCheck number }
    ensures all { IsCheck number → result ≡ true }
{
    match check_named(number) {
        Some(_) => true,
        None => number == 0,
    }
}

/// The check with this number, if any.
fn check_named(number: u8) -> Option<Check>
    ensures found { IfSome result (λ check. number ≡ check_number check) }
    ensures all { (check : Check) → number ≡ check_number check → is_some result ≡ true }
{
    match number {
        1 => Some(Check::Length),
        2 => Some(Check::Tag),
        3 => Some(Check::Size),
        4 => Some(Check::Code),
        5 => Some(Check::Started),
        6 => Some(Check::Handles),
        7 => Some(Check::Sessions),
        8 => Some(Check::Entries),
        9 => Some(Check::Authorization),
        10 => Some(Check::Others),
        11 => Some(Check::Parameters),
        21 => Some(Check::Action(ActionCheck::First)),
        22 => Some(Check::Action(ActionCheck::Second)),
        23 => Some(Check::Action(ActionCheck::Third)),
        24 => Some(Check::Action(ActionCheck::Fourth)),
        25 => Some(Check::Action(ActionCheck::Fifth)),
        26 => Some(Check::Action(ActionCheck::Sixth)),
        27 => Some(Check::Action(ActionCheck::Seventh)),
        255 => Some(Check::Memory),
        _ => None,
    }
}

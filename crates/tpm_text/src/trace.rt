//! The trace of an event: one line with the command, its locality, the elapsed time, the check that
//! refused it, and its response code.

ghost use Rattle.std.specs.Prelude.{◌≡◌, ℕ, ◌+◌, ◌≤◌, ◌++◌, ◌⊎◌, Bool, length, codes, IfOk};
ghost use Rattle.std.specs.Fmt.{decimal};
ghost use Rattle.std.specs.String.{string_bytes};
ghost use Rattle.arrayvec.specs.ArrayString.{array_string_len};
ghost use Rattle.tpm_types_common.specs.Check.{check_number};
ghost use Rattle.tpm_types_common.specs.declared.check.Check.{Check};
ghost use Rattle.tpm_record.specs.Record.{Record};
ghost use Rattle.tpm_step.specs.step.Events.{PlainEvent, plain_event};
ghost use Rattle.tpm_step.specs.step.Execution.{Executes};
ghost use Rattle.tpm_step.specs.step.Step.{Stepped};
ghost use Rattle.tpm_text.specs.Trace.{IsAnswered, IsRow, IsTraceable, check_text, name_text};
ghost use Rattle.tpm_text.specs.Trace.{response_code_text, trace_text};

use arrayvec::ArrayString;
use itoa::Buffer;
use std::alloc::Global;
use std::str;
use tpm_bytes::NoMemory;
use tpm_commands::CommandCode;
use tpm_step::{Event, Outcome, Row};

/// A line that traces an event.
pub type Trace = ArrayString<64>;

/// Returns the trace of an event and its outcome, like [`trace_text`], but as a `String`.
pub fn trace_line(alloc: Global, event: &Event, outcome: &Outcome) -> Result<String, NoMemory>
    requires row { IsRow outcome.now.row }
    requires response { IsAnswered (plain_event event.now) outcome.now.response.items }
    ensures { IfOk result (λ line. string_bytes line
        ≡ trace_text (plain_event event.now) outcome.now.row outcome.now.response.items) }
{
    let text = trace_text(event, outcome.row, outcome.response.as_slice());
    String::from_str(alloc, text.as_str()).map_err(|_| NoMemory)
}

/// The trace of an event with this row and this response: `power` for a power cycle; for a
/// command, a line such as `Startup L0 +0 ok 00000000`.
pub fn trace_text(event: &Event, row: Row, response: &[u8]) -> Trace
    requires row { IsRow row }
    requires response { IsAnswered (plain_event event.now) response.now }
    ensures { result.bytes ≡ trace_text (plain_event event.now) row response.now }
{
    let mut text = ArrayString::new();
    match event {
        Event::PowerCycle => text.push_str("power"),
        Event::Command {
            locality,
            elapsed_ms,
            ..
        } => {
            let mut numeral = Buffer::new();
            text.push_str(name(row.code));
            text.push_str(" L");
            text.push_str(numeral.format(locality.number()));
            text.push_str(" +");
            text.push_str(numeral.format(*elapsed_ms));
            text.push_str(" ");
            put_check(row.check, &mut text);
            text.push_str(" ");
            put_response_code(response, &mut text);
        }
    }
    text
}

/// Every execution of an event has a row and a response that can be traced.
pub fn traceable_laws()
    ensures { (can : Bool) (old : Record) (event : PlainEvent) (x : Stepped)
        → Executes can old event x → IsTraceable event x }
{}

/// The name of the command with this number, or `?`.
#[tactic(auto, unfolding(crate::specs::Trace::name_text))]
fn name(number: u32) -> &'static str
    ensures value { result.now ≡ name_text number }
    ensures short { length result.now ≤ 26 }
{
    match CommandCode::named(number) {
        Some(code) => code.name(),
        None => "?",
    }
}

/// Adds the name of the check with this number, or `ok`, to the trace.
#[tactic(auto, unfolding(crate::specs::Trace::check_text))]
fn put_check(number: u8, text: &mut Trace)
    requires check { (number ≡ 0) ⊎ ((check : Check) × (number ≡ check_number check)) }
    requires room { array_string_len text.old + 4 ≤ 64 }
    ensures value { text.new.bytes ≡ text.old.bytes ++ check_text number }
    ensures short { array_string_len text.new ≤ array_string_len text.old + 4 }
{
    match number {
        0 => text.push_str("ok"),
        1..=11 => put_numbered("G", number, text),
        255 => text.push_str("M"),
        _ => put_numbered("A", number - 20, text),
    }
}

/// Adds a letter and a number to the trace.
fn put_numbered(letter: &str, number: u8, text: &mut Trace)
    requires letter { length letter.now ≡ 1 }
    requires room { array_string_len text.old + 4 ≤ 64 }
    ensures value { text.new.bytes ≡ text.old.bytes ++ letter.now ++ decimal number }
    ensures short { array_string_len text.new ≤ array_string_len text.old + 4 }
{
    let mut numeral = Buffer::new();
    text.push_str(letter);
    text.push_str(numeral.format(number));
}

/// Adds the response code to the trace, as eight hex digits.
fn put_response_code(response: &[u8], text: &mut Trace)
    requires response { 10 ≤ length response.now }
    requires room { array_string_len text.old + 8 ≤ 64 }
    ensures { text.new.bytes ≡ text.old.bytes ++ response_code_text response.now }
{
    let mut digits = [0; 8];
    hex::encode_to_slice(&response[6..10], &mut digits).unwrap();
    text.push_str(str::from_utf8(&digits).unwrap());
}

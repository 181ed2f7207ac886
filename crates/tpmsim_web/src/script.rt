//! The export that parses a line of a script, without executing it.

ghost use Rattle.std.specs.Prelude.{◌≡◌, ◌≢◌, ◌≤◌, ◌&&◌, Err, IfErr, IfOk, None, Ok, OnOk, Some};
ghost use Rattle.std.specs.Prelude.{false, length, nat_le, nat_lt, take, true};
ghost use Rattle.tpm_text.specs.Line.{assembled_bytes};
ghost use Rattle.tpmsim_script.specs.BadLine.{misplaced};
ghost use Rattle.tpmsim_script.specs.Checking.{line_check, wait_check};
ghost use Rattle.tpmsim_script.specs.Line.{bytes_of, hex_of, meaning_of};
ghost use Rattle.tpmsim_script.specs.declared.bad_line.BadLine.{BadLine as Bad};
ghost use Rattle.tpmsim_web.specs.Reading.{IsGood, ReadsLine, ReadsMeaning, TellsBad};

use crate::read_line::{ENTROPY, HEX, LOCALITY, NOTHING, POWER, ReadLine, WAIT, WORDS};
use crate::wanted::wanted_text;
use std::mem;
use tpm_commands::Profile;
use tpm_text::{AsmFault, Draft, assemble_in};
use tpmsim_script::line::{misplaced, too_large};
use tpmsim_script::lines::LINE_LIMIT;
use tpmsim_script::script::RANDOM_BYTES;
use tpmsim_script::{BadLine, Line, Wanted};

/// Parses a line of a script, passed without its line feed. Returns 0 for a good line, and stores
/// its meaning and the bytes of its command or entropy. For a bad line, returns the number of the
/// error, and stores what was expected. `waited` is the number of milliseconds since the last
/// command.
#[unsafe(no_mangle)]
pub extern "C" fn script_line(
    line: &[u8],
    waited: &mut u32,
    written: &mut [u8; 32768],
    wanted: &mut [u8; 64],
    read: &mut ReadLine,
) -> u8
    ensures told { result ≡ read.new.fault }
    ensures good { result ≡ 0 → IsGood line.now waited.old read.new written.new waited.new }
    ensures bad { result ≢ 0 → (bad : Bad) × (line_check waited.old line.now ≡ Err bad)
        × (waited.new ≡ waited.old) × TellsBad line.now bad read.new wanted.old wanted.new }
{
    match read_line(line, waited, written) {
        Ok(good) => *read = good,
        Err(bad) => *read = tell_bad(line, bad, wanted),
    }
    read.fault
}

/// Reports why a line is bad.
fn tell_bad(line: &[u8], bad: BadLine, wanted: &mut [u8; 64]) -> ReadLine
    ensures { TellsBad line.now bad result wanted.old wanted.new }
{
    ReadLine::bad(bad.fault, wanted_text(bad, line), wanted)
}

/// Parses a line.
#[tactic(auto, unfolding(tpmsim_script::specs::Checking::line_check))]
pub(crate) fn read_line(
    line: &[u8],
    waited: &mut u32,
    written: &mut [u8; 32768],
) -> Result<ReadLine, BadLine>
    ensures { ReadsLine line.now waited.old result written.new waited.new }
{
    if line.len() > LINE_LIMIT {
        return Err(LONG_LINE);
    }
    let said = Line::parse(line)?;
    read_said(said, waited, written)
}

/// Decodes the meaning of a line.
fn read_said(said: Line, waited: &mut u32, written: &mut [u8; 32768]) -> Result<ReadLine, BadLine>
    requires { length (hex_of (meaning_of said)) ≤ 65536 }
    ensures { ReadsMeaning (meaning_of said.entry) waited.old result written.new waited.new }
{
    match said {
        Line::Command(digits) => {
            let size = decode(digits, Wanted::Hex, written)?;
            Ok(ReadLine::good(HEX, mem::take(waited), size))
        }
        Line::Words(words) => {
            let size = assemble(words, written)?;
            Ok(ReadLine::good(WORDS, mem::take(waited), size))
        }
        Line::Locality(locality) => Ok(ReadLine::good(LOCALITY, u32::from(locality.number()), 0)),
        Line::Wait(milliseconds) => {
            *waited = wait(*waited, milliseconds)?;
            Ok(ReadLine::good(WAIT, milliseconds, 0))
        }
        Line::Entropy(digits) => {
            let size = decode(digits, Wanted::Entropy, written)?;
            check_entropy(size)?;
            Ok(ReadLine::good(ENTROPY, 0, size))
        }
        Line::PowerCycle => Ok(ReadLine::good(POWER, 0, 0)),
        Line::Nothing => Ok(ReadLine::good(NOTHING, 0, 0)),
    }
}

/// Decodes hex digits of either case, and writes the bytes to the start of a buffer. Returns the
/// number of bytes.
fn decode(digits: &[u8], wanted: Wanted, written: &mut [u8; 32768]) -> Result<usize, BadLine>
    requires { length digits.now ≤ 65536 }
    ensures good { IfOk result (λ size. bytes_of digits.now ≡ Some (take size written.new)) }
    ensures size { IfOk result (λ size. length (take size written.new) ≡ size) }
    ensures bad { IfErr result
        (λ bad. (bytes_of digits.now ≡ None) × (bad ≡ misplaced wanted)) }
{
    let (bytes, _) = written.split_at_mut(digits.len() / 2);
    match tpm_hex::decode(digits, bytes) {
        Ok(()) => Ok(bytes.len()),
        Err(_) => Err(misplaced(wanted)),
    }
}

/// Assembles a command in words, and writes the result to the start of a buffer. Returns the size
/// of the result.
fn assemble(words: &[u8], written: &mut [u8; 32768]) -> Result<usize, BadLine>
    ensures good { IfOk result (λ size. assembled_bytes words.now ≡ Ok (take size written.new)) }
    ensures bad { IfErr result (λ bad. (assembled_bytes words.now ≡ Err bad.fault)
        × (bad.wanted ≡ Wanted.Command)) }
{
    let mut draft = Draft::new();
    match assemble_in(Profile::Symmetric, words, &mut draft) {
        Ok(bytes) => {
            let (front, _) = written.split_at_mut(bytes.len());
            front.copy_from_slice(bytes);
            Ok(bytes.len())
        }
        Err(fault) => Err(BadLine {
            fault,
            wanted: Wanted::Command,
        }),
    }
}

/// Returns the milliseconds since the last command, after a further wait.
fn wait(waited: u32, milliseconds: u32) -> Result<u32, BadLine>
    ensures { result ≡ wait_check waited milliseconds }
{
    match waited.checked_add(milliseconds) {
        Some(sum) => Ok(sum),
        None => Err(too_large(Wanted::Milliseconds)),
    }
}

/// Checks that a line may set this number of random bytes.
fn check_entropy(size: usize) -> Result<(), BadLine>
    ensures good { OnOk result ((nat_lt 0 size && nat_le size 256) ≡ true) }
    ensures bad { IfErr result (λ bad. ((nat_lt 0 size && nat_le size 256) ≡ false)
        × (bad ≡ misplaced Wanted.Entropy)) }
{
    if size == 0 || size > RANDOM_BYTES {
        return Err(misplaced(Wanted::Entropy));
    }
    Ok(())
}

/// The error for a line longer than [`LINE_LIMIT`] bytes.
const LONG_LINE: BadLine = BadLine {
    fault: AsmFault::TooLong,
    wanted: Wanted::ShortLine,
};

//! The lines of a script, by kind: commands, localities, waits, random bytes, power cycles and
//! comments.

ghost use Rattle.std.specs.Prelude.{◌≡◌, ◌+◌, ◌*◌, ◌==◌, ◌≤◌, [], IfOk, is_some, length};
ghost use Rattle.std.specs.List.{list_all, position};
ghost use Rattle.tpm_bytes.specs.Reading.{Gives};
ghost use Rattle.tpm_number.specs.Number.{is_digit, numeral};
ghost use Rattle.tpmsim_script.specs.BadLine.{missing_argument, misplaced, number_fault, too_large};
ghost use Rattle.tpmsim_script.specs.Line.{Tells, bytes_of, hex_of, line_meaning, line_reading};
ghost use Rattle.tpmsim_script.specs.Line.{locality_reading, meaning_of, reading_alone, reading_by};
ghost use Rattle.tpmsim_script.specs.Line.{reading_with, wait_reading};

use crate::bad_line::{BadLine, Wanted};
use tpm_number::{decimal, is_word, locality};
use tpm_text::{AsmFault, position_of};
use tpm_types_common::Locality;

/// A line of a script.
#[derive(Clone, Copy, PartialEq, Eq)]
pub enum Line<'a> {
    /// `cmd HEX`: a command, in hex.
    Command(&'a [u8]),
    /// `do LINE`: a command, in words.
    Words(&'a [u8]),
    /// `loc N`: the locality of the following commands.
    Locality(Locality),
    /// `wait MS`: milliseconds that pass before the next command.
    Wait(u32),
    /// `entropy HEX`: bytes in hex, which are repeated to make the random bytes of the following
    /// commands.
    Entropy(&'a [u8]),
    /// `power`: a power cycle.
    PowerCycle,
    /// An empty line, or a line that begins with `#`.
    Nothing,
}

/// The fault of a line that cannot be performed: its hex is not valid, its words are not a command,
/// it has too many bytes, or the waits are too long.
#[derive(Clone, Copy, PartialEq, Eq)]
pub struct Unfit;

impl<'a> Line<'a> {
    /// Parses a line, passed without its 0a. Does not decode the hex digits or the words of a
    /// command.
    #[tactic(auto, unfolding(crate::specs::Line::line_reading), using(crate::proofs::SaidLemmas::read_by_words))]
    pub fn parse(text: &'a [u8]) -> Result<Line<'a>, BadLine>
        ensures reading { Gives meaning_of (line_reading text.now) result }
        ensures meaning { Tells meaning_of result (line_meaning text.now) }
        ensures short { IfOk result (λ line. length (hex_of (meaning_of line)) ≤ length text.now) }
    {
        if text.is_empty() || text[0] == b'#' {
            return Ok(Line::Nothing);
        }
        Line::by_words(text)
    }

    /// Parses a line whose first word ends at the first space.
    fn by_words(text: &'a [u8]) -> Result<Line<'a>, BadLine>
        ensures reading { Gives meaning_of
            (reading_by (position (λ byte. byte == 32) text.now) text.now) result }
        ensures short { IfOk result (λ line. length (hex_of (meaning_of line)) ≤ length text.now) }
    {
        match position_of(b' ', text) {
            None => Line::alone(text),
            Some(space) => Line::with(&text[..space], &text[space + 1..]),
        }
    }

    /// Parses a line that consists of one word.
    #[tactic(auto, unfolding(crate::specs::Line::reading_alone))]
    fn alone(word: &'a [u8]) -> Result<Line<'a>, BadLine>
        ensures reading { Gives meaning_of (reading_alone word.now) result }
        ensures short { IfOk result (λ line. hex_of (meaning_of line) ≡ []) }
    {
        if is_word("cmd", word) {
            Ok(Line::Command(&[]))
        } else if is_word("power", word) {
            Ok(Line::PowerCycle)
        } else if is_word("do", word) {
            Err(missing(Wanted::Command))
        } else if is_word("loc", word) {
            Err(missing(Wanted::Locality))
        } else if is_word("wait", word) {
            Err(missing(Wanted::Milliseconds))
        } else if is_word("entropy", word) {
            Err(missing(Wanted::Entropy))
        } else {
            Err(UNKNOWN_WORD)
        }
    }

    /// Parses a line that consists of a word, a space and an argument.
    #[tactic(auto, unfolding(crate::specs::Line::reading_with))]
    fn with(word: &'a [u8], argument: &'a [u8]) -> Result<Line<'a>, BadLine>
        ensures reading { Gives meaning_of (reading_with word.now argument.now) result }
        ensures short { IfOk result
            (λ line. length (hex_of (meaning_of line)) ≤ length argument.now) }
    {
        if is_word("cmd", word) {
            Ok(Line::Command(argument))
        } else if is_word("do", word) {
            Ok(Line::Words(argument))
        } else if is_word("loc", word) {
            Line::of_locality(argument)
        } else if is_word("wait", word) {
            Line::of_wait(argument)
        } else if is_word("entropy", word) {
            Ok(Line::Entropy(argument))
        } else if is_word("power", word) {
            Err(misplaced(Wanted::End))
        } else {
            Err(UNKNOWN_WORD)
        }
    }

    /// Parses the argument of `loc`.
    fn of_locality(argument: &[u8]) -> Result<Line<'a>, BadLine>
        ensures { Gives meaning_of (locality_reading argument.now) result }
    {
        match locality(argument) {
            Some(locality) => Ok(Line::Locality(locality)),
            None => Err(number_fault(argument, Wanted::Locality)),
        }
    }

    /// Parses the argument of `wait`.
    fn of_wait(argument: &[u8]) -> Result<Line<'a>, BadLine>
        ensures { Gives meaning_of (wait_reading argument.now) result }
    {
        match decimal(argument) {
            Some(milliseconds) => Ok(Line::Wait(milliseconds)),
            None => Err(number_fault(argument, Wanted::Milliseconds)),
        }
    }
}

/// The fault of a line whose first word is unknown.
const UNKNOWN_WORD: BadLine = BadLine {
    fault: AsmFault::BadName,
    wanted: Wanted::Word,
};

/// The fault of a line that ends after its first word, although an argument is expected there.
fn missing(wanted: Wanted) -> BadLine
    ensures { result ≡ missing_argument wanted }
{
    BadLine {
        fault: AsmFault::Missing,
        wanted,
    }
}

/// The fault of a wrong argument; `wanted` says what is expected instead.
pub fn misplaced(wanted: Wanted) -> BadLine
    ensures { result ≡ misplaced wanted }
{
    BadLine {
        fault: AsmFault::BadField { column: 1 },
        wanted,
    }
}

/// The fault of an argument whose number is too large.
pub fn too_large(wanted: Wanted) -> BadLine
    ensures { result ≡ too_large wanted }
{
    BadLine {
        fault: AsmFault::Range { column: 1 },
        wanted,
    }
}

/// The fault of an argument that is not the expected number: it is too large, or not a number.
fn number_fault(argument: &[u8], wanted: Wanted) -> BadLine
    ensures { result ≡ number_fault argument.now wanted }
{
    if is_decimal(argument) {
        too_large(wanted)
    } else {
        misplaced(wanted)
    }
}

/// Whether a text is a decimal number of any size.
#[tactic(auto, using(crate::proofs::Decimals::decimals))]
fn is_decimal(text: &[u8]) -> bool
    ensures { result ≡ is_some (numeral 10 text.now) }
{
    !text.is_empty() && has_digits(text)
}

fn has_digits(text: &[u8]) -> bool
    ensures { result ≡ list_all (is_digit 10) text.now }
{
    text.iter().all(|byte| is_digit(*byte))
}

fn is_digit(byte: u8) -> bool
    ensures { result ≡ is_digit 10 byte }
{
    char::from(byte).is_digit(10)
}

/// Decodes hex digits of either case into a buffer that is large enough. Fails if a character is
/// not a hex digit, or the number of digits is odd.
pub fn decode<'a>(digits: &[u8], room: &'a mut [u8]) -> Result<&'a [u8], Unfit>
    requires { length digits.now ≤ 2 * length room.old + 1 }
    ensures { Tells (λ bytes. bytes.now) result (bytes_of digits.now) }
{
    let bytes = &mut room[..digits.len() / 2];
    match tpm_hex::decode(digits, bytes) {
        Ok(()) => Ok(bytes),
        Err(_) => Err(Unfit),
    }
}

//! The word for what is expected at the first fault of a line that is not a valid command.

ghost use Rattle.std.specs.Prelude.{◌≡◌, ◌-◌, [], codes, get_or, take};
ghost use Rattle.tpm_text.specs.Entry.{begins_entry};
ghost use Rattle.tpm_help.specs.Wanted.{entry_count, space_count, tokens_in, word_at, word_behind};
ghost use Rattle.tpm_help.specs.Wanted.{words_behind};

use crate::form::{handle_word, parameter_word};
use tpm_commands::CommandCode;
use tpm_text::{AsmFault, position_of};

/// The word for the part that is expected at this fault.
#[tactic(auto, unfolding(crate::specs::Wanted::word_at))]
pub fn word_at(words: &[u8], fault: AsmFault) -> &'static str
    ensures { result.now ≡ word_at words.now fault }
{
    match fault {
        AsmFault::BadName => "command",
        AsmFault::BadField { column } | AsmFault::Range { column } => {
            word_behind(words, spaces_before(words, column).saturating_sub(1))
        }
        AsmFault::Missing => word_behind(words, space_count(words)),
        AsmFault::TooLong => "at most 4096 bytes",
        AsmFault::NoMemory => "memory",
    }
}

/// The number of spaces before a column. Columns are counted from 1.
fn spaces_before(words: &[u8], column: usize) -> usize
    ensures { result ≡ space_count (take (column - 1) words.now) }
{
    let before = column.saturating_sub(1);
    if before < words.len() {
        space_count(&words[..before])
    } else {
        space_count(words)
    }
}

fn space_count(text: &[u8]) -> usize
    ensures { result ≡ space_count text.now }
{
    text.iter().filter(|byte| **byte == b' ').count()
}

/// The word for the part of a command that is expected at this position after the command's name,
/// which is the first token. Positions are counted from 0.
fn word_behind(words: &[u8], place: usize) -> &'static str
    ensures { result.now ≡ word_behind words.now place }
{
    match CommandCode::called(first_token(words)) {
        Some(code) => word_in(code, entry_count(words, code), place),
        None => "command",
    }
}

fn first_token(words: &[u8]) -> &[u8]
    ensures { result.now ≡ get_or (tokens_in words.now) 0 [] }
{
    match position_of(b' ', words) {
        Some(place) => &words[..place],
        None => words,
    }
}

/// The number of authorization entries in a command in words.
fn entry_count(words: &[u8], code: CommandCode) -> usize
    ensures { result ≡ entry_count code (tokens_in words.now) }
{
    words
        .split(|byte| *byte == b' ')
        .skip(code.handle_count() + 1)
        .take(3)
        .take_while(|token| begins_entry(token))
        .count()
}

/// Whether a token begins like an entry.
fn begins_entry(token: &[u8]) -> bool
    ensures { result ≡ begins_entry token.now }
{
    token.starts_with(b"pw:") || token.starts_with(b"s:")
}

/// The word for the part at this position after the command's name, if there are this many entries.
fn word_in(code: CommandCode, entries: usize, place: usize) -> &'static str
    ensures { result.now ≡ get_or (words_behind code entries) place (codes "end of line") }
{
    let shape = code.shape();
    let handles = shape.handles.len();
    if place < handles {
        return handle_word(shape.handles[place].kind);
    }
    if place - handles < entries {
        return "entry";
    }
    match shape.parameters.get(place - handles - entries) {
        Some(kind) => parameter_word(*kind),
        None => "end of line",
    }
}

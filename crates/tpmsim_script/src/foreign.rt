//! Recognizes texts that are not scripts, such as the trace or the dump of another program.

ghost use Rattle.std.specs.Prelude.{◌≡◌};
ghost use Rattle.tpmsim_script.specs.Foreign.{is_first_word, is_foreign, is_known};
ghost use Rattle.tpmsim_script.specs.Foreign.{is_script_line, is_silent, is_strange, line_count};

use crate::hint::{command_like, first_token};
use tpm_number::is_word;

/// Whether a text is not a script: it has lines, and none of them begins like a line of a script.
/// Empty lines and comments do not count.
pub fn is_foreign(text: &[u8]) -> bool
    ensures { result ≡ is_foreign text.now }
{
    strange_lines(text) > 0 && script_lines(text) == 0
}

/// The number of lines that do not begin like a line of a script.
fn strange_lines(text: &[u8]) -> usize
    ensures { result ≡ line_count is_strange text.now }
{
    text.split(|byte| *byte == b'\n')
        .filter(|line| is_strange(line))
        .count()
}

/// The number of lines that begin like a line of a script.
fn script_lines(text: &[u8]) -> usize
    ensures { result ≡ line_count is_script_line text.now }
{
    text.split(|byte| *byte == b'\n')
        .filter(|line| is_script_line(line))
        .count()
}

/// Whether a line begins like a line of a script.
fn is_script_line(line: &[u8]) -> bool
    ensures { result ≡ is_script_line line.now }
{
    !is_silent(line) && is_known(first_token(line))
}

/// Whether a line does not begin like a line of a script.
fn is_strange(line: &[u8]) -> bool
    ensures { result ≡ is_strange line.now }
{
    !is_silent(line) && !is_known(first_token(line))
}

/// Whether a line is empty or a comment.
fn is_silent(line: &[u8]) -> bool
    ensures { result ≡ is_silent line.now }
{
    match line {
        [] => true,
        [first, ..] => *first == b'#',
    }
}

/// Whether a line of a script may begin with a word, or the word resembles the name of a command.
fn is_known(word: &[u8]) -> bool
    ensures { result ≡ is_known word.now }
{
    is_first_word(word) || command_like(word).is_some()
}

/// Whether a word is the first word of lines of a script.
fn is_first_word(word: &[u8]) -> bool
    ensures { result ≡ is_first_word word.now }
{
    is_word("do", word)
        || is_word("cmd", word)
        || is_word("loc", word)
        || is_word("wait", word)
        || is_word("entropy", word)
        || is_word("power", word)
}

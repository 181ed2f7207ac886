//! What the author of a bad line probably meant.

ghost use Rattle.std.specs.Prelude.{◌≡◌, ◌-◌, ◌++◌, drop, OnOk};
ghost use Rattle.std.specs.Str.{str_eq_ignore_ascii_case};
ghost use Rattle.tpmsim_script.specs.Hint.{bare_name, command_like, fault_hint, first_token};
ghost use Rattle.tpmsim_script.specs.Hint.{handle_hint, hint, hint_text, is_handle_number};
ghost use Rattle.tpmsim_script.specs.Hint.{is_handle_word, name_hint};
ghost use Rattle.tpmsim_script.specs.Hint.{password_hint, resembles, return_hint, token_hint};
ghost use Rattle.tpmsim_script.specs.Hint.{words_hint};

use crate::bad_line::{BadLine, Wanted};
use std::alloc::{AllocError, Global};
use std::fmt;
use tpm_commands::{CommandCode, Profile};
use tpm_help::word_at;
use tpm_number::number_in;
use tpm_text::{AsmFault, position_of};

/// Adds the hint at a bad line, which is a line of text or nothing.
pub fn put_hint(
    alloc: Global,
    text: &mut String,
    line: &[u8],
    bad: BadLine,
) -> Result<(), AllocError>
    ensures { OnOk result
        (text.new.bytes.items ≡ text.old.bytes.items ++ hint_text line.now bad) }
{
    if line.ends_with(b"\r") {
        put_return(text)
    } else {
        put_fault_hint(alloc, text, line, bad)
    }
}

/// Adds the hint at a line that ends with a carriage return.
#[tactic(auto, unfolding(crate::specs::Hint::return_hint))]
fn put_return(text: &mut String) -> Result<(), AllocError>
    ensures { OnOk result (text.new.bytes.items ≡ text.old.bytes.items ++ return_hint) }
{
    writeln!(text, "    the line ends with CR LF: end it with LF alone")
}

/// Adds a hint: a line that suggests these words, one directly after the other.
#[tactic(auto, unfolding(crate::specs::Hint::hint))]
fn put_words(text: &mut String, front: &str, word: &str) -> Result<(), AllocError>
    ensures { OnOk result (text.new.bytes.items
        ≡ text.old.bytes.items ++ hint front.now word.now) }
{
    let suggestion = Suggestion { front, word };
    writeln!(text, "{suggestion}")
}

/// Two words that are suggested, one directly after the other.
#[derive(Clone, Copy)]
struct Suggestion<'a> {
    front: &'a str,
    word: &'a str,
}

impl<'a> fmt::Display for Suggestion<'a> {
    ghost use Rattle.std.specs.Prelude.{Some};
    ghost use Rattle.tpmsim_script.specs.Hint.{suggestion};

    ghost output = { λ it. Some (suggestion it.front.now it.word.now) };

    fn fmt<W: fmt::Write>(&self, f: &mut fmt::Formatter<W>) -> fmt::Result {
        let front = self.front;
        let word = self.word;
        write!(f, "    did you mean {front}{word}?")
    }
}

/// Adds the hint at a bad line that does not end with a carriage return.
fn put_fault_hint(
    alloc: Global,
    text: &mut String,
    line: &[u8],
    bad: BadLine,
) -> Result<(), AllocError>
    ensures { OnOk result (text.new.bytes.items
        ≡ text.old.bytes.items ++ fault_hint bad.wanted line.now bad.fault) }
{
    match bad.wanted {
        Wanted::Word => put_name(text, "do ", first_token(line)),
        Wanted::Command => put_words_hint(alloc, text, after(3, line), bad.fault),
        _ => Ok(()),
    }
}

/// Adds the hint at the fault of a command in words.
fn put_words_hint(
    alloc: Global,
    text: &mut String,
    words: &[u8],
    fault: AsmFault,
) -> Result<(), AllocError>
    ensures { OnOk result
        (text.new.bytes.items ≡ text.old.bytes.items ++ words_hint words.now fault) }
{
    match fault {
        AsmFault::BadName => put_name(text, "", first_token(words)),
        AsmFault::BadField { column } => {
            let token = first_token(after(column.saturating_sub(1), words));
            put_token_hint(alloc, text, token, word_at(words, fault))
        }
        _ => Ok(()),
    }
}

/// Adds the hint at a word that resembles the name of a command. `front` precedes the name.
fn put_name(text: &mut String, front: &str, word: &[u8]) -> Result<(), AllocError>
    ensures { OnOk result
        (text.new.bytes.items ≡ text.old.bytes.items ++ name_hint front.now word.now) }
{
    match command_like(word) {
        Some(code) => put_words(text, front, code.name()),
        None => Ok(()),
    }
}

/// Adds the hint at a token. `expected` says what is expected there.
fn put_token_hint(
    alloc: Global,
    text: &mut String,
    token: &[u8],
    expected: &str,
) -> Result<(), AllocError>
    ensures { OnOk result
        (text.new.bytes.items ≡ text.old.bytes.items ++ token_hint token.now expected.now) }
{
    if expected == "entry" {
        put_password(alloc, text, token)
    } else if is_handle_word(expected) {
        put_handle(alloc, text, token)
    } else {
        Ok(())
    }
}

/// Adds the hint at a token that is not an authorization entry. After `pw:`, a text is probably
/// meant as a password.
fn put_password(alloc: Global, text: &mut String, token: &[u8]) -> Result<(), AllocError>
    ensures { OnOk result (text.new.bytes.items ≡ text.old.bytes.items ++ password_hint token.now) }
{
    match token.strip_prefix(b"pw:") {
        None => Ok(()),
        Some([]) => put_words(text, "pw:", "-"),
        Some(password) => {
            let digits = hex::encode(alloc, password)?;
            put_words(text, "pw:", digits.as_str())
        }
    }
}

/// Adds the hint at a token that is not a handle. A number is probably meant as a handle.
fn put_handle(alloc: Global, text: &mut String, token: &[u8]) -> Result<(), AllocError>
    ensures { OnOk result (text.new.bytes.items ≡ text.old.bytes.items ++ handle_hint token.now) }
{
    match number_in(0xffff_ffff, token) {
        Ok(number) if is_handle_number(number) => {
            let bytes = (number as u32).to_be_bytes();
            let digits = hex::encode(alloc, bytes)?;
            put_words(text, "", digits.as_str())
        }
        _ => Ok(()),
    }
}

/// Whether this is the number of a PCR, or at least that of the first NV index.
fn is_handle_number(number: u64) -> bool
    ensures { result ≡ is_handle_number number }
{
    number < 24 || number >= 0x0100_0000
}

/// Whether a handle is expected, given the word for what is expected.
fn is_handle_word(expected: &str) -> bool
    ensures { result ≡ is_handle_word expected.now }
{
    match expected {
        "PCR" | "NULL" | "LOCKOUT" | "Hierarchy" | "Entity" | "Object" | "Policy" | "Index" => true,
        _ => false,
    }
}

/// The command of the symmetric profile whose name a word resembles: the letters may differ in
/// case, and the word may begin with `TPM2_`.
pub fn command_like(word: &[u8]) -> Option<CommandCode>
    ensures { result ≡ command_like word.now }
{
    CommandCode::ALL
        .iter()
        .copied()
        .find(|code| resembles(word, *code))
}

/// Whether a word resembles the name of a command, which the symmetric profile has.
fn resembles(word: &[u8], code: CommandCode) -> bool
    ensures { result ≡ resembles word.now code }
{
    Profile::Symmetric.serves(code) && same_name(bare_name(word), code.name().as_bytes())
}

/// Whether two names differ at most in the case of their letters.
fn same_name(name: &[u8], other: &[u8]) -> bool
    ensures { result ≡ str_eq_ignore_ascii_case name.now other.now }
{
    name.eq_ignore_ascii_case(other)
}

/// A word without the prefix `TPM2_`.
fn bare_name(word: &[u8]) -> &[u8]
    ensures { result.now ≡ bare_name word.now }
{
    if word.len() < 5 {
        return word;
    }
    let (front, name) = word.split_at(5);
    if same_name(front, b"TPM2_") {
        name
    } else {
        word
    }
}

/// The first token of a text.
pub fn first_token(text: &[u8]) -> &[u8]
    ensures { result.now ≡ first_token text.now }
{
    match position_of(b' ', text) {
        Some(offset) => &text[..offset],
        None => text,
    }
}

/// The rest of a text, without this number of bytes.
fn after(count: usize, text: &[u8]) -> &[u8]
    ensures { result.now ≡ drop count text.now }
{
    if text.len() < count {
        &[]
    } else {
        &text[count..]
    }
}

//! The tokens of a line, separated by single spaces, each with its column.

ghost use Rattle.std.specs.Prelude.{◌≡◌, ◌==◌, ◌+◌, ◌<◌, ◌≤◌, ◌^◌, [], ◌∷◌, length, IfSome};
ghost use Rattle.std.specs.List.{position};
ghost use Rattle.std.specs.Option.{ForSome, option_map_or};
ghost use Rattle.tpm_text.specs.Pieces.{pieces_of};

use crate::entry::begins_entry;
use crate::fault::{AsmFault, fault_at};
use memchr::memchr;
use tpm_number::TokenFault;

/// The position of the first byte with this value.
pub fn position_of(byte: u8, bytes: &[u8]) -> Option<usize>
    ensures { result ≡ position (λ other. other == byte) bytes.now }
{
    memchr(byte, bytes)
}

/// The text before the first separator, and, if there is a separator, the text after it.
#[tactic(auto, using(crate::proofs::Cutting::cuts))]
pub fn cut(separator: u8, text: &[u8]) -> (&[u8], Option<&[u8]>)
    ensures pieces { pieces_of separator text.now ≡ result.0.now
        ∷ option_map_or (λ rest. pieces_of separator rest.now) result.1 [] }
    ensures place { IfSome result.1
        (λ rest. length text.now ≡ length result.0.now + 1 + length rest.now) }
{
    match position_of(separator, text) {
        Some(place) => (&text[..place], Some(&text[place + 1..])),
        None => (text, None),
    }
}

/// A token of a line, and the position of its first byte, counted from 1.
#[derive(Clone, Copy)]
pub struct Token<'a> {
    pub column: usize,
    pub text: &'a [u8],
}

/// The remaining tokens of a line, separated by single spaces.
#[derive(Clone, Copy)]
pub struct Tokens<'a> {
    /// The size of the whole line.
    size: usize,
    /// The text of the remaining tokens; None if no token remains.
    rest: Option<&'a [u8]>,
    ghost within: { ForSome rest (λ text. length text.now ≤ size) },
    ghost small: { size < 2 ^ 63 },
}

impl<'a> Token<'a> {
    ghost use Rattle.tpm_text.specs.Fault.{at_column};

    /// Returns the result of reading this token. If the result is a fault, adds the token's column.
    pub fn told<T>(self, read: Result<T, TokenFault>) -> Result<T, AsmFault>
        ensures { result ≡ at_column self.entry.column read }
    {
        match read {
            Ok(value) => Ok(value),
            Err(fault) => Err(fault_at(self.column, fault)),
        }
    }
}

impl<'a> Tokens<'a> {
    ghost use Rattle.tpm_text.specs.TokenReading.{Takes, TakesEntry, first_is_entry};
    ghost use Rattle.tpm_text.specs.Pieces.{TakesFirst, token_of, tokens_of};
    ghost use Rattle.tpm_text.specs.Tokens.{tokens_left};

    /// All tokens of a line. There is at least one token, which may be empty.
    #[tactic(auto, unfolding(crate::specs::Pieces::tokens_of))]
    pub fn of(line: &'a [u8]) -> Tokens<'a>
        ensures { tokens_left result ≡ tokens_of line.now }
    {
        Tokens {
            size: line.len(),
            rest: Some(line),
        }
    }

    /// Removes and returns the next token, or fails if no token remains.
    pub fn wanted(&mut self) -> Result<Token<'a>, AsmFault>
        ensures { Takes token_of (tokens_left self.old) result (tokens_left self.new) }
    {
        self.next().ok_or(AsmFault::Missing)
    }

    /// Removes and returns the next token if it begins like an entry.
    pub fn next_entry(&mut self) -> Option<Token<'a>>
        ensures { TakesEntry token_of (tokens_left self.old) result (tokens_left self.new) }
    {
        let mut ahead = *self;
        let token = ahead.next()?;
        if !begins_entry(token.text) {
            return None;
        }
        *self = ahead;
        Some(token)
    }

    /// Whether the next token begins like an entry.
    pub fn begins_entry(&self) -> bool
        ensures { result ≡ first_is_entry (tokens_left self.now) }
    {
        let mut ahead = *self;
        ahead.next_entry().is_some()
    }

    /// Removes and returns the next token.
    pub fn next(&mut self) -> Option<Token<'a>>
        ensures { TakesFirst token_of (tokens_left self.old) result (tokens_left self.new) }
    {
        let rest = self.rest?;
        let (text, others) = cut(b' ', rest);
        let column = self.size - rest.len() + 1;
        self.rest = others;
        Some(Token { column, text })
    }
}

//! Reads numbers in decimal or in hex, up to a given limit. Also reads localities.

ghost use Rattle.std.specs.Prelude.{◌≡◌, ◌<◌, ◌≤◌, ◌^◌, ◌-◌, IfOk, option_and_then, option_map};
ghost use Rattle.std.specs.List.{list_all};
ghost use Rattle.tpm_types_common.specs.Locality.{locality_number};
ghost use Rattle.tpm_bytes.specs.Reading.{Gives};
ghost use Rattle.tpm_number.specs.Number.{at_most, decimal_of, is_digit, is_word, locality_of};
ghost use Rattle.tpm_number.specs.Number.{number_in, number_of, numeral, radix_number};

use crate::fault::TokenFault;
use std::str;
use tpm_types_common::Locality;

/// Whether a string is this word.
pub fn is_word(word: &str, text: &[u8]) -> bool
    ensures { result ≡ is_word word.now text.now }
{
    text == word.as_bytes()
}

/// The radix in which a number is written.
#[derive(Clone, Copy, PartialEq, Eq)]
enum Radix {
    Decimal,
    Hexadecimal,
}

impl Radix {
    fn number(self) -> u32
        ensures value { result ≡ radix_number self }
        ensures lower { 2 ≤ result }
        ensures upper { result ≤ 36 }
    {
        match self {
            Radix::Decimal => 10,
            Radix::Hexadecimal => 16,
        }
    }

    fn has_digit(self, byte: u8) -> bool
        ensures { result ≡ is_digit (radix_number self) byte }
    {
        char::from(byte).is_digit(self.number())
    }

    fn has_digits(self, bytes: &[u8]) -> bool
        ensures { result ≡ list_all (is_digit (radix_number self)) bytes.now }
    {
        bytes.iter().all(|byte| self.has_digit(*byte))
    }

    /// Returns the number that these digits encode in this radix. Fails with Bad if they are not a
    /// number, or with Range if the number is 2^64 or more.
    fn read(self, digits: &[u8]) -> Result<u64, TokenFault>
        ensures { Gives (λ number. number)
            (at_most (2 ^ 64 - 1) (numeral (radix_number self) digits.now)) result }
    {
        if digits.is_empty() || !self.has_digits(digits) {
            return Err(TokenFault::Bad);
        }
        let Ok(text) = str::from_utf8(digits) else {
            return Err(TokenFault::Bad);
        };
        let Ok(number) = u64::from_str_radix(text, self.number()) else {
            return Err(TokenFault::Range);
        };
        Ok(number)
    }
}

/// Returns the number in a token: hex digits after 0x, or decimal digits. Fails with Bad if the
/// token is not a number, or with Range if the number exceeds `most`.
#[tactic(auto, unfolding(crate::specs::Number::number_of, crate::specs::Number::at_most))]
pub fn number_in(most: u64, token: &[u8]) -> Result<u64, TokenFault>
    ensures value { Gives (λ number. number) (number_in most token.now) result }
    ensures small { IfOk result (λ number. number ≤ most) }
{
    let number = match token.strip_prefix(b"0x") {
        Some(digits) => Radix::Hexadecimal.read(digits)?,
        None => Radix::Decimal.read(token)?,
    };
    if number > most {
        return Err(TokenFault::Range);
    }
    Ok(number)
}

/// Returns the number that these decimal digits encode. There must be at least one digit, leading
/// zeros are allowed, and there is no sign. For any other string, and for 2^32 or more, the result
/// is `None`.
#[tactic(auto, unfolding(crate::specs::Number::at_most))]
pub fn decimal(digits: &[u8]) -> Option<u32>
    ensures { result ≡ decimal_of digits.now }
{
    match Radix::Decimal.read(digits) {
        Ok(number) => u32::try_from(number).ok(),
        Err(_) => None,
    }
}

/// Returns the locality with this decimal number, or None if the number is not between 0 and 4.
pub fn locality(digits: &[u8]) -> Option<Locality>
    ensures { option_map locality_number result
        ≡ option_and_then locality_of (decimal_of digits.now) }
{
    let number = u8::try_from(decimal(digits)?).ok()?;
    Locality::new(number)
}

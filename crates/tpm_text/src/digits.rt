//! Checks that a token is valid hex, before it is decoded.

ghost use Rattle.std.specs.Prelude.{◌≡◌, Err, MatchResult};
ghost use Rattle.std.specs.List.{list_all};
ghost use Rattle.hex.specs.Hex.{is_hex_digit};
ghost use Rattle.tpm_text.specs.Hex.{IsChecked, bytes_in, hex_in};

use tpm_number::{TokenFault, is_word};

fn is_hex_digit(byte: u8) -> bool
    ensures { result ≡ is_hex_digit byte }
{
    matches!(byte, b'A'..=b'F' | b'a'..=b'f' | b'0'..=b'9')
}

fn are_hex_digits(bytes: &[u8]) -> bool
    ensures { result ≡ list_all is_hex_digit bytes.now }
{
    bytes.iter().all(|byte| is_hex_digit(*byte))
}

/// Checks, without decoding, that the digits are hex digits of either case, and that their number
/// is even. Otherwise, the fault is Bad.
#[tactic(auto, using(crate::proofs::HexDigits::hex_digits))]
pub fn check_hex(digits: &[u8]) -> Result<(), TokenFault>
    ensures { IsChecked (hex_in digits.now) result }
{
    if digits.len() % 2 == 1 || !are_hex_digits(digits) {
        return Err(TokenFault::Bad);
    }
    Ok(())
}

/// The hex digits of a token; none for the token `-`. The fault is Bad if the token is empty.
#[tactic(auto, using(crate::proofs::HexDigits::none_is_good), unfolding(crate::specs::Hex::bytes_in))]
pub fn digits_of(token: &[u8]) -> Result<&[u8], TokenFault>
    ensures { MatchResult result
        (λ digits. bytes_in token.now ≡ hex_in digits.now)
        (λ fault. bytes_in token.now ≡ Err fault) }
{
    if is_word("-", token) {
        Ok(&[])
    } else if token.is_empty() {
        Err(TokenFault::Bad)
    } else {
        Ok(token)
    }
}

#![tactic(auto)]

//! Encodes bytes in hex and decodes them. Scripts contain commands and responses in hex.
//!
//! The crate uses the kit's `hex`, which defines hex. The result of each function is proved to
//! equal its definition there. A text that is not hex is refused, and the content of the output
//! buffer is then unspecified. The loops do not branch on single digits, so that the compiler can
//! process sixteen digits at a time.

ghost use Rattle.std.specs.Prelude.{◌≡◌, ◌*◌, ◌/◌, ◌<◌, length, slice_index, unwrap_or, IsErr, MatchResult};
ghost use Rattle.hex.specs.Hex.{decode_of, encode_lower, hex_digit_value, lower_digits};
ghost use Rattle.tpm_hex.specs.Values.{PairsTell};
ghost use Rattle.tpm_hex.specs.declared.TheConstants.{NO_DIGIT};

/// The text is not hex: its length is odd, or one of its bytes is not a digit.
#[derive(Clone, Copy, PartialEq, Eq)]
pub struct NotHex;

/// The value used for a byte that is not a digit.
const NO_DIGIT: u8 = 255;

/// Writes bytes as lower-case hex.
pub fn encode(bytes: &[u8], digits: &mut [u8])
    requires { length digits.old ≡ 2 * length bytes.now }
    ensures { digits.new ≡ encode_lower bytes.now }
{
    for place in 0..bytes.len() {
        let byte = bytes[place];
        digits[2 * place] = digit_of(byte / 16);
        digits[2 * place + 1] = digit_of(byte % 16);
    }
}

/// Decodes hex digits of either case into `bytes`. If the text is not hex, the content of `bytes`
/// is unspecified afterwards.
pub fn decode(digits: &[u8], bytes: &mut [u8]) -> Result<(), NotHex>
    requires { length bytes.old ≡ length digits.now / 2 }
    ensures { MatchResult (decode_of digits.now)
        (λ read. (result ≡ Ok tt) × (bytes.new ≡ read))
        (λ fault. IsErr result) }
{
    if digits.len() % 2 == 1 || largest_value(digits, bytes) >= 16 {
        return Err(NotHex);
    }
    Ok(())
}

/// Decodes pairs of digits into `bytes`, and returns the largest digit value.
fn largest_value(digits: &[u8], bytes: &mut [u8]) -> u8
    requires { length digits.now ≡ 2 * length bytes.old }
    ensures { PairsTell digits.now result bytes.new }
{
    let mut largest: u8 = 0;
    for place in 0..bytes.len() {
        let (high, low) = (value_of(digits[2 * place]), value_of(digits[2 * place + 1]));
        bytes[place] = high % 16 * 16 + low % 16;
        largest = largest.max(high).max(low);
    }
    largest
}

/// The lower-case digit for a value.
fn digit_of(value: u8) -> u8
    requires { value < 16 }
    ensures { result ≡ slice_index lower_digits value }
{
    if value < 10 {
        b'0' + value
    } else {
        b'a' - 10 + value
    }
}

/// The value of a hex digit of either case, or `NO_DIGIT` for any other byte.
fn value_of(digit: u8) -> u8
    ensures { result ≡ unwrap_or (hex_digit_value digit) NO_DIGIT }
{
    match digit {
        b'0'..=b'9' => digit - b'0',
        b'A'..=b'F' => digit - b'A' + 10,
        b'a'..=b'f' => digit - b'a' + 10,
        _ => NO_DIGIT,
    }
}

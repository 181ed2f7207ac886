//! Strips a piece from the beginning of the input.

ghost use Rattle.std.specs.Prelude.{◌≡◌, ◌*◌, ◌++◌, ℕ, List, IfNone, IfSome, length};
ghost use Rattle.std.specs.Str.{bytes_eq};
ghost use Rattle.hex.specs.Hex.{encode_lower};

use tpm_bytes::is_equal;
use tpm_hex::encode;

/// The input after this piece, or None if the input does not begin with the piece.
pub(crate) fn strip<'a>(text: &'a [u8], piece: &[u8]) -> Option<&'a [u8]>
    ensures some { IfSome result (λ rest. text.now ≡ piece.now ++ rest.now) }
    ensures none { IfNone result ((rest : List ℕ) → text.now ≡ piece.now ++ rest → ⊥) }
{
    if text.len() < piece.len() {
        return None;
    }
    let (front, rest) = text.split_at(piece.len());
    if is_equal(front, piece) {
        Some(rest)
    } else {
        None
    }
}

/// Whether these digits encode the bytes in lower-case hex.
fn is_hex_of(digits: &[u8], bytes: &[u8]) -> bool
    requires { length digits.now ≡ 2 * length bytes.now }
    ensures { result ≡ bytes_eq digits.now (encode_lower bytes.now) }
{
    for place in 0..bytes.len() {
        let mut pair = [0; 2];
        encode(&[bytes[place]], &mut pair);
        let (_, back) = digits.split_at(2 * place);
        let (front, _) = back.split_at(2);
        if !is_equal(front, &pair) {
            return false;
        }
    }
    true
}

/// The input after these bytes in hex, or None if the input does not begin with them.
pub(crate) fn strip_hex<'a>(text: &'a [u8], bytes: &[u8]) -> Option<&'a [u8]>
    ensures some { IfSome result (λ rest. text.now ≡ encode_lower bytes.now ++ rest.now) }
    ensures none { IfNone result ((rest : List ℕ)
        → text.now ≡ encode_lower bytes.now ++ rest → ⊥) }
{
    if text.len() < 2 * bytes.len() {
        return None;
    }
    let (digits, rest) = text.split_at(2 * bytes.len());
    if is_hex_of(digits, bytes) {
        Some(rest)
    } else {
        None
    }
}

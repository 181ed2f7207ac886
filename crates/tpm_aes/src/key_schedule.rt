//! The key expansion (FIPS 197, 5.2).

ghost use Rattle.std.specs.Prelude.{◌≡◌, ◌≤◌};
ghost use Rattle.std.specs.Int.{to_le_bytes, w32};
ghost use Rattle.tpm_aes.specs.Cipher.{next_round_key, scheduled_word};
ghost use Rattle.tpm_aes.specs.Words.{bytes_of};

use crate::bytes::Words;
use crate::tables::substituted_word;

/// The constants for rounds 1 to 10 (FIPS 197, 5.2, Rcon): the powers of x, starting with 1.
static ROUND_CONSTANTS: [u8; 10] = [0x01, 0x02, 0x04, 0x08, 0x10, 0x20, 0x40, 0x80, 0x1b, 0x36];

/// The key for a round, computed from the previous round's key.
pub(crate) fn next_round_key(round: usize, key: Words) -> Words
    requires after_first { 1 ≤ round }
    requires to_last { round ≤ 10 }
    ensures { bytes_of result ≡ next_round_key round (bytes_of key) }
{
    let [a, b, c, d] = key;
    let first = a ^ scheduled_word(round, d);
    let second = b ^ first;
    let third = c ^ second;
    [first, second, third, d ^ third]
}

/// The word rotated left by a byte, with each byte replaced using the S-box, and the round's
/// constant added.
fn scheduled_word(round: usize, word: u32) -> u32
    requires after_first { 1 ≤ round }
    requires to_last { round ≤ 10 }
    ensures { to_le_bytes w32 result ≡ scheduled_word round (to_le_bytes w32 word) }
{
    let [a0, a1, a2, a3] = word.to_le_bytes();
    substituted_word([a1, a2, a3, a0]) ^ u32::from(ROUND_CONSTANTS[round - 1])
}

//! The steps of a round (FIPS 197, 5.1) on a state of four words: SubBytes, ShiftRows and, except
//! in the last round, MixColumns, all in one pass; then AddRoundKey.

ghost use Rattle.std.specs.Prelude.{◌≡◌};
ghost use Rattle.tpm_aes.specs.Cipher.{mix_columns, shift_rows, sub_bytes, xor_of};
ghost use Rattle.tpm_aes.specs.Words.{bytes_of};

use crate::bytes::Words;
use crate::tables::{mixed_column, substituted_word};

/// The state after the bytes are substituted, the rows shifted, and the columns mixed.
pub(crate) fn mixed_state(state: Words) -> Words
    ensures { bytes_of result ≡ mix_columns (shift_rows (sub_bytes (bytes_of state))) }
{
    let [first, second, third, fourth] = state;
    let [a0, a1, a2, a3] = first.to_le_bytes();
    let [b0, b1, b2, b3] = second.to_le_bytes();
    let [c0, c1, c2, c3] = third.to_le_bytes();
    let [d0, d1, d2, d3] = fourth.to_le_bytes();
    [
        mixed_column([a0, b1, c2, d3]),
        mixed_column([b0, c1, d2, a3]),
        mixed_column([c0, d1, a2, b3]),
        mixed_column([d0, a1, b2, c3]),
    ]
}

/// The state after the bytes are substituted and the rows shifted, which is all that the last round
/// does before AddRoundKey.
pub(crate) fn shifted_state(state: Words) -> Words
    ensures { bytes_of result ≡ shift_rows (sub_bytes (bytes_of state)) }
{
    let [first, second, third, fourth] = state;
    let [a0, a1, a2, a3] = first.to_le_bytes();
    let [b0, b1, b2, b3] = second.to_le_bytes();
    let [c0, c1, c2, c3] = third.to_le_bytes();
    let [d0, d1, d2, d3] = fourth.to_le_bytes();
    [
        substituted_word([a0, b1, c2, d3]),
        substituted_word([b0, c1, d2, a3]),
        substituted_word([c0, d1, a2, b3]),
        substituted_word([d0, a1, b2, c3]),
    ]
}

/// The state with a round key added (FIPS 197, 5.1.4). The key is the first parameter, so that its
/// words are read before the words of the state are computed. Otherwise the compiler packs the
/// state into one register in each round and then extracts its words again.
pub(crate) fn add_round_key(key: Words, state: Words) -> Words
    ensures { bytes_of result ≡ xor_of (bytes_of state) (bytes_of key) }
{
    let [k0, k1, k2, k3] = key;
    let [a, b, c, d] = state;
    [a ^ k0, b ^ k1, c ^ k2, d ^ k3]
}

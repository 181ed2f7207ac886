//! The cipher for one key (FIPS 197, 5.1).

ghost use Rattle.std.specs.Prelude.{◌≡◌, [], List, ℕ, map, slice_index_or};
ghost use Rattle.tpm_aes.specs.Cipher.{aes_of, expanded_key};
ghost use Rattle.tpm_aes.specs.Words.{bytes_of};

use crate::bytes::{Words, block_of, words_of};
use crate::key_schedule::next_round_key;
use crate::rounds::{add_round_key, mixed_state, shifted_state};
use std::marker::Model;

/// AES-128 encryption with one key. Contracts represent it by the bytes of its key.
#[derive(Drop)]
pub struct Aes128 {
    round_keys: [Words; 11],
}

impl Model for Aes128 {
    ghost Value = { List ℕ };

    ghost view = { λ cipher. bytes_of (slice_index_or cipher.round_keys 0 []) };

    ghost invariant = { λ cipher. map bytes_of cipher.round_keys
        ≡ expanded_key (bytes_of (slice_index_or cipher.round_keys 0 [])) };
}

impl Aes128 {
    /// The cipher for this key. Its round keys are expanded only once (FIPS 197, 5.2).
    pub fn new(key: &[u8; 16]) -> Aes128
        ensures { result ≡ key.now }
    {
        let mut round_keys = [words_of(key); 11];
        for round in 1..11 {
            round_keys[round] = next_round_key(round, round_keys[round - 1]);
        }
        Aes128 { round_keys }
    }

    /// Encrypts a block (FIPS 197, 5.1).
    pub fn block(&self, block: &[u8; 16]) -> [u8; 16]
        ensures { result ≡ aes_of self.now block.now }
    {
        let mut state = add_round_key(self.round_keys[0], words_of(block));
        for round in 1..10 {
            state = add_round_key(self.round_keys[round], mixed_state(state));
        }
        block_of(add_round_key(self.round_keys[10], shifted_state(state)))
    }
}

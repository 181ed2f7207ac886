//! The hash value after whole blocks.

ghost use Rattle.std.specs.Prelude.{◌≡◌};
ghost use Rattle.tpm_hash_state.specs.State.{value_after_block, value_bytes};

use crate::digest::words_text;
use crate::{sha1_block, sha256_block};
use tpm_mac::Digest;

/// The hash value after whole blocks of a message (FIPS 180-4, 6.1.2 and 6.2.2).
#[derive(Clone, Copy, PartialEq, Eq)]
pub enum ChainingValue {
    /// The five words of SHA-1.
    Sha1([u32; 5]),
    /// The eight words of SHA-256.
    Sha256([u32; 8]),
}

impl ChainingValue {
    /// Updates the hash value with one more block.
    pub(crate) fn compress(&mut self, block: &[u8; 64])
        ensures { self.new ≡ value_after_block self.old block.now }
    {
        match self {
            ChainingValue::Sha1(words) => *words = sha1_block::compress(*words, block),
            ChainingValue::Sha256(words) => *words = sha256_block::compress(*words, block),
        }
    }

    /// The words as bytes, each with its high byte first.
    pub(crate) fn bytes(self) -> Digest
        ensures { result.items ≡ value_bytes self }
    {
        match self {
            ChainingValue::Sha1(words) => words_text(&words),
            ChainingValue::Sha256(words) => words_text(&words),
        }
    }
}

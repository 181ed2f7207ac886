//! A hash in progress.

ghost use Rattle.std.specs.Prelude.{◌≡◌, ◌+◌, ◌%◌, ◌≤◌, length};
ghost use Rattle.tpm_mac.specs.Digest.{digest_size};
ghost use Rattle.tpm_hash_state.specs.State.{empty_state, state_after_bytes, state_alg, state_digest};

use crate::chaining::ChainingValue;
use crate::digest::padding_start;
use tpm_mac::{Digest, HashAlg};

/// The block size of both hash algorithms, in bytes.
const BLOCK_SIZE: usize = 64;

/// A hash in progress.
#[derive(Clone, Copy, PartialEq, Eq)]
pub struct HashState {
    /// The hash value after the whole blocks of the message.
    pub chaining: ChainingValue,
    /// The bytes after the last whole block of the message. The rest of the array contains bytes
    /// left over from earlier blocks.
    pub block: [u8; 64],
    /// The length of the message in bytes, modulo 2^64.
    pub length: u64,
}

impl HashState {
    /// A hash that has not absorbed any byte yet.
    pub fn new(alg: HashAlg) -> HashState
        ensures { result ≡ empty_state alg }
    {
        let chaining = match alg {
            HashAlg::Sha1 => ChainingValue::Sha1([
                0x6745_2301,
                0xefcd_ab89,
                0x98ba_dcfe,
                0x1032_5476,
                0xc3d2_e1f0,
            ]),
            HashAlg::Sha256 => ChainingValue::Sha256([
                0x6a09_e667,
                0xbb67_ae85,
                0x3c6e_f372,
                0xa54f_f53a,
                0x510e_527f,
                0x9b05_688c,
                0x1f83_d9ab,
                0x5be0_cd19,
            ]),
        };
        HashState {
            chaining,
            block: [0; BLOCK_SIZE],
            length: 0,
        }
    }

    /// The hash algorithm.
    pub fn alg(&self) -> HashAlg
        ensures { result ≡ state_alg self.now }
    {
        match self.chaining {
            ChainingValue::Sha1(_) => HashAlg::Sha1,
            ChainingValue::Sha256(_) => HashAlg::Sha256,
        }
    }

    /// Appends the bytes to the message, a block at a time.
    pub fn absorb(&mut self, bytes: &[u8])
        ensures { self.new ≡ state_after_bytes self.old bytes.now }
    {
        let mut rest = bytes;
        while !rest.is_empty() {
            let free = BLOCK_SIZE - (self.length % 64) as usize;
            let count = rest.len().min(free);
            self.absorb_piece(&rest[..count]);
            rest = &rest[count..];
        }
    }

    /// Appends bytes to the message. They must fit into the rest of the block. If they fill the
    /// block, compresses it.
    fn absorb_piece(&mut self, piece: &[u8])
        requires { self.old.length % 64 + length piece.now ≤ 64 }
        ensures { self.new ≡ state_after_bytes self.old piece.now }
    {
        let start = (self.length % 64) as usize;
        let end = start + piece.len();
        self.block[start..end].copy_from_slice(piece);
        self.length = self.length.wrapping_add(piece.len() as u64);
        if end == BLOCK_SIZE {
            self.chaining.compress(&self.block);
        }
    }

    /// The digest of the message. The state can absorb more bytes afterwards.
    pub fn digest(&self) -> Digest
        ensures value { result.items ≡ state_digest self.now }
        ensures size { length result.items ≡ digest_size (state_alg self.now) }
    {
        let mut padded = *self;
        padded.absorb(padding_start((self.length % 64) as usize));
        padded.absorb(&self.length.wrapping_mul(8).to_be_bytes());
        padded.chaining.bytes()
    }
}

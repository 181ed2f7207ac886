//! An HMAC in progress.

ghost use Rattle.std.specs.Prelude.{◌≡◌, ◌++◌, ◌-◌, ◌≤◌, length, replicate};
ghost use Rattle.tpm_mac.specs.Digest.{digest_size};
ghost use Rattle.tpm_mac.specs.Hmac.{masked_key, padded_key};
ghost use Rattle.tpm_hash_state.specs.Hmac.{hmac_absorbed, hmac_digest, hmac_state};
ghost use Rattle.tpm_hash_state.specs.State.{state_alg};

use crate::state::HashState;
use tpm_mac::{Digest, HashAlg, digest_parts};

/// The byte `ipad`, which masks the key of the inner hash (FIPS 198-1, 2.3).
const INNER_PAD: u8 = 0x36;

/// The byte `opad`, which masks the key of the outer hash (FIPS 198-1, 2.3).
const OUTER_PAD: u8 = 0x5c;

/// An HMAC in progress (FIPS 198-1, 4). Both hashes have absorbed their masked keys.
#[derive(Clone, Copy, PartialEq, Eq)]
pub struct HmacState {
    /// The inner hash, which absorbs the message.
    pub inner: HashState,
    /// The outer hash, which absorbs the digest of the inner hash at the end.
    pub outer: HashState,
}

impl HmacState {
    /// Starts an HMAC with a key of any length.
    pub fn new(alg: HashAlg, key: &[u8]) -> HmacState
        ensures { result ≡ hmac_state alg key.now }
    {
        let key = block_key(alg, key);
        let mut inner = HashState::new(alg);
        inner.absorb(&masked(&key, INNER_PAD));
        let mut outer = HashState::new(alg);
        outer.absorb(&masked(&key, OUTER_PAD));
        HmacState { inner, outer }
    }

    /// Appends the bytes to the message.
    pub fn absorb(&mut self, bytes: &[u8])
        ensures { self.new ≡ hmac_absorbed self.old bytes.now }
    {
        self.inner.absorb(bytes);
    }

    /// The HMAC of the message. The state can absorb more bytes afterwards.
    pub fn digest(&self) -> Digest
        ensures value { result.items ≡ hmac_digest self.now }
        ensures size { length result.items ≡ digest_size (state_alg self.now.outer) }
    {
        let mut outer = self.outer;
        outer.absorb(self.inner.digest().as_slice());
        outer.digest()
    }
}

/// The key, padded with zeros to a block. A key longer than a block is hashed first.
fn block_key(alg: HashAlg, key: &[u8]) -> [u8; 64]
    ensures { result ≡ padded_key alg key.now }
{
    if key.len() > 64 {
        zero_padded(digest_parts(alg, &[key]).as_slice())
    } else {
        zero_padded(key)
    }
}

/// The bytes, padded with zeros to a block.
fn zero_padded(bytes: &[u8]) -> [u8; 64]
    requires { length bytes.now ≤ 64 }
    ensures { result ≡ bytes.now ++ replicate (64 - length bytes.now) 0 }
{
    let mut block = [0; 64];
    block[..bytes.len()].copy_from_slice(bytes);
    block
}

/// The key with each byte xored with the pad.
fn masked(key: &[u8; 64], pad: u8) -> [u8; 64]
    ensures { result ≡ masked_key pad key.now }
{
    let mut block = *key;
    for byte in &mut block {
        *byte ^= pad;
    }
    block
}

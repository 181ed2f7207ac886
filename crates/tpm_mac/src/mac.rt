//! Computes the HMAC (FIPS 198-1) of a message that is fed piece by piece, or passed in parts.

ghost use Rattle.std.specs.Prelude.{◌≡◌, ◌-◌, ◌≤◌, [], ◌++◌, length, List, replicate, ℕ};
ghost use Rattle.tpm_mac.specs.Digest.{digest_size, joined_text};
ghost use Rattle.tpm_mac.specs.Hmac.{hmac_of, masked_key, padded_key};
ghost use Rattle.tpm_mac.specs.Mac.{IsUnkeyed, MacHolds, MacTakes};
ghost use Rattle.tpm_mac.specs.declared.algorithm.HashAlg.{HashAlg};

use crate::algorithm::HashAlg;
use crate::digests::{Digest, digest_parts};
use crate::hasher::Hasher;

/// The block size in bytes of both hash algorithms.
const BLOCK_SIZE: usize = 64;

/// The byte `ipad`, which masks the key of the inner hash.
const INNER_PAD: u8 = 0x36;

/// The byte `opad`, which masks the key of the outer hash.
const OUTER_PAD: u8 = 0x5c;

/// A key that is one block long, which FIPS 198-1 calls K0.
type BlockKey = [u8; BLOCK_SIZE];

/// An HMAC in progress. The message is fed to the inner hash, and at the end the inner digest is
/// fed to the outer hash. Both hashes are fed their masked keys at the start. Therefore, copying a
/// `Mac` saves hashing both blocks of the key.
#[derive(Drop)]
pub struct Mac {
    inner: Hasher,
    outer: Hasher,
}

impl Mac {
    /// Starts an HMAC with a key of any length. No byte of the message has been fed yet.
    pub fn new(alg: HashAlg, key: &[u8]) -> Mac
        ensures { MacHolds result alg key.now [] }
    {
        let mut mac = Mac::unkeyed(alg);
        mac.take_key(alg, key);
        mac
    }

    /// A `Mac` whose two hashes have not been fed anything, not even a key. `take_key` feeds the
    /// key later, in place, because returning a `Mac` would copy it.
    #[inline(always)]
    #[tactic(auto, unfolding(crate::specs::Mac::IsUnkeyed))]
    pub(crate) fn unkeyed(alg: HashAlg) -> Mac
        ensures { IsUnkeyed result alg }
    {
        Mac {
            inner: Hasher::new(alg),
            outer: Hasher::new(alg),
        }
    }

    /// Masks the key with `ipad` and feeds it to the inner hash. Masks the key with `opad` and
    /// feeds it to the outer hash.
    #[inline(always)]
    #[tactic(auto, unfolding(crate::specs::Mac::MacHolds, crate::specs::Mac::IsUnkeyed))]
    pub(crate) fn take_key(&mut self, alg: HashAlg, key: &[u8])
        requires { IsUnkeyed self.old alg }
        ensures { MacHolds self.new alg key.now [] }
    {
        let key = block_key(alg, key);
        self.inner.update(&mask(&key, INNER_PAD));
        self.outer.update(&mask(&key, OUTER_PAD));
    }

    /// A second `Mac` with the same key and in the same state.
    pub(crate) fn copy(&self) -> Mac
        ensures { result ≡ self.now }
    {
        Mac {
            inner: self.inner.copy(),
            outer: self.outer.copy(),
        }
    }

    /// Feeds more bytes of the message to the `Mac`.
    #[tactic(auto, unfolding(crate::specs::Mac::MacHolds))]
    pub fn update(&mut self, bytes: &[u8])
        ensures { MacTakes self.old bytes.now self.new }
    {
        self.inner.update(bytes);
    }

    /// Feeds the parts to the `Mac`, one after another.
    pub(crate) fn take_parts(&mut self, parts: &[&[u8]])
        ensures { MacTakes self.old (joined_text parts.now) self.new }
    {
        for part in parts {
            self.update(part);
        }
    }

    /// Returns the HMAC of the message.
    #[inline(always)]
    #[tactic(auto, unfolding(crate::specs::Mac::MacHolds, crate::specs::Hmac::hmac_of))]
    pub fn finish(self) -> Digest
        ensures value { (alg : HashAlg) (key text : List ℕ)
            → MacHolds self alg key text → result.items ≡ hmac_of alg key text }
        ensures size { (alg : HashAlg) (key text : List ℕ)
            → MacHolds self alg key text → length result.items ≡ digest_size alg }
    {
        let Mac { inner, mut outer } = self;
        outer.update(inner.finish().as_slice());
        outer.finish()
    }
}

/// The HMAC of the concatenated parts, with a key of any length. No part is copied.
pub fn hmac_parts(alg: HashAlg, key: &[u8], parts: &[&[u8]]) -> Digest
    ensures value { result.items ≡ hmac_of alg key.now (joined_text parts.now) }
    ensures size { length result.items ≡ digest_size alg }
{
    let mut mac = Mac::unkeyed(alg);
    mac.take_key(alg, key);
    mac.take_parts(parts);
    mac.finish()
}

/// The key, padded with zeros to a block. A key longer than a block is hashed first.
fn block_key(alg: HashAlg, key: &[u8]) -> BlockKey
    ensures { result ≡ padded_key alg key.now }
{
    if key.len() > BLOCK_SIZE {
        zero_padded(digest_parts(alg, &[key]).as_slice())
    } else {
        zero_padded(key)
    }
}

/// The bytes, padded with zeros to a block.
fn zero_padded(bytes: &[u8]) -> BlockKey
    requires { length bytes.now ≤ BLOCK_SIZE }
    ensures { result ≡ bytes.now ++ replicate (64 - length bytes.now) 0 }
{
    let mut block = [0; BLOCK_SIZE];
    block[..bytes.len()].copy_from_slice(bytes);
    block
}

/// The key with each byte xored with the pad.
fn mask(key: &BlockKey, pad: u8) -> BlockKey
    ensures { result ≡ masked_key pad key.now }
{
    let mut block = *key;
    for byte in &mut block {
        *byte ^= pad;
    }
    block
}

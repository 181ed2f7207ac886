//! Computes the digest of a message that is fed piece by piece.

ghost use Rattle.std.specs.Prelude.{◌≡◌, [], length, List, ℕ};
ghost use Rattle.tpm_mac.specs.Digest.{digest_size, hash_of};
ghost use Rattle.tpm_mac.specs.Hasher.{Holds, Takes};
ghost use Rattle.tpm_mac.specs.declared.algorithm.HashAlg.{HashAlg};

use crate::algorithm::HashAlg;
use crate::digests::Digest;
use arrayvec::ArrayVec;
use sha1::Sha1;
use sha2::{Digest as _, Sha256};

/// A hash in progress. It wraps the hash crate's state, which buffers only the bytes of an
/// incomplete block.
#[derive(Drop)]
pub struct Hasher {
    state: State,
}

#[derive(Drop)]
enum State {
    Sha1(Sha1),
    Sha256(Sha256),
}

impl Hasher {
    /// A hash that has not been fed anything yet.
    #[tactic(auto, unfolding(crate::specs::Hasher::Holds))]
    pub fn new(alg: HashAlg) -> Hasher
        ensures { Holds result alg [] }
    {
        let state = match alg {
            HashAlg::Sha1 => State::Sha1(Sha1::new()),
            HashAlg::Sha256 => State::Sha256(Sha256::new()),
        };
        Hasher { state }
    }

    /// Feeds more bytes of the message to the hasher.
    #[tactic(auto, unfolding(crate::specs::Hasher::Holds))]
    pub fn update(&mut self, bytes: &[u8])
        ensures { Takes self.old bytes.now self.new }
    {
        if bytes.is_empty() {
            return;
        }
        match &mut self.state {
            State::Sha1(hasher) => hasher.update(bytes),
            State::Sha256(hasher) => hasher.update(bytes),
        }
    }

    /// A second hasher in the same state.
    pub(crate) fn copy(&self) -> Hasher
        ensures { result ≡ self.now }
    {
        let state = match &self.state {
            State::Sha1(hasher) => State::Sha1(hasher.clone().unwrap()),
            State::Sha256(hasher) => State::Sha256(hasher.clone().unwrap()),
        };
        Hasher { state }
    }

    /// Returns the digest of the message.
    #[tactic(auto, unfolding(crate::specs::Hasher::Holds))]
    #[inline(always)]
    pub fn finish(self) -> Digest
        ensures value { (alg : HashAlg) (message : List ℕ)
            → Holds self alg message → result.items ≡ hash_of alg message }
        ensures size { (alg : HashAlg) (message : List ℕ)
            → Holds self alg message → length result.items ≡ digest_size alg }
    {
        let mut digest = ArrayVec::new();
        // The digest of either algorithm fits in 32 bytes.
        let _ = match self.state {
            State::Sha1(hasher) => digest.try_extend_from_slice(&hasher.finalize()),
            State::Sha256(hasher) => digest.try_extend_from_slice(&hasher.finalize()),
        };
        digest
    }
}

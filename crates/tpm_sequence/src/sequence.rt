//! A sequence, which stores the state of its digests instead of its data.

ghost use Rattle.std.specs.Prelude.{◌≡◌};
ghost use Rattle.tpm_sequence.specs.Sequence.{event_sequence, hash_sequence, hmac_sequence, sequence_updated};

use crate::beginning::Beginning;
use tpm_hash_state::{HashState, HmacState};
use tpm_mac::HashAlg;

/// A sequence: the state of its digests after the data so far.
#[derive(Clone, Copy, PartialEq, Eq)]
pub enum Sequence {
    /// A hash sequence (TPM2_HashSequenceStart with a hash algorithm).
    Hash {
        state: HashState,
        beginning: Beginning,
    },
    /// An event sequence (TPM2_HashSequenceStart with TPM_ALG_NULL), which has a digest for the
    /// PCR bank of each algorithm.
    Event {
        sha1: HashState,
        sha256: HashState,
    },
    /// An HMAC sequence (TPM2_HMAC_Start).
    Hmac {
        state: HmacState,
    },
}

impl Sequence {
    /// Starts a hash sequence.
    pub fn hash(alg: HashAlg) -> Sequence
        ensures { result ≡ hash_sequence alg }
    {
        Sequence::Hash {
            state: HashState::new(alg),
            beginning: Beginning::Empty,
        }
    }

    /// Starts an event sequence.
    pub fn event() -> Sequence
        ensures { result ≡ event_sequence }
    {
        Sequence::Event {
            sha1: HashState::new(HashAlg::Sha1),
            sha256: HashState::new(HashAlg::Sha256),
        }
    }

    /// Starts an HMAC sequence with this key.
    pub fn hmac(alg: HashAlg, key: &[u8]) -> Sequence
        ensures { result ≡ hmac_sequence alg key.now }
    {
        Sequence::Hmac {
            state: HmacState::new(alg, key),
        }
    }

    /// Appends the bytes to the data.
    pub fn update(&mut self, bytes: &[u8])
        ensures { self.new ≡ sequence_updated self.old bytes.now }
    {
        match self {
            Sequence::Hash { state, beginning } => {
                state.absorb(bytes);
                *beginning = beginning.after(bytes);
            }
            Sequence::Event { sha1, sha256 } => {
                sha1.absorb(bytes);
                sha256.absorb(bytes);
            }
            Sequence::Hmac { state } => state.absorb(bytes),
        }
    }
}

//! Computes HMACs. If the key and the algorithm are the same as for the previous HMAC, the key is
//! not masked and hashed again.

ghost use Rattle.std.specs.Prelude.{◌≡◌, length};
ghost use Rattle.tpm_mac.specs.Digest.{digest_size, joined_text};
ghost use Rattle.tpm_mac.specs.Hmac.{hmac_of};

use crate::algorithm::HashAlg;
use crate::digests::Digest;
use crate::mac::Mac;
use arrayvec::ArrayVec;
use std::marker::Model;

/// An HMAC that was fed only its key, together with this key. The next HMAC with the same key
/// starts from a copy of this HMAC, which saves hashing both blocks of the key. The contracts do
/// not mention the stored key, because it does not change the result of any HMAC.
#[derive(Drop)]
pub struct KeyedMac {
    alg: HashAlg,
    key: ArrayVec<u8, 64>,
    mac: Mac,
}

impl Model for KeyedMac {
    ghost use Rattle.std.specs.Prelude.{[]};
    ghost use Rattle.tpm_mac.specs.Mac.{MacHolds};

    ghost Value = { Unit {0} };

    ghost view = { λ keyed. tt };

    ghost invariant = { λ keyed. MacHolds keyed.mac keyed.alg keyed.key.items [] };
}

impl KeyedMac {
    /// An HMAC with SHA-256 and the empty key.
    pub fn new() -> KeyedMac {
        KeyedMac {
            alg: HashAlg::Sha256,
            key: ArrayVec::new(),
            mac: Mac::new(HashAlg::Sha256, &[]),
        }
    }

    /// The HMAC of the concatenated parts, equal to the result of
    /// [`hmac_parts`](crate::hmac_parts). Stores the key for the next call.
    pub fn hmac_parts(&mut self, alg: HashAlg, key: ArrayVec<u8, 64>, parts: &[&[u8]]) -> Digest
        ensures value { result.items ≡ hmac_of alg key.items (joined_text parts.now) }
        ensures size { length result.items ≡ digest_size alg }
    {
        if self.alg != alg || self.key.as_slice() != key.as_slice() {
            self.mac = Mac::new(alg, key.as_slice());
            self.alg = alg;
            self.key = key;
        }
        let mut mac = self.mac.copy();
        mac.take_parts(parts);
        mac.finish()
    }
}

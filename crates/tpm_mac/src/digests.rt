//! Computes the digest of a message that is passed in parts.

ghost use Rattle.std.specs.Prelude.{◌≡◌, length};
ghost use Rattle.tpm_mac.specs.Digest.{digest_size, hash_of, joined_text};

use crate::algorithm::HashAlg;
use crate::hasher::Hasher;
use arrayvec::ArrayVec;

/// A digest of either algorithm. Its length is the algorithm's `size`.
pub type Digest = ArrayVec<u8, 32>;

/// The digest of the concatenated parts, which are not copied.
pub fn digest_parts(alg: HashAlg, parts: &[&[u8]]) -> Digest
    ensures value { result.items ≡ hash_of alg (joined_text parts.now) }
    ensures size { length result.items ≡ digest_size alg }
{
    let mut hasher = Hasher::new(alg);
    for part in parts {
        hasher.update(part);
    }
    hasher.finish()
}

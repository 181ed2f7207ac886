//! Short byte strings that a test stores.

use tpm_mac::Digest;

/// Stores at most 32 bytes; of more bytes it stores none.
pub fn digest_of(bytes: &[u8]) -> Digest {
    let mut digest = Digest::new();
    let _ = digest.try_extend_from_slice(bytes);
    digest
}

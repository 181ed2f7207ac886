//! The padding of a message, and the bytes of a digest.

ghost use Rattle.std.specs.Prelude.{◌≡◌, ◌%◌, ◌-◌, ◌<◌, ◌≤◌, ◌∷◌, length, replicate};
ghost use Rattle.sha2.specs.Sha256.{digest_bytes};

use arrayvec::ArrayVec;
use tpm_mac::Digest;

/// The longest possible padding before the length field: 0x80, then zeros.
static PADDING: [u8; 64] = [
    0x80, 0, 0, 0, 0, 0, 0, 0, 0, 0, 0, 0, 0, 0, 0, 0, 0, 0, 0, 0, 0, 0, 0, 0, 0, 0, 0, 0, 0, 0, 0,
    0, 0, 0, 0, 0, 0, 0, 0, 0, 0, 0, 0, 0, 0, 0, 0, 0, 0, 0, 0, 0, 0, 0, 0, 0, 0, 0, 0, 0, 0, 0, 0,
    0,
];

/// The padding of a message up to its length field (FIPS 180-4, 5.1.1). `used` bytes follow the
/// last whole block of the message.
pub(crate) fn padding_start(used: usize) -> &'static [u8]
    requires { used < 64 }
    ensures { result.now ≡ 0x80 ∷ replicate ((119 - used) % 64) 0 }
{
    &PADDING[..(119 - used) % 64 + 1]
}

/// The words of a hash value, each with its high byte first.
pub(crate) fn words_text(words: &[u32]) -> Digest
    requires { length words.now ≤ 8 }
    ensures { result.items ≡ digest_bytes words.now (length words.now) }
{
    let mut digest = ArrayVec::new();
    for word in words {
        // Eight words fit in 32 bytes.
        let _ = digest.try_extend_from_slice(&word.to_be_bytes());
    }
    digest
}

//! Nonces of at most 32 bytes (TPM2B_NONCE; TPM 2.0 Library, Part 2, section 10.4.4).

ghost use Rattle.std.specs.Prelude.{◌≡◌, ◌≤◌, length};
ghost use Rattle.tpm_policy.specs.Size.{resized};

use arrayvec::ArrayVec;
use std::marker::Model;
use tpm_bytes::copied;
use tpm_policy::resized;

/// A nonce: at most 32 bytes (TPM2B_NONCE of TPM 2.0 Library, Part 2, section 10.4.4). Contracts
/// treat it as a list of bytes.
#[derive(Drop)]
pub struct Nonce {
    bytes: ArrayVec<u8, 32>,
}

impl Model for Nonce {
    ghost use Rattle.std.specs.Prelude.{ℕ, List};

    ghost Value = { List ℕ };

    ghost view = { λ n. n.bytes.items };
}

impl Nonce {
    /// The nonce with these bytes.
    pub fn of(bytes: &[u8]) -> Nonce
        requires { length bytes.now ≤ 32 }
        ensures { result ≡ bytes.now }
    {
        Nonce {
            bytes: copied(bytes),
        }
    }

    /// The bytes of the nonce.
    pub fn as_slice(&self) -> &[u8]
        ensures value { result.now ≡ self.now }
        ensures fits { length result.now ≤ 32 }
    {
        self.bytes.as_slice()
    }

    /// The nonce with this size: its first bytes, or all of them followed by zeros.
    #[inline(always)]
    pub fn resized(self, size: usize) -> Nonce
        requires { size ≤ 32 }
        ensures value { result ≡ resized size self }
        ensures length { length result ≡ size }
        ensures same { length self ≡ size → result ≡ self }
    {
        Nonce {
            bytes: resized(self.bytes, size),
        }
    }

    /// The size of the nonce.
    pub fn len(&self) -> usize
        ensures value { result ≡ length self.now }
        ensures fits { result ≤ 32 }
    {
        self.bytes.len()
    }
}

//! The form in which a sequence object stores its authorization value.

ghost use Rattle.std.specs.Prelude.{◌≡◌, ◌++◌, ◌-◌, ◌≤◌, length, replicate};
ghost use Rattle.tpm_sequence.specs.Authorization.{padded};

use tpm_types_common::trimmed;

/// The authorization value without trailing zeros, followed by zeros up to 32 bytes.
#[tactic(auto, unfolding(crate::specs::Authorization::padded))]
pub fn padded(bytes: &[u8]) -> [u8; 32]
    requires { length bytes.now ≤ 32 }
    ensures { result ≡ padded bytes.now }
{
    followed_by_zeros(trimmed(bytes))
}

/// The bytes, followed by zeros up to 32 bytes.
pub(crate) fn followed_by_zeros(bytes: &[u8]) -> [u8; 32]
    requires { length bytes.now ≤ 32 }
    ensures { result ≡ bytes.now ++ replicate (32 - length bytes.now) 0 }
{
    let mut value = [0; 32];
    value[..bytes.len()].copy_from_slice(bytes);
    value
}

//! Authorization values: at most 32 bytes, without trailing zeros (TPM2B_AUTH; TPM 2.0 Library,
//! Part 1, section 19.6.4.3).

ghost use Rattle.std.specs.Prelude.{◌≡◌, ◌≤◌, [], length};
ghost use Rattle.std.specs.Str.{bytes_eq};
ghost use Rattle.tpm_bytes.specs.Reading.{Reads};
ghost use Rattle.tpm_types_common.specs.AuthValue.{auth_value_at, trimmed};

use crate::buffer::read_buffer;
use crate::rc::Rc;
use arrayvec::ArrayVec;
use std::marker::Model;
use tpm_bytes::{Cursor, copied};

/// An authorization value: at most 32 bytes, without trailing zeros (TPM2B_AUTH, Part 2, section
/// 10.4.5, and Part 1, section 19.6.4.3). Contracts represent it by its bytes.
#[derive(Drop)]
pub struct AuthValue {
    bytes: ArrayVec<u8, 32>,
}

impl Model for AuthValue {
    ghost use Rattle.std.specs.Prelude.{◌≡◌, ℕ, List};
    ghost use Rattle.tpm_types_common.specs.AuthValue.{trimmed};

    ghost Value = { List ℕ };

    ghost view = { λ a. a.bytes.items };

    ghost invariant = { λ a. trimmed a.bytes.items ≡ a.bytes.items };
}

/// Returns the bytes without trailing zeros.
pub fn trimmed(bytes: &[u8]) -> &[u8]
    ensures value { result.now ≡ trimmed bytes.now }
    ensures within { length result.now ≤ length bytes.now }
{
    let mut size = bytes.len();
    while size > 0 && bytes[size - 1] == 0 {
        size -= 1;
    }
    &bytes[..size]
}

impl AuthValue {
    /// The empty authorization value.
    #[tactic(auto, unfolding(crate::specs::AuthValue::trimmed))]
    pub fn empty() -> AuthValue
        ensures { result ≡ [] }
    {
        AuthValue {
            bytes: ArrayVec::new(),
        }
    }

    /// The authorization value made of these bytes, with trailing zeros removed.
    pub fn of(bytes: &[u8]) -> AuthValue
        requires { length bytes.now ≤ 32 }
        ensures { result ≡ trimmed bytes.now }
    {
        AuthValue {
            bytes: copied(trimmed(bytes)),
        }
    }

    /// Reads an authorization value from a sized buffer. Fails with SIZE if its size is over 32
    /// bytes, or else with INSUFFICIENT if it is truncated.
    #[tactic(auto, unfolding(crate::specs::AuthValue::auth_value_at))]
    pub fn read(text: &mut Cursor) -> Result<AuthValue, Rc>
        ensures { Reads (λ value. value) (auth_value_at text.old) text.old result text.new }
    {
        Ok(AuthValue::of(read_buffer(text, 32)?))
    }

    /// The bytes of the value.
    pub fn as_slice(&self) -> &[u8]
        ensures value { result.now ≡ self.now }
        ensures fits { length result.now ≤ 32 }
        ensures trimmed { trimmed result.now ≡ result.now }
    {
        self.bytes.as_slice()
    }

    /// A copy of the value.
    pub fn copy(&self) -> AuthValue
        ensures { result ≡ self.now }
    {
        AuthValue {
            bytes: copied(self.bytes.as_slice()),
        }
    }

    /// Whether the value consists of exactly these bytes.
    pub fn is_same(&self, bytes: &[u8]) -> bool
        ensures { result ≡ bytes_eq self.now bytes.now }
    {
        self.bytes.as_slice() == bytes
    }
}

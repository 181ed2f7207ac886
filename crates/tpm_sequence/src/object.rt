//! A sequence object.

ghost use Rattle.std.specs.Prelude.{◌≡◌, ◌≤◌, length};
ghost use Rattle.tpm_sequence.specs.Authorization.{is_authorized};
ghost use Rattle.tpm_sequence.specs.Sequence.{object_of, object_updated};

use crate::authorization::{followed_by_zeros, padded};
use crate::sequence::Sequence;
use tpm_bytes::is_equal;
use tpm_types_common::trimmed;

/// A sequence object, which consists of an authorization value and a sequence.
#[derive(Clone, Copy, PartialEq, Eq)]
pub struct SequenceObject {
    /// The authorization value without trailing zeros, followed by zeros up to 32 bytes. Therefore
    /// each authorization value has only one form.
    pub auth: [u8; 32],
    pub sequence: Sequence,
}

impl SequenceObject {
    /// The object with this authorization value and this sequence.
    pub fn new(auth: &[u8], sequence: Sequence) -> SequenceObject
        requires { length auth.now ≤ 32 }
        ensures { result ≡ object_of auth.now sequence }
    {
        let auth = padded(auth);
        SequenceObject { auth, sequence }
    }

    /// Appends the bytes to the data of the sequence.
    pub fn update(&mut self, bytes: &[u8])
        ensures { self.new ≡ object_updated self.old bytes.now }
    {
        self.sequence.update(bytes);
    }

    /// Whether the password is the authorization value, ignoring trailing zeros.
    #[tactic(auto, unfolding(crate::specs::Authorization::padded))]
    pub fn is_authorized(&self, password: &[u8]) -> bool
        ensures { result ≡ is_authorized self.now password.now }
    {
        let password = trimmed(password);
        password.len() <= 32 && is_equal(&followed_by_zeros(password), &self.auth)
    }
}

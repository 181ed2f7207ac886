//! The key of a session, derived from the bound entity's authorization value and the first two
//! nonces (TPM 2.0 Library, Part 1, section 19.6.8).

ghost use Rattle.std.specs.Prelude.{◌≡◌, ◌≤◌, ◌++◌, [], length};
ghost use Rattle.tpm_mac.specs.Digest.{digest_size};
ghost use Rattle.tpm_mac.specs.Kdf.{kdfa_of};
ghost use Rattle.tpm_session.specs.Key.{is_nonce_size, key_label, key_size, session_key};

use crate::session::Binding;
use arrayvec::ArrayVec;
use std::marker::Model;
use tpm_bytes::copied;
use tpm_mac::{HashAlg, kdfa};

/// The KDFa label for session keys.
const KEY_LABEL: &[u8] = b"ATH";

/// The key of a session, at most 32 bytes. Contracts treat it as a list of bytes.
#[derive(Drop)]
pub struct SessionKey {
    bytes: ArrayVec<u8, 32>,
}

impl Model for SessionKey {
    ghost use Rattle.std.specs.Prelude.{ℕ, List};

    ghost Value = { List ℕ };

    ghost view = { λ k. k.bytes.items };
}

/// Whether a caller's first nonce has an allowed size: at least 16 bytes, and at most as long as
/// a digest (TPM 2.0 Library, Part 3, section 11.1).
pub fn is_nonce_size(hash: HashAlg, size: usize) -> bool
    ensures { result ≡ is_nonce_size hash size }
{
    16 <= size && size <= hash.size()
}

/// The size of a session's key: the size of a digest if the session is bound, otherwise 0.
pub(crate) fn key_size(hash: HashAlg, binding: &Option<Binding>) -> usize
    ensures { result ≡ key_size hash binding.now }
{
    match binding {
        None => 0,
        Some(_) => hash.size(),
    }
}

impl SessionKey {
    /// The empty key.
    pub fn empty() -> SessionKey
        ensures { result ≡ [] }
    {
        SessionKey {
            bytes: ArrayVec::new(),
        }
    }

    /// The key of a session that starts with these nonces (Part 1, section 19.6.8). The key is
    /// empty if the session is not bound.
    #[tactic(auto, unfolding(crate::specs::Key::session_key))]
    pub fn derived(
        hash: HashAlg,
        binding: &Option<Binding>,
        nonce_tpm: &[u8],
        nonce_caller: &[u8],
    ) -> SessionKey
        ensures { result ≡ session_key hash binding.now nonce_tpm.now nonce_caller.now }
    {
        match binding {
            None => SessionKey::empty(),
            Some(binding) => {
                let auth_value = binding.auth_value.as_slice();
                SessionKey::bound(hash, auth_value, nonce_tpm, nonce_caller)
            }
        }
    }

    /// The key with these bytes.
    pub fn of(bytes: &[u8]) -> SessionKey
        requires { length bytes.now ≤ 32 }
        ensures { result ≡ bytes.now }
    {
        SessionKey {
            bytes: copied(bytes),
        }
    }

    fn bound(hash: HashAlg, auth_value: &[u8], nonce_tpm: &[u8], nonce_caller: &[u8]) -> SessionKey
        ensures { result ≡ kdfa_of hash auth_value.now key_label nonce_tpm.now nonce_caller.now
            (digest_size hash) }
    {
        let mut key = [0; 32];
        let out = &mut key[..hash.size()];
        kdfa(hash, auth_value, KEY_LABEL, nonce_tpm, nonce_caller, out);
        SessionKey::of(&key[..hash.size()])
    }

    /// The bytes of the key.
    pub fn as_slice(&self) -> &[u8]
        ensures value { result.now ≡ self.now }
        ensures fits { length result.now ≤ 32 }
    {
        self.bytes.as_slice()
    }
}

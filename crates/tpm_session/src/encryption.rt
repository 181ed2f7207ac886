//! How a session encrypts or decrypts the first parameter in place (TPM 2.0 Library, Part 1,
//! sections 21.2 and 21.3).

ghost use Rattle.std.specs.Prelude.{◌≡◌, ◌≤◌, ◌↔◌, false, IsOk, OnErr, length};
ghost use Rattle.tpm_types_common.specs.Limits.{buffer_limit};
ghost use Rattle.tpm_types_common.specs.Symmetric.{is_null};
ghost use Rattle.tpm_session.specs.Encryption.{cipher_bytes, cipher_iv, cipher_key, cipher_label};
ghost use Rattle.tpm_session.specs.Encryption.{encrypted_parameter, mask_bytes, masked_parameter, plain_parameter};

use crate::session::Session;
use tpm_aes::{Aes128, xor_with};
use tpm_mac::kdfa;
use tpm_types_common::{BUFFER_LIMIT, SymmetricDefinition};

/// The error for a session without a symmetric algorithm.
#[derive(Clone, Copy, PartialEq, Eq)]
pub struct SymmetricFault;

/// The KDFa label for parameter encryption keys.
const CIPHER_LABEL: &[u8] = b"CFB";

/// The KDFa label for parameter masks.
const MASK_LABEL: &[u8] = b"XOR";

/// A cipher and its IV.
#[derive(Drop)]
struct ParameterCipher {
    cipher: Aes128,
    iv: [u8; 16],
}

/// Builds a cipher from 32 bytes: the first 16 bytes are the key, and the other 16 bytes are the
/// IV.
fn cipher_from(bytes: &[u8; 32]) -> ParameterCipher
    ensures key { result.cipher ≡ cipher_key bytes.now }
    ensures iv { result.iv ≡ cipher_iv bytes.now }
{
    let (front, back) = bytes.split_at(16);
    let (mut key, mut iv) = ([0; 16], [0; 16]);
    key.copy_from_slice(front);
    iv.copy_from_slice(back);
    ParameterCipher {
        cipher: Aes128::new(&key),
        iv,
    }
}

impl Session {
    /// The cipher for a parameter. Its key and IV are derived from the session's key, the
    /// authorization value and two nonces.
    #[tactic(auto, unfolding(crate::specs::Encryption::cipher_bytes))]
    fn parameter_cipher(&self, auth_value: &[u8], newer: &[u8], older: &[u8]) -> ParameterCipher
        requires { length auth_value.now ≤ 32 }
        ensures key { result.cipher
            ≡ cipher_key (cipher_bytes self.now auth_value.now newer.now older.now) }
        ensures iv { result.iv
            ≡ cipher_iv (cipher_bytes self.now auth_value.now newer.now older.now) }
    {
        let key = self.entry_key(auth_value);
        let mut bytes = [0; 32];
        kdfa(
            self.hash,
            key.as_slice(),
            CIPHER_LABEL,
            newer,
            older,
            &mut bytes,
        );
        cipher_from(&bytes)
    }

    /// Masks or unmasks a parameter. The mask is derived from the session's key, the authorization
    /// value and two nonces.
    #[tactic(auto, unfolding(crate::specs::Encryption::mask_bytes))]
    fn mask(&self, auth_value: &[u8], newer: &[u8], older: &[u8], bytes: &mut [u8])
        requires auth_value { length auth_value.now ≤ 32 }
        requires size { length bytes.old ≤ buffer_limit }
        ensures value { bytes.new
            ≡ masked_parameter self.now auth_value.now newer.now older.now bytes.old }
        // The mask is as long as the parameter.
        ensures whole { length
            (mask_bytes self.now auth_value.now newer.now older.now (length bytes.old))
            ≡ length bytes.old }
    {
        let key = self.entry_key(auth_value);
        let mut room = [0; BUFFER_LIMIT];
        let mask = &mut room[..bytes.len()];
        kdfa(self.hash, key.as_slice(), MASK_LABEL, newer, older, mask);
        xor_with(bytes, mask);
    }

    /// Decrypts a parameter in place. If the session has no symmetric algorithm, returns an error
    /// and leaves the parameter unchanged. `auth_value` is the authorization value of the entity
    /// that the session authorizes, or empty if there is no such entity (TPM 2.0 Library, Part 1,
    /// sections 21.2 and 21.3).
    #[tactic(auto, unfolding(crate::specs::Encryption::plain_parameter))]
    pub fn open_parameter(
        &self,
        auth_value: &[u8],
        newer: &[u8],
        older: &[u8],
        bytes: &mut [u8],
    ) -> Result<(), SymmetricFault>
        requires value { length auth_value.now ≤ 32 }
        requires size { length bytes.old ≤ buffer_limit }
        ensures served { IsOk result ↔ (is_null self.now.symmetric ≡ false) }
        ensures value { bytes.new
            ≡ plain_parameter self.now auth_value.now newer.now older.now bytes.old }
        ensures refused { OnErr result (bytes.new ≡ bytes.old) }
    {
        match self.symmetric {
            SymmetricDefinition::Null => Err(SymmetricFault),
            SymmetricDefinition::Aes128Cfb => {
                let by = self.parameter_cipher(auth_value, newer, older);
                by.cipher.cfb_decrypt(&by.iv, bytes);
                Ok(())
            }
            SymmetricDefinition::Xor(_) => {
                self.mask(auth_value, newer, older, bytes);
                Ok(())
            }
        }
    }

    /// Encrypts a parameter in place. If the session has no symmetric algorithm, returns an error
    /// and leaves the parameter unchanged.
    #[tactic(auto, unfolding(crate::specs::Encryption::encrypted_parameter, crate::specs::Encryption::plain_parameter), using(crate::proofs::Masks::unmasked))]
    pub fn close_parameter(
        &self,
        auth_value: &[u8],
        newer: &[u8],
        older: &[u8],
        bytes: &mut [u8],
    ) -> Result<(), SymmetricFault>
        requires value { length auth_value.now ≤ 32 }
        requires size { length bytes.old ≤ buffer_limit }
        ensures served { IsOk result ↔ (is_null self.now.symmetric ≡ false) }
        ensures value { bytes.new
            ≡ encrypted_parameter self.now auth_value.now newer.now older.now bytes.old }
        ensures refused { OnErr result (bytes.new ≡ bytes.old) }
        // Decrypting the result restores the parameter.
        ensures undone { plain_parameter self.now auth_value.now newer.now older.now bytes.new
            ≡ bytes.old }
    {
        match self.symmetric {
            SymmetricDefinition::Null => Err(SymmetricFault),
            SymmetricDefinition::Aes128Cfb => {
                let by = self.parameter_cipher(auth_value, newer, older);
                by.cipher.cfb_encrypt(&by.iv, bytes);
                Ok(())
            }
            SymmetricDefinition::Xor(_) => {
                self.mask(auth_value, newer, older, bytes);
                Ok(())
            }
        }
    }
}

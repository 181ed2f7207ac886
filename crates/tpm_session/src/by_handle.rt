//! What a session computes, for a caller who knows its handle: the data and the HMACs of
//! authorization entries, and the encryption of parameters (TPM 2.0 Library, Part 1, sections
//! 19.6.5 and 21). Each call returns None if no session has the handle.

ghost use Rattle.std.specs.Prelude.{◌≡◌, length, option_map};
ghost use Rattle.tpm_session.specs.ByHandle.{parameter_bytes, parameter_result};
ghost use Rattle.tpm_session.specs.Encryption.{encrypted_parameter, plain_parameter};
ghost use Rattle.tpm_session.specs.EntryText.{command_mac_of, command_text, parts_of, response_mac_of, response_text};
ghost use Rattle.tpm_session.specs.Sessions.{places_of, session_at};

use crate::encryption::SymmetricFault;
use crate::entry::{CommandText, EntryText};
use crate::session::Session;
use crate::sessions::Sessions;
use tpm_containers::Slots;
use tpm_mac::{Digest, KeyedMac};
use tpm_types_common::{AuthValue, BUFFER_LIMIT, Handle, SESSION_LIMIT, SessionAttributes};

/// The reason why a parameter was not encrypted or decrypted.
#[derive(Clone, Copy, PartialEq, Eq)]
pub enum ParameterFault {
    /// The parameter is longer than a command can be.
    Size,
    /// The session has no symmetric algorithm.
    Symmetric,
}

impl<S: Slots<Session, SESSION_LIMIT>> Sessions<S> {
    /// The data that the HMAC of a command's entry covers, if the entry names this session.
    pub fn entry_text<'a>(&'a self, handle: Handle, text: &CommandText<'a>) -> Option<EntryText<'a>>
        ensures { result ≡ option_map (λ session. command_text session (parts_of text.now))
            (session_at (places_of S.places self.now) handle) }
    {
        match self.get(handle) {
            Some(session) => Some(session.command_text(text)),
            None => None,
        }
    }

    /// The data that the HMAC of a response's entry covers, if the entry is for this session.
    /// `hash` is rpHash.
    pub fn response_text<'a>(
        &'a self,
        handle: Handle,
        hash: &'a [u8],
        nonce_caller: &'a [u8],
        attributes: SessionAttributes,
    ) -> Option<EntryText<'a>>
        ensures { result
            ≡ option_map (λ session. response_text session hash.now nonce_caller.now attributes)
            (session_at (places_of S.places self.now) handle) }
    {
        match self.get(handle) {
            Some(session) => Some(session.response_text(hash, nonce_caller, attributes)),
            None => None,
        }
    }

    /// The HMAC of a command's entry for this session. `value` is the authorization value that the
    /// HMAC's key includes.
    pub fn command_mac(
        &self,
        handle: Handle,
        value: &AuthValue,
        text: &CommandText,
    ) -> Option<Digest>
        ensures { option_map (λ mac. mac.items) result
            ≡ option_map (λ session. command_mac_of session value.now (parts_of text.now))
            (session_at (places_of S.places self.now) handle) }
    {
        match self.get(handle) {
            Some(session) => {
                Some(session.command_mac(value.as_slice(), text, &mut KeyedMac::new()))
            }
            None => None,
        }
    }

    /// The HMAC of a response's entry for this session. `hash` is rpHash.
    pub fn response_mac(
        &self,
        handle: Handle,
        value: &AuthValue,
        hash: &[u8],
        nonce_caller: &[u8],
        attributes: SessionAttributes,
    ) -> Option<Digest>
        ensures { option_map (λ mac. mac.items) result
            ≡ option_map
            (λ session. response_mac_of session value.now hash.now nonce_caller.now attributes)
            (session_at (places_of S.places self.now) handle) }
    {
        match self.get(handle) {
            Some(session) => Some(session.response_mac(
                value.as_slice(),
                hash,
                nonce_caller,
                attributes,
                &mut KeyedMac::new(),
            )),
            None => None,
        }
    }

    /// Decrypts a parameter in place. On failure, the parameter is unchanged. `value` is the
    /// authorization value of the entity that the session authorizes, or empty if there is none.
    /// `newer` and `older` are the nonces of the caller and of the device: in a command, the
    /// caller's nonce is the newer one.
    pub fn open_parameter(
        &self,
        handle: Handle,
        value: &AuthValue,
        newer: &[u8],
        older: &[u8],
        bytes: &mut [u8],
    ) -> Option<Result<(), ParameterFault>>
        ensures done { result
            ≡ parameter_result (session_at (places_of S.places self.now) handle)
            (length bytes.old) }
        ensures value { bytes.new
            ≡ parameter_bytes (session_at (places_of S.places self.now) handle)
            (λ session. plain_parameter session value.now newer.now older.now bytes.old)
            (length bytes.old) bytes.old }
    {
        let session = self.get(handle)?;
        if bytes.len() > BUFFER_LIMIT {
            return Some(Err(ParameterFault::Size));
        }
        match session.open_parameter(value.as_slice(), newer, older, bytes) {
            Ok(()) => Some(Ok(())),
            Err(SymmetricFault) => Some(Err(ParameterFault::Symmetric)),
        }
    }

    /// Encrypts a parameter in place, with the same values as [`Sessions::open_parameter`]. On
    /// failure, the parameter is unchanged. Decrypting the result restores the parameter.
    pub fn close_parameter(
        &self,
        handle: Handle,
        value: &AuthValue,
        newer: &[u8],
        older: &[u8],
        bytes: &mut [u8],
    ) -> Option<Result<(), ParameterFault>>
        ensures done { result
            ≡ parameter_result (session_at (places_of S.places self.now) handle)
            (length bytes.old) }
        ensures value { bytes.new
            ≡ parameter_bytes (session_at (places_of S.places self.now) handle)
            (λ session. encrypted_parameter session value.now newer.now older.now bytes.old)
            (length bytes.old) bytes.old }
        ensures undone { parameter_bytes (session_at (places_of S.places self.now) handle)
            (λ session. plain_parameter session value.now newer.now older.now bytes.new)
            (length bytes.old) bytes.new ≡ bytes.old }
    {
        let session = self.get(handle)?;
        if bytes.len() > BUFFER_LIMIT {
            return Some(Err(ParameterFault::Size));
        }
        match session.close_parameter(value.as_slice(), newer, older, bytes) {
            Ok(()) => Some(Ok(())),
            Err(SymmetricFault) => Some(Err(ParameterFault::Symmetric)),
        }
    }
}

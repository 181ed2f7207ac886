//! The HMAC with which a session authenticates a command or a response, and the data that this HMAC
//! covers (TPM 2.0 Library, Part 1, section 19.6.5).

ghost use Rattle.std.specs.Prelude.{◌≡◌, ◌+◌, ◌≤◌, ◌++◌, IsTrue, ◌↔◌, length};
ghost use Rattle.tpm_bytes.specs.Writing.{Puts};
ghost use Rattle.tpm_mac.specs.Digest.{digest_size};
ghost use Rattle.tpm_mac.specs.Hmac.{hmac_of};
ghost use Rattle.tpm_session.specs.EntryText.{entry_text};

use crate::session::Session;
use arrayvec::ArrayVec;
use std::marker::Model;
use tpm_bytes::{Full, Sink, append};
use tpm_mac::{Digest, HashAlg, KeyedMac};
use tpm_types_common::SessionAttributes;

/// The data that the HMAC of a command's authorization entry covers, except the nonceTPM of the
/// entry's session (TPM 2.0 Library, Part 1, section 19.6.5).
#[derive(Clone, Copy)]
pub struct CommandText<'a> {
    /// The cpHash of the command.
    pub hash: &'a [u8],
    pub nonce_caller: &'a [u8],
    /// The nonceTPM of a separate decrypt session, if this entry authenticates it; otherwise
    /// empty.
    pub decrypt_nonce: &'a [u8],
    /// The nonceTPM of a separate encrypt session, if this entry authenticates it; otherwise
    /// empty.
    pub encrypt_nonce: &'a [u8],
    pub attributes: SessionAttributes,
}

/// The data that an authorization entry's HMAC covers, as separate slices (TPM 2.0 Library, Part 1,
/// section 19.6.5). Contracts treat it as one list of bytes.
#[derive(Drop)]
pub struct EntryText<'a> {
    hash: &'a [u8],
    newer: &'a [u8],
    older: &'a [u8],
    decrypt: &'a [u8],
    encrypt: &'a [u8],
    attributes: SessionAttributes,
}

impl<'a> Model for EntryText<'a> {
    ghost use Rattle.std.specs.Prelude.{ℕ, List};
    ghost use Rattle.tpm_session.specs.EntryText.{entry_text};

    ghost Value = { List ℕ };

    ghost view = { λ t.
        entry_text t.hash.now t.newer.now t.older.now t.decrypt.now t.encrypt.now t.attributes };
}

/// Combines the data that an authorization entry's HMAC covers, without copying it: cpHash or
/// rpHash; the newer and the older nonce of the entry's session; the nonceTPM of a separate decrypt
/// session, and that of a separate encrypt session, if the entry authenticates these sessions; and
/// the attributes.
pub fn entry_text<'a>(
    hash: &'a [u8],
    newer: &'a [u8],
    older: &'a [u8],
    decrypt: &'a [u8],
    encrypt: &'a [u8],
    attributes: SessionAttributes,
) -> EntryText<'a>
    ensures { result
        ≡ entry_text hash.now newer.now older.now decrypt.now encrypt.now attributes }
{
    EntryText {
        hash,
        newer,
        older,
        decrypt,
        encrypt,
        attributes,
    }
}

/// Appends three slices. The sink must have enough free space for them.
fn append_three<const N: usize>(sink: &mut Sink<N>, first: &[u8], second: &[u8], third: &[u8])
    requires { length sink.old + (length first.now + (length second.now + length third.now)) ≤ N }
    ensures { sink.new ≡ sink.old ++ (first.now ++ (second.now ++ third.now)) }
{
    sink.append(first);
    sink.append(second);
    sink.append(third);
}

impl<'a> EntryText<'a> {
    /// Whether the data fits in a buffer of this size.
    fn fits(&self, room: usize) -> bool
        ensures { IsTrue result ↔ (length self.now ≤ room) }
    {
        let (hash, newer, older) = (self.hash.len(), self.newer.len(), self.older.len());
        let (decrypt, encrypt) = (self.decrypt.len(), self.encrypt.len());
        let parts = hash as u128 + newer as u128 + older as u128 + decrypt as u128;
        parts + encrypt as u128 + 1 <= room as u128
    }

    /// Appends the data. If it does not fit, writes nothing and returns an error.
    pub fn write<const N: usize>(&self, sink: &mut Sink<N>) -> Result<(), Full>
        ensures { Puts N self.now sink.old result sink.new }
    {
        if !self.fits(N - sink.len()) {
            return Err(Full);
        }
        append_three(sink, self.hash, self.newer, self.older);
        append_three(sink, self.decrypt, self.encrypt, &[self.attributes.octet]);
        Ok(())
    }

    /// The HMAC of the data, computed with this key.
    fn mac(&self, alg: HashAlg, key: ArrayVec<u8, 64>, keyed: &mut KeyedMac) -> Digest
        ensures value { result.items ≡ hmac_of alg key.items self.now }
        ensures size { length result.items ≡ digest_size alg }
    {
        let (newer, older) = (self.newer, self.older);
        let (decrypt, encrypt) = (self.decrypt, self.encrypt);
        let attributes = [self.attributes.octet];
        keyed.hmac_parts(
            alg,
            key,
            &[self.hash, newer, older, decrypt, encrypt, &attributes],
        )
    }
}

impl Session {
    ghost use Rattle.tpm_session.specs.EntryText.{command_mac_of, command_text, entry_key, parts_of, response_mac_of, response_text};

    /// The HMAC key of an authorization entry: the session's key, followed by an authorization
    /// value.
    pub fn entry_key(&self, auth_value: &[u8]) -> ArrayVec<u8, 64>
        requires { length auth_value.now ≤ 32 }
        ensures { result.items ≡ entry_key self.now auth_value.now }
    {
        let mut key = ArrayVec::new();
        append(&mut key, self.key.as_slice());
        append(&mut key, auth_value);
        key
    }

    /// The data that the HMAC of a command's entry covers, if the entry names this session.
    pub fn command_text<'a>(&'a self, text: &CommandText<'a>) -> EntryText<'a>
        ensures { result ≡ command_text self.now (parts_of text.now) }
    {
        entry_text(
            text.hash,
            text.nonce_caller,
            self.nonce_tpm.as_slice(),
            text.decrypt_nonce,
            text.encrypt_nonce,
            text.attributes,
        )
    }

    /// The data that the HMAC of a response's entry covers, if the entry is for this session.
    /// `hash` is rpHash.
    pub fn response_text<'a>(
        &'a self,
        hash: &'a [u8],
        nonce_caller: &'a [u8],
        attributes: SessionAttributes,
    ) -> EntryText<'a>
        ensures { result ≡ response_text self.now hash.now nonce_caller.now attributes }
    {
        let newer = self.nonce_tpm.as_slice();
        entry_text(hash, newer, nonce_caller, &[], &[], attributes)
    }

    /// The HMAC of a command's entry for this session.
    #[tactic(auto, unfolding(crate::specs::EntryText::command_mac_of))]
    pub fn command_mac(&self, auth_value: &[u8], text: &CommandText, keyed: &mut KeyedMac) -> Digest
        requires { length auth_value.now ≤ 32 }
        ensures value { result.items ≡ command_mac_of self.now auth_value.now (parts_of text.now) }
        ensures size { length result.items ≡ digest_size self.now.hash }
    {
        let key = self.entry_key(auth_value);
        self.command_text(text).mac(self.hash, key, keyed)
    }

    /// The HMAC of a response's entry for this session. `hash` is rpHash.
    #[tactic(auto, unfolding(crate::specs::EntryText::response_mac_of))]
    pub fn response_mac(
        &self,
        auth_value: &[u8],
        hash: &[u8],
        nonce_caller: &[u8],
        attributes: SessionAttributes,
        keyed: &mut KeyedMac,
    ) -> Digest
        requires { length auth_value.now ≤ 32 }
        ensures value { result.items
            ≡ response_mac_of self.now auth_value.now hash.now nonce_caller.now attributes }
        ensures size { length result.items ≡ digest_size self.now.hash }
    {
        let key = self.entry_key(auth_value);
        let text = self.response_text(hash, nonce_caller, attributes);
        text.mac(self.hash, key, keyed)
    }
}

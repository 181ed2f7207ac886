//! How an HMAC session authorizes a command that only the layer supports. The layer checks the HMAC
//! of the client's entry, and sends the device a command with the same session. The HMAC of that
//! command is right if and only if the client's HMAC is.

ghost use Rattle.std.specs.Prelude.{◌≡◌, ◌≤◌, drop, length, option_copied};
ghost use Rattle.tpm_mac.specs.Digest.{digest_size};
ghost use Rattle.tpm_types_command.specs.AuthEntry.{entry_of};
ghost use Rattle.tpm_completion.specs.SessionEntry.{answer_hmac, covered_hash, covered_mac, covered_of, entry_answered, first_answer, hmac_sent, is_right, nonce_in, sent_hmac, session_text, value_in_key};

use crate::sequence_rows::PASSWORD_ANSWER;
use tpm_auth::{Grant, LatestName, used_auth_value};
use tpm_bytes::{Cursor, Sink, is_equal};
use tpm_mac::{Digest, HashAlg, KeyedMac, digest_parts, hmac_parts};
use tpm_policy::Demand;
use tpm_record::Keep;
use tpm_session::{CommandText, Session, response_hash};
use tpm_types_command::AuthEntry;
use tpm_types_common::{Handle, SessionAttributes};

/// What the HMAC of a command's session covers: the command's code, the Names of its handles
/// joined, and its parameters; and the authorization value in the HMAC's key.
#[derive(Clone, Copy)]
pub struct Covered<'a> {
    pub code: u32,
    pub names: &'a [u8],
    pub parameters: &'a [u8],
    pub value: &'a [u8],
}

/// What the layer needs for the response to an entry that names a session.
#[derive(Drop)]
pub struct EntryAnswer {
    hash: HashAlg,
    key: Sink<64>,
    nonce_caller: Sink<32>,
    attributes: SessionAttributes,
    /// Whether the client's entry has an HMAC.
    has_hmac: bool,
}

impl Covered<'_> {
    /// cpHash.
    #[tactic(auto, unfolding(crate::specs::SessionEntry::covered_hash))]
    fn hash(&self, hash: HashAlg) -> Digest
        ensures { result.items ≡ covered_hash hash (covered_of self.now) }
    {
        let code = self.code.to_be_bytes();
        digest_parts(hash, &[&code, self.names, self.parameters])
    }

    /// The HMAC for an entry that names the session.
    #[tactic(auto, unfolding(crate::specs::SessionEntry::covered_mac))]
    fn mac(&self, session: &Session, entry: &AuthEntry) -> Digest
        requires { length self.now.value.now ≤ 32 }
        ensures { result.items
            ≡ covered_mac session.now (covered_of self.now) (entry_of entry.now) }
    {
        let hash = self.hash(session.hash());
        let text = CommandText {
            hash: hash.as_slice(),
            nonce_caller: entry.nonce,
            decrypt_nonce: &[],
            encrypt_nonce: &[],
            attributes: entry.attributes,
        };
        session.command_mac(self.value, &text, &mut KeyedMac::new())
    }

    /// Whether the HMAC in an entry is right.
    #[tactic(auto, unfolding(crate::specs::SessionEntry::is_right))]
    fn is_right(&self, session: &Session, entry: &AuthEntry) -> bool
        requires { length self.now.value.now ≤ 32 }
        ensures { result ≡ is_right session.now (covered_of self.now) (entry_of entry.now) }
    {
        let is_keyless = session.key().as_slice().is_empty() && self.value.is_empty();
        if is_keyless && entry.hmac.is_empty() {
            return true;
        }
        let mac = self.mac(session, entry);
        is_equal(entry.hmac, mac.as_slice())
    }
}

/// The HMAC in the entry of the command that the layer sends. If the client's HMAC is wrong, it is
/// one byte, which no device accepts.
#[tactic(auto, unfolding(crate::specs::SessionEntry::sent_hmac))]
fn sent_hmac(session: &Session, asked: &Covered, sent: &Covered, entry: &AuthEntry) -> Sink<32>
    requires asked { length asked.now.value.now ≤ 32 }
    requires sent { length sent.now.value.now ≤ 32 }
    ensures { result ≡ sent_hmac session.now (covered_of asked.now) (covered_of sent.now)
        (entry_of entry.now) }
{
    let mut hmac = Sink::new();
    if !asked.is_right(session, entry) {
        hmac.append(&[0]);
    } else if !entry.hmac.is_empty() {
        hmac.append(sent.mac(session, entry).as_slice());
    }
    hmac
}

/// The HMAC or password in the entry of the command that the layer sends. If the client's entry
/// names no existing session, it is the client's own.
pub fn hmac_sent<K: Keep>(keep: &K, asked: &Covered, sent: &Covered, entry: &AuthEntry) -> Sink<32>
    requires asked { length asked.now.value.now ≤ 32 }
    requires sent { length sent.now.value.now ≤ 32 }
    requires hmac { length entry.now.hmac.now ≤ 32 }
    ensures { result ≡ hmac_sent (K.record_of keep.now) (covered_of asked.now)
        (covered_of sent.now) (entry_of entry.now) }
{
    match keep.sessions().get(entry.session) {
        Some(session) => sent_hmac(session, asked, sent, entry),
        None => {
            let mut hmac = Sink::new();
            hmac.append(entry.hmac);
            hmac
        }
    }
}

/// The authorization value that the device puts into the HMAC key of an entry that authorizes a
/// handle. It is empty if the entry names no existing session.
#[tactic(auto, unfolding(crate::specs::SessionEntry::value_in_key))]
pub fn value_in_key<'a, K: Keep>(keep: &'a K, entry: &AuthEntry, handle: Handle) -> &'a [u8]
    ensures value { result.now
        ≡ value_in_key (K.record_of keep.now) (entry_of entry.now) handle }
    ensures fits { length result.now ≤ 32 }
{
    match keep.sessions().get(entry.session) {
        Some(session) => {
            let grant = Grant {
                handle,
                demand: Demand::None,
            };
            used_auth_value(keep, session, Some(grant), &mut LatestName::new())
        }
        None => &[],
    }
}

/// What the layer needs for the response to the entry of a client's command. `None` if the entry
/// names no existing session.
pub fn entry_answered<K: Keep>(keep: &K, asked: &Covered, entry: &AuthEntry) -> Option<EntryAnswer>
    requires value { length asked.now.value.now ≤ 32 }
    requires nonce { length entry.now.nonce.now ≤ 32 }
    ensures { result ≡ entry_answered (K.record_of keep.now) (covered_of asked.now)
        (entry_of entry.now) }
{
    let session = keep.sessions().get(entry.session)?;
    let mut key = Sink::new();
    key.append(session.entry_key(asked.value).as_slice());
    let mut nonce_caller = Sink::new();
    nonce_caller.append(entry.nonce);
    Some(EntryAnswer {
        hash: session.hash(),
        key,
        nonce_caller,
        attributes: entry.attributes,
        has_hmac: !entry.hmac.is_empty(),
    })
}

/// The bytes after the first `size` bytes; none if there are fewer.
fn after(bytes: &[u8], size: usize) -> &[u8]
    ensures { result.now ≡ drop size bytes.now }
{
    &bytes[size.min(bytes.len())..]
}

/// The nonce in the device's response to a command with one session.
#[tactic(auto, unfolding(crate::specs::SessionEntry::nonce_in))]
fn nonce_in(response: &[u8]) -> &[u8]
    ensures value { result.now ≡ nonce_in response.now }
    ensures fits { length result.now ≤ 32 }
{
    let mut body = Cursor::new(after(response, 10));
    let Ok(size) = body.u32() else {
        return &[];
    };
    let mut area = Cursor::new(after(body.rest(), size as usize));
    match area.sized(32) {
        Ok(nonce) => nonce,
        Err(_) => &[],
    }
}

impl EntryAnswer {
    /// The HMAC in the response to the entry. The client's command has this code, its answer these
    /// parameters, and the session this new nonce.
    #[tactic(auto, unfolding(crate::specs::SessionEntry::answer_hmac))]
    fn hmac(&self, code: u32, parameters: &[u8], nonce: &[u8]) -> Sink<32>
        ensures { result ≡ answer_hmac self.now code parameters.now nonce.now }
    {
        let mut hmac = Sink::new();
        if self.has_hmac {
            let hash = response_hash(self.hash, code, parameters);
            let (caller, attributes) = (self.nonce_caller.as_slice(), [self.attributes.octet]);
            let parts = [hash.as_slice(), nonce, caller, &[], &[], &attributes];
            hmac.append(hmac_parts(self.hash, self.key.as_slice(), &parts).as_slice());
        }
        hmac
    }

    /// The response to the entry. `response` is the device's response to the command that the layer
    /// sent.
    #[tactic(auto, unfolding(crate::specs::SessionEntry::session_text))]
    fn text(&self, code: u32, parameters: &[u8], response: &[u8]) -> Sink<80>
        ensures value { result ≡ session_text self.now code parameters.now response.now }
        ensures small { length result ≤ 69 }
    {
        let nonce = nonce_in(response);
        let hmac = self.hmac(code, parameters, nonce);
        let mut text = Sink::new();
        text.append_sized(nonce);
        text.append(&[self.attributes.octet]);
        text.append_sized(hmac.as_slice());
        text
    }
}

/// The response to the first entry of a client's command with this code, whose answer has these
/// parameters. `response` is the device's response to the command that the layer sent.
pub fn first_answer(
    answer: Option<&EntryAnswer>,
    code: u32,
    parameters: &[u8],
    response: &[u8],
) -> Sink<80>
    ensures value { result
        ≡ first_answer (option_copied answer.entry) code parameters.now response.now }
    ensures small { length result ≤ 69 }
{
    match answer {
        Some(answer) => answer.text(code, parameters, response),
        None => {
            let mut text = Sink::new();
            text.append(&PASSWORD_ANSWER);
            text
        }
    }
}

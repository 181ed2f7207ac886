//! TPM2_HMAC_Start, for which the layer sends TPM2_HMAC.

ghost use Rattle.std.specs.Prelude.{◌≡◌, ◌≤◌, IfOk, length};
ghost use Rattle.std.specs.Prelude.{option_and_then, option_map};
ghost use Rattle.tpm_record.specs.Entity.{object_of};
ghost use Rattle.tpm_bytes.specs.Reading.{Gives};
ghost use Rattle.tpm_completion.specs.Sending.{hmac_start_in, hmac_start_sent, key_hash, keyed_sequence, start_of, start_sent, start_work};

use crate::authorizing::{only_entry, read_entries, read_handle};
use crate::codes::{HMAC, HMAC_START};
use crate::completion::Completion;
use crate::sending::{Sent, Work};
use crate::sent_commands::{hmac_command, hmac_parameters, with_hmac};
use crate::sequence_rows::full_refused;
use crate::session_entry::{Covered, entry_answered, hmac_sent, value_in_key};
use tpm_bytes::Cursor;
use tpm_mac::HashAlg;
use tpm_object::Object;
use tpm_record::rows::reading::{end, parameter};
use tpm_record::{Keep, name_of, object_of};
use tpm_sequence::{Sequence, SequenceObject};
use tpm_types_command::AuthEntry;
use tpm_types_common::{Handle, Refused, read_buffer, read_hash_or_null};
use tpm_types_object::{KeyedHashScheme, PublicParameters};

/// The hash of an HMAC sequence with a key, if there is one.
fn key_hash(parameters: PublicParameters, asked: Option<HashAlg>) -> Option<HashAlg>
    ensures { result ≡ key_hash parameters asked }
{
    match parameters {
        PublicParameters::KeyedHash(KeyedHashScheme::Null) => asked,
        PublicParameters::KeyedHash(KeyedHashScheme::Hmac(own)) => Some(own),
        PublicParameters::SymCipher => None,
    }
}

/// The HMAC sequence that starts with the key of an object.
fn keyed_sequence(asked: Option<HashAlg>, object: &Object) -> Option<Sequence>
    ensures { result ≡ keyed_sequence asked object.now }
{
    let hash = key_hash(object.public.parameters, asked)?;
    Some(Sequence::hmac(hash, object.sensitive.as_slice()))
}

/// What TPM2_HMAC_Start asks for: the handle of a key, the entry that authorizes it, the command's
/// parameters, hashAlg, the authorization value of the new sequence object, and a free slot.
#[derive(Clone, Copy)]
pub struct HmacStart<'a> {
    handle: Handle,
    entry: AuthEntry<'a>,
    parameters: &'a [u8],
    hash: Option<HashAlg>,
    auth: &'a [u8],
    slot: u8,
}

/// The work after the device accepted TPM2_HMAC with this key.
fn start_work<K: Keep>(keep: &K, start: &HmacStart) -> Option<Work>
    requires { length start.now.auth.now ≤ 32 }
    ensures { result ≡ option_map (start_work start.now.slot start.now.auth.now)
        (option_and_then (keyed_sequence start.now.hash)
        (object_of (K.record_of keep.now) start.now.handle)) }
{
    let object = object_of(keep, start.handle)?;
    let sequence = keyed_sequence(start.hash, object)?;
    let object = SequenceObject::new(start.auth, sequence);
    Some(Work::Starts(start.slot, object))
}

/// The command that the layer sends for TPM2_HMAC_Start.
fn start_sent<K: Keep>(keep: &K, start: &HmacStart) -> Sent
    requires nonce { length start.now.entry.nonce.now ≤ 32 }
    requires hmac { length start.now.entry.hmac.now ≤ 32 }
    requires auth { length start.now.auth.now ≤ 32 }
    ensures { result ≡ start_sent (K.record_of keep.now) (start_of start.now) }
{
    let (name, carried) = (name_of(keep, start.handle), hmac_parameters(start.hash));
    let asked = Covered {
        code: HMAC_START,
        names: name.as_slice(),
        parameters: start.parameters,
        value: value_in_key(keep, &start.entry, start.handle),
    };
    let covered = Covered {
        code: HMAC,
        parameters: carried.as_slice(),
        ..asked
    };
    let hmac = hmac_sent(keep, &asked, &covered, &start.entry);
    Sent {
        command: hmac_command(
            start.handle,
            &with_hmac(&start.entry, hmac.as_slice()),
            start.hash,
        ),
        code: HMAC_START,
        work: start_work(keep, start),
        answer: entry_answered(keep, &asked, &start.entry),
    }
}

impl Completion {
    /// Parses a TPM2_HMAC_Start.
    #[tactic(auto, unfolding(crate::specs::Sending::hmac_start_in))]
    fn hmac_start_in<'a>(&self, bytes: &'a [u8]) -> Result<HmacStart<'a>, Refused>
        ensures value { Gives start_of (hmac_start_in self.now bytes.now) result }
        ensures small { IfOk result (λ start. (length start.entry.nonce.now ≤ 32)
            × (length start.entry.hmac.now ≤ 32) × (length start.auth.now ≤ 32)) }
    {
        let mut text = Cursor::new(bytes);
        let handle = read_handle(1, &mut text)?;
        let entries = read_entries(&mut text)?;
        let entry = only_entry(entries.as_slice())?;
        let parameters = text.rest();
        let auth = parameter(1, read_buffer(&mut text, 32))?;
        let hash = parameter(2, read_hash_or_null(&mut text))?;
        end(&text)?;
        let Some(slot) = self.free_slot() else {
            return Err(full_refused());
        };
        Ok(HmacStart {
            handle,
            entry,
            parameters,
            hash,
            auth,
            slot,
        })
    }

    /// The command that the layer sends for TPM2_HMAC_Start.
    #[tactic(auto, unfolding(crate::specs::Sending::hmac_start_sent))]
    pub(crate) fn hmac_start_sent<K: Keep>(&self, keep: &K, bytes: &[u8]) -> Result<Sent, Refused>
        ensures { result ≡ hmac_start_sent (K.record_of keep.now) self.now bytes.now }
    {
        let start = self.hmac_start_in(bytes)?;
        Ok(start_sent(keep, &start))
    }
}

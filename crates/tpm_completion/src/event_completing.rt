//! TPM2_EventSequenceComplete, for which the layer sends TPM2_PCR_Extend.

ghost use Rattle.std.specs.Prelude.{◌≡◌, ◌≤◌, IfOk, length};
ghost use Rattle.tpm_bytes.specs.Reading.{Gives};
ghost use Rattle.tpm_completion.specs.Sending.{digests_text, event_complete_in, event_complete_sent, event_of, event_sent};

use crate::authorizing::{
    absent_refused, password_refused, read_entries, read_handle, two_entries,
};
use crate::codes::{EVENT_SEQUENCE_COMPLETE, PCR_EXTEND};
use crate::completion::Completion;
use crate::sending::{Sent, Work};
use crate::sent_commands::{extend_command, with_hmac};
use crate::sequence_rows::mode_refused;
use crate::session_entry::{Covered, entry_answered, hmac_sent, value_in_key};
use tpm_bytes::{Cursor, Sink};
use tpm_record::rows::reading::{end, parameter};
use tpm_record::{Keep, name_of};
use tpm_sequence::Sequence;
use tpm_types_command::AuthEntry;
use tpm_types_common::{DATA_LIMIT, Handle, Refused, ResponseCode, read_buffer};

/// What TPM2_EventSequenceComplete asks for: a PCR or TPM_RH_NULL, the entry that authorizes it,
/// the command's parameters, the slot of the event sequence, and its encoded digests.
#[derive(Drop)]
pub struct EventComplete<'a> {
    pcr: Handle,
    entry: AuthEntry<'a>,
    parameters: &'a [u8],
    slot: u8,
    digests: Sink<80>,
}

/// The encoding of the digests of an event sequence's data.
#[tactic(auto, unfolding(tpm_types_common::specs::DigestValues::digest_values_text, tpm_types_common::specs::DigestValues::values_text, tpm_types_common::specs::DigestValues::digest_value_text))]
fn digests_text(sequence: &Sequence) -> Option<Sink<80>>
    ensures { result ≡ digests_text sequence.now }
{
    let Sequence::Event { sha1, sha256 } = sequence else {
        return None;
    };
    let mut text = Sink::new();
    text.append_u32(2);
    text.append_u16(0x0004);
    text.append(sha1.digest().as_slice());
    text.append_u16(0x000b);
    text.append(sha256.digest().as_slice());
    Some(text)
}

/// The command that the layer sends for TPM2_EventSequenceComplete.
fn event_sent<K: Keep>(keep: &K, event: EventComplete) -> Sent
    requires nonce { length event.entry.nonce.now ≤ 32 }
    requires hmac { length event.entry.hmac.now ≤ 32 }
    ensures { result ≡ event_sent (K.record_of keep.now) (event_of event.entry) }
{
    let name = name_of(keep, event.pcr);
    let asked = Covered {
        code: EVENT_SEQUENCE_COMPLETE,
        names: name.as_slice(),
        parameters: event.parameters,
        value: value_in_key(keep, &event.entry, event.pcr),
    };
    let covered = Covered {
        code: PCR_EXTEND,
        parameters: event.digests.as_slice(),
        ..asked
    };
    let hmac = hmac_sent(keep, &asked, &covered, &event.entry);
    let entry = with_hmac(&event.entry, hmac.as_slice());
    Sent {
        command: extend_command(event.pcr, &entry, event.digests.as_slice()),
        code: EVENT_SEQUENCE_COMPLETE,
        answer: entry_answered(keep, &asked, &event.entry),
        work: Some(Work::Ends(event.slot, event.digests)),
    }
}

impl Completion {
    /// Parses a TPM2_EventSequenceComplete.
    #[tactic(auto, unfolding(crate::specs::Sending::event_complete_in))]
    fn event_complete_in<'a>(&self, bytes: &'a [u8]) -> Result<EventComplete<'a>, Refused>
        ensures value { Gives event_of (event_complete_in self.now bytes.now) result }
        ensures small { IfOk result (λ event. (length event.entry.nonce.now ≤ 32)
            × (length event.entry.hmac.now ≤ 32)) }
    {
        let mut text = Cursor::new(bytes);
        let pcr = read_handle(1, &mut text)?;
        let handle = read_handle(2, &mut text)?;
        let slot = self.sequence_named(2, ResponseCode::ReferenceH1, handle)?;
        let Some(object) = self.in_slot(slot) else {
            return Err(absent_refused(ResponseCode::ReferenceH1));
        };
        let entries = read_entries(&mut text)?;
        let (first, second) = two_entries(entries.as_slice())?;
        if !object.is_authorized(second.hmac) {
            return Err(password_refused(2));
        }
        let parameters = text.rest();
        let data = parameter(1, read_buffer(&mut text, DATA_LIMIT))?;
        end(&text)?;
        let mut object = *object;
        object.update(data);
        let Some(digests) = digests_text(&object.sequence) else {
            return Err(mode_refused(2));
        };
        Ok(EventComplete {
            pcr,
            entry: first,
            parameters,
            slot,
            digests,
        })
    }

    /// The command that the layer sends for TPM2_EventSequenceComplete.
    #[tactic(auto, unfolding(crate::specs::Sending::event_complete_sent))]
    pub(crate) fn event_complete_sent<K: Keep>(
        &self,
        keep: &K,
        bytes: &[u8],
    ) -> Result<Sent, Refused>
        ensures { result ≡ event_complete_sent (K.record_of keep.now) self.now bytes.now }
    {
        let event = self.event_complete_in(bytes)?;
        Ok(event_sent(keep, event))
    }
}

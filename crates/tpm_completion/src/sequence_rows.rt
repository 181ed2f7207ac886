//! The commands on sequence objects that the layer answers by itself: TPM2_HashSequenceStart, and
//! TPM2_SequenceUpdate and TPM2_SequenceComplete with a password. [`sending`](crate::sending) uses
//! the same functions if the commands have a session.

ghost use Rattle.std.specs.Prelude.{◌≡◌, ◌≤◌, IfOk, length};
ghost use Rattle.tpm_bytes.specs.Reading.{Gives};
ghost use Rattle.tpm_completion.specs.SequenceRows.{RepliesBy, complete_row, completed_in, completion_text, full_refused, hash_start_row, mode_refused, named_in, named_of, sequence_in, started_sequence, update_row, updated_in};

use crate::answer::{answer, answer_authorized};
use crate::authorizing::{absent_refused, only_entry, password_refused, read_entries, read_handle};
use crate::codes::SUCCESS;
use crate::completion::Completion;
use crate::hashing::{read_hierarchy, ticketed};
use crate::sequences::sequence_handle;
use crate::testing::Body;
use tpm_bytes::Cursor;
use tpm_mac::HashAlg;
use tpm_record::Hierarchies;
use tpm_record::rows::reading::{end, parameter};
use tpm_record::rows::refusals::action_refusal;
use tpm_sequence::{Sequence, SequenceObject};
use tpm_step::Response;
use tpm_types_command::AuthEntry;
use tpm_types_common::{
    ActionCheck, DATA_LIMIT, HierarchyHandle, Refused, ResponseCode, read_buffer, read_hash_or_null,
};

/// The response to an entry with a password: an empty nonce, continueSession, and an empty HMAC.
pub const PASSWORD_ANSWER: [u8; 5] = [0, 0, 1, 0, 0];

/// The refusal if no slot is free.
pub fn full_refused() -> Refused
    ensures { result ≡ full_refused }
{
    action_refusal(ActionCheck::First, ResponseCode::ObjectMemory.anywhere())
}

/// The refusal if the handle with this number names a sequence object of the wrong kind.
pub fn mode_refused(number: u8) -> Refused
    ensures { result ≡ mode_refused number }
{
    action_refusal(
        ActionCheck::First,
        ResponseCode::Mode.anywhere().at_handle(number),
    )
}

/// The sequence that TPM2_HashSequenceStart starts.
fn started_sequence(hash: Option<HashAlg>) -> Sequence
    ensures { result ≡ started_sequence hash }
{
    match hash {
        Some(hash) => Sequence::hash(hash),
        None => Sequence::event(),
    }
}

/// A sequence object that a command names, the entry that authorizes it, and the command's
/// parameters.
#[derive(Drop)]
pub struct NamedSequence<'a> {
    pub slot: u8,
    pub object: &'a SequenceObject,
    pub entry: AuthEntry<'a>,
    pub parameters: &'a [u8],
}

impl NamedSequence<'_> {
    /// The sequence object after TPM2_SequenceUpdate.
    #[tactic(auto, unfolding(crate::specs::SequenceRows::updated_in))]
    pub fn updated(&self) -> Result<SequenceObject, Refused>
        ensures { result ≡ updated_in (named_of self.now) }
    {
        let mut ahead = Cursor::new(self.parameters);
        let data = parameter(1, read_buffer(&mut ahead, DATA_LIMIT))?;
        end(&ahead)?;
        let mut object = *self.object;
        object.update(data);
        Ok(object)
    }

    /// The answer to TPM2_SequenceComplete.
    #[tactic(auto, unfolding(crate::specs::SequenceRows::completed_in))]
    pub fn completed(&self, hierarchies: &Hierarchies) -> Result<Body, Refused>
        ensures { result ≡ completed_in hierarchies.now (named_of self.now) }
    {
        let mut ahead = Cursor::new(self.parameters);
        let data = parameter(1, read_buffer(&mut ahead, DATA_LIMIT))?;
        let asked = parameter(2, read_hierarchy(&mut ahead))?;
        end(&ahead)?;
        let mut object = *self.object;
        object.update(data);
        match completion_text(hierarchies, asked, &object.sequence) {
            Some(body) => Ok(body),
            None => Err(mode_refused(1)),
        }
    }
}

/// The answer when a sequence completes, unless it is an event sequence.
fn completion_text(
    hierarchies: &Hierarchies,
    asked: HierarchyHandle,
    sequence: &Sequence,
) -> Option<Body>
    ensures { result ≡ completion_text hierarchies.now asked sequence.now }
{
    match sequence {
        Sequence::Hash { state, beginning } => {
            let chosen = if beginning.is_generated() {
                HierarchyHandle::Null
            } else {
                asked
            };
            let digest = state.digest();
            Some(ticketed(hierarchies, chosen, digest.as_slice()))
        }
        Sequence::Hmac { state } => {
            let mac = state.digest();
            Some(ticketed(hierarchies, HierarchyHandle::Null, mac.as_slice()))
        }
        Sequence::Event { .. } => None,
    }
}

impl Completion {
    /// TPM2_HashSequenceStart.
    #[tactic(auto, unfolding(crate::specs::SequenceRows::hash_start_row))]
    pub(crate) fn hash_start(
        &mut self,
        parameters: &[u8],
        text: &mut Response,
    ) -> Result<(), Refused>
        ensures { RepliesBy (hash_start_row self.old parameters.now) self.old result self.new
            text.new.items }
    {
        let mut ahead = Cursor::new(parameters);
        let auth = parameter(1, read_buffer(&mut ahead, 32))?;
        let hash = parameter(2, read_hash_or_null(&mut ahead))?;
        end(&ahead)?;
        let Some(slot) = self.free_slot() else {
            return Err(full_refused());
        };
        self.put_sequence(slot, SequenceObject::new(auth, started_sequence(hash)));
        answer(SUCCESS, &sequence_handle(slot).number.to_be_bytes(), text);
        Ok(())
    }

    /// The sequence object that the only handle of a command names, and the only entry, which is
    /// not yet compared.
    #[tactic(auto, unfolding(crate::specs::SequenceRows::named_in))]
    pub(crate) fn named_in<'a>(&'a self, bytes: &'a [u8]) -> Result<NamedSequence<'a>, Refused>
        ensures value { Gives named_of (named_in self.now bytes.now) result }
        ensures small { IfOk result (λ named. (length named.entry.nonce.now ≤ 32)
            × (length named.entry.hmac.now ≤ 32)) }
    {
        let mut text = Cursor::new(bytes);
        let handle = read_handle(1, &mut text)?;
        let slot = self.sequence_named(1, ResponseCode::ReferenceH0, handle)?;
        let Some(object) = self.in_slot(slot) else {
            return Err(absent_refused(ResponseCode::ReferenceH0));
        };
        let entries = read_entries(&mut text)?;
        let entry = only_entry(entries.as_slice())?;
        Ok(NamedSequence {
            slot,
            object,
            entry,
            parameters: text.rest(),
        })
    }

    /// The sequence object that the only handle of a command names, authorized by the password in
    /// the only entry.
    #[tactic(auto, unfolding(crate::specs::SequenceRows::sequence_in))]
    fn sequence_in<'a>(&'a self, bytes: &'a [u8]) -> Result<NamedSequence<'a>, Refused>
        ensures { Gives named_of (sequence_in self.now bytes.now) result }
    {
        let named = self.named_in(bytes)?;
        if !named.object.is_authorized(named.entry.hmac) {
            return Err(password_refused(1));
        }
        Ok(named)
    }

    /// TPM2_SequenceUpdate with a password.
    #[tactic(auto, unfolding(crate::specs::SequenceRows::update_row))]
    pub(crate) fn update(&mut self, bytes: &[u8], text: &mut Response) -> Result<(), Refused>
        ensures { RepliesBy (update_row self.old bytes.now) self.old result self.new
            text.new.items }
    {
        let named = self.sequence_in(bytes)?;
        let (slot, object) = (named.slot, named.updated()?);
        self.put_sequence(slot, object);
        answer_authorized(&[], &[], &PASSWORD_ANSWER, text);
        Ok(())
    }

    /// TPM2_SequenceComplete with a password.
    #[tactic(auto, unfolding(crate::specs::SequenceRows::complete_row))]
    pub(crate) fn complete(
        &mut self,
        hierarchies: &Hierarchies,
        bytes: &[u8],
        text: &mut Response,
    ) -> Result<(), Refused>
        ensures { RepliesBy (complete_row hierarchies.now self.old bytes.now) self.old result
            self.new text.new.items }
    {
        let named = self.sequence_in(bytes)?;
        let (slot, body) = (named.slot, named.completed(hierarchies)?);
        self.remove_sequence(slot);
        answer_authorized(&[], body.as_slice(), &PASSWORD_ANSWER, text);
        Ok(())
    }
}

//! The commands on sequence objects for which the layer sends a command to the device: TPM2_HMAC
//! for TPM2_HMAC_Start, TPM2_PCR_Extend for TPM2_EventSequenceComplete, and TPM2_GetRandom of no
//! bytes for TPM2_SequenceUpdate and TPM2_SequenceComplete with a session.

ghost use Rattle.std.specs.Prelude.{◌≡◌, ◌≤◌, ◌++◌, IfOk, List, None, ℕ, false, length, true};
ghost use Rattle.tpm_auth.specs.Entries.{is_password};
ghost use Rattle.tpm_record.specs.Record.{Record};
ghost use Rattle.tpm_step.specs.step.Entries.{password_answer};
ghost use Rattle.tpm_completion.specs.Sending.{accepted_only, complete_sent, random_sent, sent_answer, sent_by, sent_for, sent_reply, unless_password, update_sent, work_done};
ghost use Rattle.tpm_completion.specs.SequenceRows.{named_in, named_of};
ghost use Rattle.tpm_completion.specs.declared.completion.Completion.{Completion};

use crate::answer::{answer_authorized, is_refusal};
use crate::authorizing::is_password;
use crate::codes::{
    COMMAND_CODE, EVENT_SEQUENCE_COMPLETE, GET_RANDOM, HMAC_START, SEQUENCE_COMPLETE,
    SEQUENCE_UPDATE,
};
use crate::command::PlainCommand;
use crate::completion::Completion;
use crate::sent_commands::{COMMAND_LIMIT, RANDOM_PARAMETERS, random_command, with_hmac};
use crate::sequence_rows::{NamedSequence, PASSWORD_ANSWER};
use crate::sequences::sequence_handle;
use crate::session_entry::{Covered, EntryAnswer, entry_answered, first_answer, hmac_sent};
use crate::testing::Body;
use tpm_bytes::{Cursor, Short, Sink};
use tpm_record::Keep;
use tpm_sequence::SequenceObject;
use tpm_step::Response;
use tpm_types_common::{Handle, Refused, trimmed};

/// What the layer does after the device accepted the command that the layer sent.
#[derive(Drop)]
pub enum Work {
    /// Puts an HMAC sequence into a slot, and answers with its handle.
    Starts(u8, SequenceObject),
    /// Puts the updated sequence into its slot.
    Updates(u8, SequenceObject),
    /// Removes the sequence in a slot, and answers with the encoded digest or HMAC, and its ticket.
    Completes(u8, Body),
    /// Removes the event sequence in a slot, and answers with the encoded digests.
    Ends(u8, Sink<80>),
}

/// A command that the layer sends to the device, and what the layer does afterwards.
#[derive(Drop)]
pub struct Sent {
    pub command: Sink<COMMAND_LIMIT>,
    /// The code of the client's command.
    pub code: u32,
    pub work: Option<Work>,
    /// How the layer answers the first entry of the client's command, if it names a session.
    pub answer: Option<EntryAnswer>,
}

impl Sent {
    /// The answer to the first entry of the client's command, if the answer to the command has
    /// these parameters. `response` is the device's response to the layer's command.
    fn answer_to_first(&self, parameters: &[u8], response: &[u8]) -> Sink<80>
        ensures value { result ≡ sent_answer self.now parameters.now response.now }
        ensures small { length result ≤ 69 }
    {
        first_answer(self.answer.as_ref(), self.code, parameters, response)
    }

    /// The same, followed by the answer to a second entry, which contains a password.
    fn answer_to_both(&self, parameters: &[u8], response: &[u8]) -> Sink<80>
        ensures value { result
            ≡ sent_answer self.now parameters.now response.now ++ password_answer }
    {
        let mut area = self.answer_to_first(parameters, response);
        area.append(&PASSWORD_ANSWER);
        area
    }
}

/// The session that the first entry of a command with one handle names. The bytes begin with the
/// handle. Fails if they, or the authorization area, are too short.
fn first_session(bytes: &[u8]) -> Result<u32, Short>
    ensures { IfOk result (λ session. (layer : Completion)
        → IfOk (named_in layer bytes.now) (λ named. named.entry.session.number ≡ session)) }
{
    let mut text = Cursor::new(bytes);
    let _handle = text.u32()?;
    let size = text.u32()?;
    let area = text.take(size as usize)?;
    Cursor::new(area).u32()
}

/// Returns true only if the entry of a command with one handle contains a password. The bytes begin
/// with the handle.
#[tactic(auto, using(crate::proofs::Passwords::by_password))]
fn has_password(bytes: &[u8]) -> bool
    ensures { result ≡ true → (layer : Completion)
        → IfOk (named_in layer bytes.now) (λ named. is_password named.entry ≡ true) }
{
    match first_session(bytes) {
        Ok(session) => session == Handle::PASSWORD.number,
        Err(_) => false,
    }
}

/// Returns false only if the layer sends no command to the device for a client's command with
/// sessions. If the result is true, `sent_by` decides.
#[tactic(auto, using(crate::proofs::Passwords::none_sent))]
fn may_send(command: &PlainCommand) -> bool
    ensures { result ≡ false → (r : Record) (layer : Completion) → accepted_only
        (sent_by r layer command.now.code command.now.parameters.now) ≡ None }
{
    match command.code {
        HMAC_START | EVENT_SEQUENCE_COMPLETE => true,
        SEQUENCE_UPDATE | SEQUENCE_COMPLETE => !has_password(command.parameters),
        _ => false,
    }
}

/// Returns false only if the layer sends no command to the device for the client's command in a
/// buffer. If the result is true, `sent_for` decides.
#[tactic(auto, using(crate::proofs::Passwords::none_read))]
pub(crate) fn may_send_for(buffer: &[u8]) -> bool
    ensures { result ≡ false → (r : Record) (layer : Completion) (response : List ℕ)
        → sent_for r layer buffer.now response ≡ None }
{
    match PlainCommand::read_authorized(buffer) {
        Ok(command) => may_send(&command),
        Err(_) => false,
    }
}

/// The command that the layer sends for a client's command with this code on a sequence object.
fn random_sent<K: Keep>(keep: &K, code: u32, named: &NamedSequence, work: Work) -> Sent
    requires nonce { length named.now.entry.nonce.now ≤ 32 }
    requires hmac { length named.now.entry.hmac.now ≤ 32 }
    ensures { result ≡ random_sent (K.record_of keep.now) code (named_of named.now) work }
{
    let asked = Covered {
        code,
        names: &[],
        parameters: named.parameters,
        value: trimmed(&named.object.auth),
    };
    let covered = Covered {
        code: GET_RANDOM,
        names: &[],
        parameters: &RANDOM_PARAMETERS,
        value: &[],
    };
    let hmac = hmac_sent(keep, &asked, &covered, &named.entry);
    Sent {
        command: random_command(&with_hmac(&named.entry, hmac.as_slice())),
        code,
        work: Some(work),
        answer: entry_answered(keep, &asked, &named.entry),
    }
}

/// The command that the layer sends for TPM2_SequenceUpdate with a session.
#[tactic(auto, unfolding(crate::specs::Sending::update_sent))]
fn update_sent<K: Keep>(keep: &K, named: &NamedSequence) -> Result<Sent, Refused>
    requires nonce { length named.now.entry.nonce.now ≤ 32 }
    requires hmac { length named.now.entry.hmac.now ≤ 32 }
    ensures { result ≡ update_sent (K.record_of keep.now) (named_of named.now) }
{
    let object = named.updated()?;
    let work = Work::Updates(named.slot, object);
    Ok(random_sent(keep, SEQUENCE_UPDATE, named, work))
}

/// The command that the layer sends for TPM2_SequenceComplete with a session.
#[tactic(auto, unfolding(crate::specs::Sending::complete_sent))]
fn complete_sent<K: Keep>(keep: &K, named: &NamedSequence) -> Result<Sent, Refused>
    requires nonce { length named.now.entry.nonce.now ≤ 32 }
    requires hmac { length named.now.entry.hmac.now ≤ 32 }
    ensures { result ≡ complete_sent (K.record_of keep.now) (named_of named.now) }
{
    let answer = named.completed(&keep.fixed().hierarchies)?;
    let work = Work::Completes(named.slot, answer);
    Ok(random_sent(keep, SEQUENCE_COMPLETE, named, work))
}

impl Completion {
    /// The command that the layer sends for TPM2_SequenceUpdate with a session. `None` if the
    /// command has a password.
    fn update_sent<K: Keep>(&self, keep: &K, bytes: &[u8]) -> Option<Result<Sent, Refused>>
        ensures { result ≡ unless_password (update_sent (K.record_of keep.now))
            (named_in self.now bytes.now) }
    {
        match self.named_in(bytes) {
            Ok(named) if is_password(&named.entry) => None,
            Ok(named) => Some(update_sent(keep, &named)),
            Err(refused) => Some(Err(refused)),
        }
    }

    /// The command that the layer sends for TPM2_SequenceComplete with a session. `None` if the
    /// command has a password.
    fn complete_sent<K: Keep>(&self, keep: &K, bytes: &[u8]) -> Option<Result<Sent, Refused>>
        ensures { result ≡ unless_password (complete_sent (K.record_of keep.now))
            (named_in self.now bytes.now) }
    {
        match self.named_in(bytes) {
            Ok(named) if is_password(&named.entry) => None,
            Ok(named) => Some(complete_sent(keep, &named)),
            Err(refused) => Some(Err(refused)),
        }
    }

    /// The command that the layer sends for a client's command with sessions, or the refusal of the
    /// client's command; `None` if the layer sends nothing for it.
    pub(crate) fn sent_by<K: Keep>(
        &self,
        keep: &K,
        command: &PlainCommand,
    ) -> Option<Result<Sent, Refused>>
        ensures { result ≡ sent_by (K.record_of keep.now) self.now command.now.code
            command.now.parameters.now }
    {
        match command.code {
            HMAC_START => Some(self.hmac_start_sent(keep, command.parameters)),
            EVENT_SEQUENCE_COMPLETE => Some(self.event_complete_sent(keep, command.parameters)),
            SEQUENCE_UPDATE => self.update_sent(keep, command.parameters),
            SEQUENCE_COMPLETE => self.complete_sent(keep, command.parameters),
            _ => None,
        }
    }

    /// The command that the layer sends to the device for a client's command, if the device is
    /// started and refused the client's command with COMMAND_CODE.
    #[tactic(auto, unfolding(crate::specs::Sending::sent_for))]
    pub(crate) fn sent_for<K: Keep>(&self, keep: &K, buffer: &[u8], response: &[u8]) -> Option<Sent>
        ensures { result ≡ sent_for (K.record_of keep.now) self.now buffer.now response.now }
    {
        if !keep.fixed().started || !is_refusal(COMMAND_CODE, response) {
            return None;
        }
        let Ok(command) = PlainCommand::read_authorized(buffer) else {
            return None;
        };
        self.sent_by(keep, &command)?.ok()
    }

    /// Does the work after the device accepted the command that was sent.
    fn do_work(&mut self, sent: &Sent, work: &Work, text: &mut Response)
        ensures { record { response = text.new.items; after = self.new }
            ≡ work_done self.old sent.now work.now text.old.items }
    {
        match work {
            Work::Starts(slot, object) => {
                self.put_sequence(*slot, *object);
                let handle = sequence_handle(*slot).number.to_be_bytes();
                let area = sent.answer_to_first(&[], text.as_slice());
                answer_authorized(&handle, &[], area.as_slice(), text);
            }
            Work::Updates(slot, object) => {
                self.put_sequence(*slot, *object);
                let area = sent.answer_to_first(&[], text.as_slice());
                answer_authorized(&[], &[], area.as_slice(), text);
            }
            Work::Completes(slot, answer) => {
                self.remove_sequence(*slot);
                let area = sent.answer_to_first(answer.as_slice(), text.as_slice());
                answer_authorized(&[], answer.as_slice(), area.as_slice(), text);
            }
            Work::Ends(slot, digests) => {
                self.remove_sequence(*slot);
                let area = sent.answer_to_both(digests.as_slice(), text.as_slice());
                answer_authorized(&[], digests.as_slice(), area.as_slice(), text);
            }
        }
    }

    /// Answers after the device executed the command that was sent. `accepted` says whether the
    /// device accepted it; if not, its refusal stays in `text`.
    pub(crate) fn answer_sent(&mut self, accepted: bool, sent: &Sent, text: &mut Response)
        ensures { record { response = text.new.items; after = self.new }
            ≡ sent_reply self.old accepted sent.now text.old.items }
    {
        if let (true, Some(work)) = (accepted, &sent.work) {
            self.do_work(sent, work, text);
        }
    }
}

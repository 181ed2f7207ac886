//! The layer's answer after the device has responded.

ghost use Rattle.std.specs.Prelude.{◌≡◌, [], length};
ghost use Rattle.tpm_bytes.specs.Reading.{sized_at};
ghost use Rattle.tpm_completion.specs.Command.{command_of};
ghost use Rattle.tpm_completion.specs.Reply.{capability_asked, command_reply, is_stirred, load_asked, plain_reply, probe_reply, reply, result_reply, row_served, save_asked, served_reply, stir_reply};
ghost use Rattle.tpm_completion.specs.Capability.{asked_at};
ghost use Rattle.std.specs.Int.{w32};
ghost use Rattle.tpm_bytes.specs.Reading.{number_at};

use crate::answer::{answer, is_refusal};
use crate::capability::{Asked, tell};
use crate::codes::{
    COMMAND_CODE, CONTEXT_LOAD, CONTEXT_SAVE, GET_CAPABILITY, GET_TEST_RESULT, HASH,
    INCREMENTAL_SELF_TEST, STIR_RANDOM, SUCCESS, TEST_PARMS, VALUE,
};
use crate::command::{PlainCommand, tag_of};
use crate::completion::Completion;
use crate::context::{names_sequence, names_session};
use crate::hashing::hash;
use crate::testing::{Body, incremental_self_test, test_parms, test_result};
use tpm_bytes::{Cursor, Sink, is_equal};
use tpm_record::Keep;
use tpm_step::Response;
use tpm_types_common::{Handle, Refused};

/// Whether these are valid parameters of TPM2_StirRandom.
fn is_stirred(parameters: &[u8]) -> bool
    ensures { result ≡ is_stirred (sized_at 128 parameters.now) }
{
    let mut text = Cursor::new(parameters);
    match text.sized(128) {
        Ok(_) => text.is_empty(),
        Err(_) => false,
    }
}

/// Answers the TPM 1.2 command with which firmware looks for a TPM 1.2.
#[tactic(auto, unfolding(crate::specs::Reply::probe_reply))]
fn probe(layer: &Completion, buffer: &[u8], text: &mut Response)
    ensures { record { response = text.new.items; after = layer.now }
        ≡ probe_reply layer.now buffer.now text.old.items }
{
    let bad_tag = [0x00, 0xc4, 0, 0, 0, 10, 0, 0, 0, 0x1e];
    if tag_of(buffer) == 0xc1 && is_equal(text.as_slice(), &bad_tag) {
        answer(VALUE, &[], text);
    }
}

impl Completion {
    /// Answers TPM2_StirRandom.
    fn stir(&self, parameters: &[u8], text: &mut Response)
        ensures { record { response = text.new.items; after = self.now }
            ≡ stir_reply self.now parameters.now text.old.items }
    {
        if is_stirred(parameters) {
            answer(SUCCESS, &[], text);
        }
    }

    /// Answers TPM2_ContextSave.
    fn ask_save<K: Keep>(&mut self, keep: &K, parameters: &[u8], text: &mut Response)
        ensures { record { response = text.new.items; after = self.new }
            ≡ save_asked (K.record_of keep.now) self.old text.old.items
            (number_at w32 parameters.now) }
    {
        let mut ahead = Cursor::new(parameters);
        let Ok(number) = ahead.u32() else {
            return;
        };
        if ahead.is_empty() {
            self.save(keep, Handle { number }, text);
        }
    }

    /// Answers TPM2_ContextLoad of the context of a session or of a sequence object.
    fn ask_load<K: Keep>(&mut self, keep: &K, context: &[u8], text: &mut Response)
        ensures { record { response = text.new.items; after = self.new }
            ≡ load_asked (K.record_of keep.now) self.old context.now text.old.items }
    {
        if names_session(context) {
            self.load(keep, context, text);
        } else if names_sequence(context) {
            self.load_sequence(keep, context, text);
        }
    }

    /// Answers with the result of a command's row, which is a success or a refusal.
    fn give(&self, row: Result<Body, Refused>, text: &mut Response)
        ensures { record { response = text.new.items; after = self.now }
            ≡ result_reply self.now row }
    {
        match row {
            Ok(body) => answer(SUCCESS, body.as_slice(), text),
            Err(refused) => answer(refused.rc.number(), &[], text),
        }
    }

    /// Answers a command that tests the device, or TPM2_Hash.
    fn serve_row<K: Keep>(&self, keep: &K, command: &PlainCommand, text: &mut Response)
        ensures { record { response = text.new.items; after = self.now }
            ≡ row_served (K.record_of keep.now) self.now (command_of command.now) text.old.items }
    {
        match command.code {
            INCREMENTAL_SELF_TEST => self.give(incremental_self_test(command.parameters), text),
            GET_TEST_RESULT => self.give(test_result(command.parameters), text),
            HASH => {
                let hierarchies = &keep.fixed().hierarchies;
                self.give(hash(hierarchies, command.parameters), text);
            }
            TEST_PARMS => self.give(test_parms(command.parameters), text),
            _ => {}
        }
    }

    /// Answers a command that the device does not support.
    fn serve<K: Keep>(&mut self, keep: &K, command: &PlainCommand, text: &mut Response)
        ensures { record { response = text.new.items; after = self.new }
            ≡ served_reply (K.record_of keep.now) self.old (command_of command.now) text.old.items }
    {
        match command.code {
            STIR_RANDOM => self.stir(command.parameters, text),
            CONTEXT_LOAD => self.ask_load(keep, command.parameters, text),
            CONTEXT_SAVE => self.ask_save(keep, command.parameters, text),
            _ => self.serve_row(keep, command, text),
        }
    }

    /// Answers TPM2_GetCapability.
    fn ask_capability<K: Keep>(
        &self,
        keep: &K,
        parameters: &[u8],
        was_told: bool,
        text: &mut Response,
    )
        ensures { record { response = text.new.items; after = self.now }
            ≡ capability_asked (K.record_of keep.now) self.now text.old.items was_told
            (asked_at parameters.now) }
    {
        let Ok(asked) = Asked::read(parameters) else {
            return;
        };
        let mut listing = Sink::new();
        if tell(self, keep, asked, was_told, text.as_slice(), &mut listing) {
            answer(SUCCESS, listing.as_slice(), text);
        }
    }

    /// Answers a command without sessions.
    #[tactic(auto, unfolding(crate::specs::Reply::command_reply))]
    fn reply_to<K: Keep>(
        &mut self,
        keep: &K,
        command: &PlainCommand,
        was_told: bool,
        text: &mut Response,
    )
        ensures { record { response = text.new.items; after = self.new }
            ≡ command_reply (K.record_of keep.now) self.old (command_of command.now)
            text.old.items was_told }
    {
        if !keep.fixed().started {
            return;
        }
        if is_refusal(COMMAND_CODE, text.as_slice()) {
            self.serve(keep, command, text);
        } else if command.code == GET_CAPABILITY {
            self.ask_capability(keep, command.parameters, was_told, text);
        }
    }

    /// Answers a buffer that is not a command on sequence objects, or leaves the response
    /// unchanged.
    #[tactic(auto, unfolding(crate::specs::Reply::plain_reply))]
    fn plain_reply<K: Keep>(&mut self, keep: &K, buffer: &[u8], was_told: bool, text: &mut Response)
        ensures { record { response = text.new.items; after = self.new }
            ≡ plain_reply (K.record_of keep.now) self.old buffer.now text.old.items was_told }
    {
        match PlainCommand::read(buffer) {
            Ok(command) => self.reply_to(keep, &command, was_told, text),
            Err(_) => probe(self, buffer, text),
        }
    }

    /// Replaces the device's response in `text` with the layer's answer, or leaves it unchanged.
    /// `was_told` says whether the device's response is a success.
    #[tactic(auto, unfolding(crate::specs::Reply::reply))]
    pub(crate) fn reply<K: Keep>(
        &mut self,
        keep: &K,
        buffer: &[u8],
        was_told: bool,
        text: &mut Response,
    )
        ensures { record { response = text.new.items; after = self.new }
            ≡ reply (K.record_of keep.now) self.old buffer.now text.old.items was_told }
    {
        if !self.answer_sequence(keep, buffer, text) {
            self.plain_reply(keep, buffer, was_told, text);
        }
    }
}

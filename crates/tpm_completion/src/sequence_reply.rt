//! The layer's answers to commands on sequence objects, except those for which it sends a command
//! to the device.

ghost use Rattle.std.specs.Prelude.{◌≡◌, Result};
ghost use Rattle.std.specs.Int.{w32};
ghost use Rattle.tpm_bytes.specs.Reading.{number_at};
ghost use Rattle.tpm_completion.specs.Command.{authorized_command, command_of, plain_command};
ghost use Rattle.tpm_completion.specs.Saving.{Reply};
ghost use Rattle.tpm_completion.specs.SequenceReply.{RepliesIf, asked_reply, authorized_reply, bare_reply, flush_handle, flush_reply, needs_entry, password_reply, row_reply, sequence_reply};
ghost use Rattle.tpm_completion.specs.SequenceRows.{RepliesBy};

use crate::answer::{answer, is_refusal};
use crate::codes::{
    AUTH_MISSING, COMMAND_CODE, EVENT_SEQUENCE_COMPLETE, FLUSH_CONTEXT, HANDLE_OF_PARAMETER_1,
    HASH_SEQUENCE_START, HMAC_START, SEQUENCE_COMPLETE, SEQUENCE_UPDATE, SUCCESS,
};
use crate::command::PlainCommand;
use crate::completion::Completion;
use tpm_bytes::Cursor;
use tpm_record::Keep;
use tpm_step::Response;
use tpm_types_common::{Handle, Refused};

/// Whether a command with this code needs an authorization area.
fn needs_entry(code: u32) -> bool
    ensures { result ≡ needs_entry code }
{
    matches!(
        code,
        HMAC_START | SEQUENCE_UPDATE | SEQUENCE_COMPLETE | EVENT_SEQUENCE_COMPLETE
    )
}

impl Completion {
    /// Answers with a refusal if the command was refused.
    fn or_refuse(&self, done: Result<(), Refused>, text: &mut Response)
        ensures { (row : Result Reply Refused) (old : Completion)
            → RepliesBy row old done self.now text.old.items
            → record { response = text.new.items; after = self.now } ≡ row_reply old row }
    {
        if let Err(refused) = done {
            answer(refused.rc.number(), &[], text);
        }
    }

    /// Answers a command without sessions, and returns true; returns false if the layer has no
    /// answer.
    fn answer_bare(&mut self, command: &PlainCommand, text: &mut Response) -> bool
        ensures { RepliesIf (bare_reply self.old (command_of command.now)) self.old text.old.items
            result self.new text.new.items }
    {
        if command.code == HASH_SEQUENCE_START {
            let done = self.hash_start(command.parameters, text);
            self.or_refuse(done, text);
            return true;
        }
        if needs_entry(command.code) {
            answer(AUTH_MISSING, &[], text);
            return true;
        }
        false
    }

    /// Answers TPM2_SequenceUpdate or TPM2_SequenceComplete with a password, and returns true;
    /// returns false for any other command.
    fn answer_with_password<K: Keep>(
        &mut self,
        keep: &K,
        command: &PlainCommand,
        text: &mut Response,
    ) -> bool
        ensures { RepliesIf (password_reply (K.record_of keep.now) self.old
            (command_of command.now)) self.old text.old.items result self.new text.new.items }
    {
        let done = match command.code {
            SEQUENCE_UPDATE => self.update(command.parameters, text),
            SEQUENCE_COMPLETE => {
                self.complete(&keep.fixed().hierarchies, command.parameters, text)
            }
            _ => return false,
        };
        self.or_refuse(done, text);
        true
    }

    /// Answers a command with sessions, and returns true; returns false if the layer has no answer,
    /// or would send a command to the device.
    fn answer_authorized_command<K: Keep>(
        &mut self,
        keep: &K,
        command: &PlainCommand,
        text: &mut Response,
    ) -> bool
        ensures { RepliesIf (authorized_reply (K.record_of keep.now) self.old
            (command_of command.now)) self.old text.old.items result self.new text.new.items }
    {
        match self.sent_by(keep, command) {
            Some(Ok(_)) => false,
            Some(Err(refused)) => {
                answer(refused.rc.number(), &[], text);
                true
            }
            None => self.answer_with_password(keep, command, text),
        }
    }

    /// Answers a buffer that the device refused with COMMAND_CODE.
    fn answer_refused<K: Keep>(&mut self, keep: &K, buffer: &[u8], text: &mut Response) -> bool
        ensures { RepliesIf (asked_reply (K.record_of keep.now) self.old (plain_command buffer.now)
            (authorized_command buffer.now)) self.old text.old.items
            result self.new text.new.items }
    {
        match PlainCommand::read(buffer) {
            Ok(command) => self.answer_bare(&command, text),
            Err(_) => match PlainCommand::read_authorized(buffer) {
                Ok(command) => self.answer_authorized_command(keep, &command, text),
                Err(_) => false,
            },
        }
    }

    /// Removes the sequence object that the parameter of TPM2_FlushContext names, if there is one.
    fn flush_handle(&mut self, parameters: &[u8], text: &mut Response) -> bool
        ensures { RepliesIf (flush_handle self.old (number_at w32 parameters.now)) self.old
            text.old.items result self.new text.new.items }
    {
        let mut ahead = Cursor::new(parameters);
        let Ok(number) = ahead.u32() else {
            return false;
        };
        if !ahead.is_empty() {
            return false;
        }
        let Some(slot) = self.slot_of(Handle { number }) else {
            return false;
        };
        self.remove_sequence(slot);
        answer(SUCCESS, &[], text);
        true
    }

    /// Answers TPM2_FlushContext of a sequence object.
    fn flush(&mut self, buffer: &[u8], text: &mut Response) -> bool
        ensures { RepliesIf (flush_reply self.old (plain_command buffer.now)) self.old
            text.old.items result self.new text.new.items }
    {
        match PlainCommand::read(buffer) {
            Ok(command) if command.code == FLUSH_CONTEXT => {
                self.flush_handle(command.parameters, text)
            }
            _ => false,
        }
    }

    /// Answers a command on sequence objects, and returns true; returns false if the layer has no
    /// answer to the buffer.
    #[tactic(auto, unfolding(crate::specs::SequenceReply::sequence_reply))]
    pub(crate) fn answer_sequence<K: Keep>(
        &mut self,
        keep: &K,
        buffer: &[u8],
        text: &mut Response,
    ) -> bool
        ensures { RepliesIf (sequence_reply (K.record_of keep.now) self.old buffer.now
            text.old.items) self.old text.old.items result self.new text.new.items }
    {
        if !keep.fixed().started {
            return false;
        }
        if is_refusal(COMMAND_CODE, text.as_slice()) {
            return self.answer_refused(keep, buffer, text);
        }
        if is_refusal(HANDLE_OF_PARAMETER_1, text.as_slice()) {
            return self.flush(buffer, text);
        }
        false
    }
}

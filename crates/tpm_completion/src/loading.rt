//! TPM2_ContextLoad of the context of an object or of a sequence object.

ghost use Rattle.std.specs.Prelude.{◌≡◌, option_map};
ghost use Rattle.tpm_completion.specs.Loading.{context_asked, object_context_in, object_opened, placed_reply};
ghost use Rattle.tpm_completion.specs.Command.{plain_command};
ghost use Rattle.tpm_completion.specs.Saving.{Reply};
ghost use Rattle.tpm_completion.specs.SequenceLoading.{sequence_loaded, sequence_put};
ghost use Rattle.tpm_completion.specs.Sequences.{free_slot};

use crate::answer::{answer, is_refusal};
use crate::codes::{COMMAND_CODE, CONTEXT_LOAD, OBJECT_MEMORY};
use crate::command::PlainCommand;
use crate::completion::Completion;
use crate::context::{names_sequence, names_session};
use crate::sequences::sequence_handle;
use tpm_context::{ContextFault, open, open_sequence};
use tpm_object::Object;
use tpm_record::Keep;
use tpm_sequence::SequenceObject;
use tpm_step::Response;

/// The context that a TPM2_ContextLoad without sessions is to load, unless it is that of a session or
/// of a sequence object.
fn object_context_in(buffer: &[u8]) -> Option<&[u8]>
    ensures { option_map (λ context. context.now) result
        ≡ object_context_in (plain_command buffer.now) }
{
    let Ok(command) = PlainCommand::read(buffer) else {
        return None;
    };
    let context = command.parameters;
    if command.code == CONTEXT_LOAD && !(names_session(context) || names_sequence(context)) {
        Some(context)
    } else {
        None
    }
}

/// The object's context in a TPM2_ContextLoad, if the device is started and refused the command
/// with COMMAND_CODE.
#[tactic(auto, unfolding(crate::specs::Loading::context_asked))]
pub fn context_asked<'a, K: Keep>(keep: &K, buffer: &'a [u8], response: &[u8]) -> Option<&'a [u8]>
    ensures { option_map (λ context. context.now) result
        ≡ context_asked (K.record_of keep.now) buffer.now response.now }
{
    if keep.fixed().started && is_refusal(COMMAND_CODE, response) {
        object_context_in(buffer)
    } else {
        None
    }
}

impl Completion {
    /// The object in a context, or why it cannot be loaded.
    pub(crate) fn open_object<K: Keep>(
        &self,
        keep: &K,
        context: &[u8],
    ) -> Result<Object, ContextFault>
        ensures { result ≡ object_opened (K.record_of keep.now) self.now context.now }
    {
        let binding = self.binding(keep);
        open(&keep.fixed().hierarchies, binding, context)
    }
    /// Puts a sequence object into a free slot, and answers with its handle.
    fn place_sequence(&mut self, object: SequenceObject, text: &mut Response)
        ensures { record { response = text.new.items; after = self.new }
            ≡ sequence_put self.old object (free_slot self.old) }
    {
        match self.free_slot() {
            Some(slot) => {
                self.put_sequence(slot, object);
                self.give_handle(sequence_handle(slot), text);
            }
            None => self.refuse(OBJECT_MEMORY, text),
        }
    }

    /// Answers TPM2_ContextLoad of a sequence object's context.
    pub(crate) fn load_sequence<K: Keep>(&mut self, keep: &K, context: &[u8], text: &mut Response)
        ensures { record { response = text.new.items; after = self.new }
            ≡ sequence_loaded (K.record_of keep.now) self.old context.now }
    {
        let binding = self.binding(keep);
        match open_sequence(&keep.fixed().hierarchies, binding, context) {
            Ok(object) => self.place_sequence(object, text),
            Err(fault) => self.refuse(fault.rc().number(), text),
        }
    }
}

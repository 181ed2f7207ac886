//! TPM2_ContextSave, and TPM2_ContextLoad of a session's context.

ghost use Rattle.std.specs.Prelude.{◌≡◌, ◌<◌, ◌^◌, IfSome, List, ℕ};
ghost use Rattle.tpm_types_common.specs.Limits.{session_limit};
ghost use Rattle.tpm_record.specs.Objects.{object_at};
ghost use Rattle.tpm_step.specs.declared.event.Outcome.{Outcome as Told};
ghost use Rattle.tpm_completion.specs.Sequences.{sequence_of};
ghost use Rattle.tpm_completion.specs.Saving.{Reply, binding_of, context_given, counted_reply, handle_given, next_number, object_numbered, object_saved, place_named, refusal_reply, save_reply, sequence_numbered, sequence_saved, session_load_reply, session_loaded, session_saved, with_session};

use crate::answer::answer;
use crate::codes::{
    HANDLE_OF_PARAMETER_1, INTEGRITY_OF_PARAMETER_1, REFERENCE_H0, SUCCESS, TOO_MANY_CONTEXTS,
    VALUE_OF_HANDLE_1,
};
use crate::completion::Completion;
use crate::context::{Token, context_text, read_token};
use tpm_bytes::Sink;
use tpm_context::{Binding, CONTEXT_SIZE, seal, seal_sequence};
use tpm_object::Object;
use tpm_record::Keep;
use tpm_sequence::SequenceObject;
use tpm_step::Response;
use tpm_types_common::{Handle, SESSION_LIMIT};

/// The slot that a handle names.
pub(crate) fn place_named(handle: Handle) -> usize
    ensures { result ≡ place_named handle }
{
    (handle.number % (1 << 24)) as usize
}

impl Completion {
    /// Sets the context number of the session in a slot.
    fn set_session(&mut self, place: usize, context: u64)
        ensures { self.new ≡ with_session self.old place context }
    {
        if place < SESSION_LIMIT {
            self.sessions[place] = context;
        }
    }

    /// The number of the next context, or `None` if no number is left.
    fn next_number(&self) -> Option<u64>
        ensures { result ≡ next_number self.now }
    {
        if self.count < u64::MAX {
            Some(self.count + 1)
        } else {
            None
        }
    }

    /// Answers with the context of this session; `context` is the context's number.
    fn give_context(&self, handle: Handle, context: u64, text: &mut Response)
        ensures { record { response = text.new.items; after = self.now }
            ≡ context_given self.now handle context }
    {
        let token = Token { context, handle };
        answer(SUCCESS, context_text(self.start, token).as_slice(), text);
    }

    /// Refuses the command with this response code.
    pub(crate) fn refuse(&self, code: u32, text: &mut Response)
        ensures { record { response = text.new.items; after = self.now }
            ≡ refusal_reply self.now code }
    {
        answer(code, &[], text);
    }

    /// The values to which the context of an object is bound.
    pub(crate) fn binding<K: Keep>(&self, keep: &K) -> Binding
        ensures { result ≡ binding_of (K.record_of keep.now) self.now }
    {
        let fixed = keep.fixed();
        Binding {
            start: self.start,
            reset_count: fixed.reset_count,
            restart_count: fixed.restart_count,
        }
    }

    /// Answers with a new context, which has this number.
    fn give_counted(&mut self, number: u64, context: &Sink<CONTEXT_SIZE>, text: &mut Response)
        ensures { record { response = text.new.items; after = self.new }
            ≡ counted_reply self.old number context.now }
    {
        self.count = number;
        answer(SUCCESS, context.as_slice(), text);
    }

    /// Answers with a new context of an object.
    fn give_object<K: Keep>(&mut self, keep: &K, object: &Object, text: &mut Response)
        ensures { record { response = text.new.items; after = self.new }
            ≡ object_numbered (K.record_of keep.now) self.old object.now (next_number self.old) }
    {
        let Some(number) = self.next_number() else {
            return self.refuse(TOO_MANY_CONTEXTS, text);
        };
        let hierarchies = &keep.fixed().hierarchies;
        let mut context: Sink<CONTEXT_SIZE> = Sink::new();
        seal(
            hierarchies,
            self.binding(keep),
            number,
            object,
            &mut context,
        );
        self.give_counted(number, &context, text);
    }

    /// Answers with a new context of a sequence object.
    fn give_sequence<K: Keep>(&mut self, keep: &K, object: &SequenceObject, text: &mut Response)
        ensures { record { response = text.new.items; after = self.new }
            ≡ sequence_numbered (K.record_of keep.now) self.old object.now
            (next_number self.old) }
    {
        let Some(number) = self.next_number() else {
            return self.refuse(TOO_MANY_CONTEXTS, text);
        };
        let hierarchies = &keep.fixed().hierarchies;
        let mut context: Sink<CONTEXT_SIZE> = Sink::new();
        seal_sequence(
            hierarchies,
            self.binding(keep),
            number,
            object,
            &mut context,
        );
        self.give_counted(number, &context, text);
    }

    /// Answers TPM2_ContextSave of a sequence object.
    fn save_sequence<K: Keep>(&mut self, keep: &K, handle: Handle, text: &mut Response)
        ensures { record { response = text.new.items; after = self.new }
            ≡ sequence_saved (K.record_of keep.now) self.old (sequence_of self.old handle) }
    {
        match self.sequence_of(handle) {
            Some(object) => self.give_sequence(keep, &object, text),
            None => self.refuse(REFERENCE_H0, text),
        }
    }

    /// Answers TPM2_ContextSave of a transient handle.
    fn save_object<K: Keep>(&mut self, keep: &K, handle: Handle, text: &mut Response)
        ensures { record { response = text.new.items; after = self.new }
            ≡ object_saved (K.record_of keep.now) self.old handle
            (object_at (K.record_of keep.now).objects handle) }
    {
        match keep.objects().get(handle) {
            Some(object) => self.give_object(keep, object, text),
            None => self.save_sequence(keep, handle, text),
        }
    }

    /// Answers TPM2_ContextSave of a session.
    fn save_session<K: Keep>(&mut self, keep: &K, handle: Handle, context: u64, text: &mut Response)
        ensures { record { response = text.new.items; after = self.new }
            ≡ session_saved (K.record_of keep.now) self.old handle context }
    {
        if keep.sessions().get(handle).is_none() || context != 0 {
            return self.refuse(REFERENCE_H0, text);
        }
        match self.next_number() {
            Some(number) => {
                self.count = number;
                self.set_session(place_named(handle), number);
                self.give_context(handle, number, text);
            }
            None => self.refuse(TOO_MANY_CONTEXTS, text),
        }
    }

    /// Answers TPM2_ContextSave of a handle.
    #[tactic(auto, unfolding(crate::specs::Saving::save_reply))]
    pub(crate) fn save<K: Keep>(&mut self, keep: &K, handle: Handle, text: &mut Response)
        ensures { record { response = text.new.items; after = self.new }
            ≡ save_reply (K.record_of keep.now) self.old handle }
    {
        if handle.is_transient() {
            self.save_object(keep, handle, text);
        } else if handle.is_session() {
            let context = self.session(place_named(handle));
            self.save_session(keep, handle, context, text);
        } else {
            self.refuse(VALUE_OF_HANDLE_1, text);
        }
    }

    /// Answers with this handle.
    pub(crate) fn give_handle(&self, handle: Handle, text: &mut Response)
        ensures { record { response = text.new.items; after = self.now }
            ≡ handle_given self.now handle }
    {
        answer(SUCCESS, &handle.number.to_be_bytes(), text);
    }

    /// Loads a saved session again.
    fn load_session<K: Keep>(&mut self, keep: &K, token: Token, text: &mut Response)
        ensures { record { response = text.new.items; after = self.new }
            ≡ session_loaded (K.record_of keep.now) self.old token }
    {
        let place = place_named(token.handle);
        let is_there = keep.sessions().get(token.handle).is_some();
        if !is_there || token.context == 0 || token.context != self.session(place) {
            return self.refuse(HANDLE_OF_PARAMETER_1, text);
        }
        self.set_session(place, 0);
        self.give_handle(token.handle, text);
    }

    /// Answers TPM2_ContextLoad of a context that names a session.
    #[tactic(auto, unfolding(crate::specs::Saving::session_load_reply))]
    pub(crate) fn load<K: Keep>(&mut self, keep: &K, context: &[u8], text: &mut Response)
        ensures { record { response = text.new.items; after = self.new }
            ≡ session_load_reply (K.record_of keep.now) self.old context.now }
    {
        match read_token(self.start, context) {
            Ok(token) => self.load_session(keep, token, text),
            Err(_) => self.refuse(INTEGRITY_OF_PARAMETER_1, text),
        }
    }
}

//! The slots of sequence objects, and the handles of these objects.

ghost use Rattle.std.specs.Prelude.{◌≡◌, ◌≤◌, ◌<◌, ◌+◌, ◌++◌, length, option_copied};
ghost use Rattle.tpm_completion.specs.Sequences.{free_slot, in_slot, is_after_objects, no_sequences, sequence_element, sequence_elements, sequence_handle, sequence_of, slot_of, with_sequence, without_sequence};

use crate::completion::Completion;
use crate::listing::{Elements, element};
use tpm_containers::numbered;
use tpm_sequence::SequenceObject;
use tpm_types_common::{Handle, OBJECT_LIMIT};

/// The largest number of sequence objects.
pub const SEQUENCE_LIMIT: usize = 3;

/// The slots of a layer that has no sequence object.
pub(crate) fn no_sequences() -> [Option<SequenceObject>; 3]
    ensures { result ≡ no_sequences }
{
    [None; 3]
}

/// The handle of the sequence object in a slot.
pub(crate) fn sequence_handle(slot: u8) -> Handle
    ensures { result ≡ sequence_handle slot }
{
    Handle {
        number: numbered::number_of(0x80, OBJECT_LIMIT + usize::from(slot)),
    }
}

/// Whether a handle is in the range of transient objects, but after the handles that the device
/// assigns.
fn is_after_objects(handle: Handle) -> bool
    ensures { result ≡ is_after_objects handle }
{
    handle.is_transient() && (handle.number % (1 << 24)) as usize >= OBJECT_LIMIT
}

impl Completion {
    /// The sequence object in a slot.
    pub(crate) fn in_slot(&self, slot: u8) -> Option<&SequenceObject>
        ensures { option_copied result ≡ in_slot self.now slot }
    {
        let slot = usize::from(slot);
        if slot < SEQUENCE_LIMIT {
            self.sequences[slot].as_ref()
        } else {
            None
        }
    }

    /// The slot with the sequence object that a handle names, if there is one.
    #[tactic(auto, unfolding(crate::specs::Sequences::slot_of))]
    pub(crate) fn slot_of(&self, handle: Handle) -> Option<u8>
        ensures { result ≡ slot_of self.now handle }
    {
        if !is_after_objects(handle) {
            return None;
        }
        let slot = (handle.number % (1 << 24)) as usize - OBJECT_LIMIT;
        if slot < SEQUENCE_LIMIT && self.sequences[slot].is_some() {
            Some(slot as u8)
        } else {
            None
        }
    }

    /// The sequence object that a handle names, if there is one.
    pub(crate) fn sequence_of(&self, handle: Handle) -> Option<SequenceObject>
        ensures { result ≡ sequence_of self.now handle }
    {
        let slot = self.slot_of(handle)?;
        self.in_slot(slot).copied()
    }

    /// The lowest slot without a sequence object.
    #[tactic(auto, unfolding(crate::specs::Sequences::free_slot))]
    pub(crate) fn free_slot(&self) -> Option<u8>
        ensures { result ≡ free_slot self.now }
    {
        if self.sequences[0].is_none() {
            Some(0)
        } else if self.sequences[1].is_none() {
            Some(1)
        } else if self.sequences[2].is_none() {
            Some(2)
        } else {
            None
        }
    }

    /// Puts a sequence object into a slot.
    pub(crate) fn put_sequence(&mut self, slot: u8, object: SequenceObject)
        ensures { self.new ≡ with_sequence self.old slot object }
    {
        let slot = usize::from(slot);
        if slot < SEQUENCE_LIMIT {
            self.sequences[slot] = Some(object);
        }
    }

    /// Removes the sequence object in a slot.
    pub(crate) fn remove_sequence(&mut self, slot: u8)
        ensures { self.new ≡ without_sequence self.old slot }
    {
        let slot = usize::from(slot);
        if slot < SEQUENCE_LIMIT {
            self.sequences[slot] = None;
        }
    }

    /// Lists the sequence object in a slot, if there is one.
    #[tactic(auto, unfolding(crate::specs::Sequences::sequence_element))]
    fn list_sequence(&self, slot: u8, elements: &mut Elements)
        requires room { length elements.old.items < 64 }
        ensures added { elements.new.items
            ≡ elements.old.items ++ sequence_element self.now slot }
        ensures few { length elements.new.items ≤ length elements.old.items + 1 }
    {
        if self.in_slot(slot).is_some() {
            let handle = sequence_handle(slot);
            elements.push(element(handle.number, handle.number));
        }
    }

    /// Lists the sequence objects.
    pub(crate) fn list_sequences(&self, elements: &mut Elements)
        requires { length elements.old.items ≤ 60 }
        ensures { elements.new.items ≡ elements.old.items ++ sequence_elements self.now }
    {
        self.list_sequence(0, elements);
        self.list_sequence(1, elements);
        self.list_sequence(2, elements);
    }
}

//! The slots of the completing layer's sequence objects, in a state text.

ghost use Rattle.std.specs.Prelude.{◌≡◌, ◌≤◌, ◌+◌, ◌++◌, length};
ghost use Rattle.std.specs.List.{flat_map};
ghost use Rattle.tpm_bytes.specs.Many.{many_at};
ghost use Rattle.tpm_bytes.specs.Reading.{Reads};
ghost use Rattle.tpm_image_text.specs.Sizes.{text_size};
ghost use Rattle.tpm_sequence_text.specs.Slot.{slot_in, slot_text};
ghost use Rattle.tpm_state_text.specs.Sequences.{has_sequence, slots_in, slots_text};
ghost use Rattle.tpm_state_text.specs.Sizes.{slots_size};

use tpm_bytes::Cursor;
use tpm_image_text::{Malformed, Text};
use tpm_sequence::SequenceObject;
use tpm_sequence_text::{read_slot, write_slot};

/// The number of slots for sequence objects.
const SLOTS: usize = 3;

/// Whether at least one of the slots contains a sequence object.
pub fn has_sequence(slots: &[Option<SequenceObject>; 3]) -> bool
    ensures { result ≡ has_sequence slots.now }
{
    slots.iter().any(|slot| slot.is_some())
}

#[tactic(auto, using(crate::proofs::Loops::left_laws))]
fn read_slots(text: &mut Cursor) -> Result<[Option<SequenceObject>; 3], Malformed>
    ensures { Reads (λ slots. slots) (many_at slot_in 3 text.old) text.old result text.new }
{
    let mut ahead = Cursor::new(text.rest());
    let mut slots = [None; 3];
    for slot in 0..SLOTS {
        slots[slot] = read_slot(&mut ahead)?;
    }
    *text = ahead;
    Ok(slots)
}

/// Reads the slots. If `is_used` is true, the slots are encoded, and one of them must contain a
/// sequence object. Otherwise, they are all free.
#[tactic(auto, unfolding(crate::specs::Sequences::slots_in))]
pub fn read_sequences(
    is_used: bool,
    text: &mut Cursor,
) -> Result<[Option<SequenceObject>; 3], Malformed>
    ensures { Reads (λ slots. slots) (slots_in is_used text.old) text.old result text.new }
{
    if !is_used {
        return Ok([None; 3]);
    }
    let mut ahead = Cursor::new(text.rest());
    let slots = read_slots(&mut ahead)?;
    if !has_sequence(&slots) {
        return Err(Malformed);
    }
    *text = ahead;
    Ok(slots)
}

fn write_slots(slots: &[Option<SequenceObject>; 3], text: &mut Text)
    requires { length text.old + slots_size ≤ text_size }
    ensures written { text.new ≡ text.old ++ flat_map slot_text slots.now }
    ensures small { length text.new ≤ length text.old + slots_size }
{
    for slot in slots {
        write_slot(slot.as_ref(), text);
    }
}

/// Writes the slots, if one of them contains a sequence object.
#[tactic(auto, unfolding(crate::specs::Sequences::slots_text))]
pub fn write_sequences(slots: &[Option<SequenceObject>; 3], text: &mut Text)
    requires { length text.old + slots_size ≤ text_size }
    ensures written { text.new ≡ text.old ++ slots_text slots.now }
    ensures small { length text.new ≤ length text.old + slots_size }
{
    if has_sequence(slots) {
        write_slots(slots, text);
    }
}

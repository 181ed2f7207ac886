//! Encodes a slot, and decodes it again.

ghost use Rattle.std.specs.Prelude.{◌≡◌, ◌+◌, ◌++◌, ◌≤◌, length, option_copied};
ghost use Rattle.tpm_bytes.specs.Reading.{Reads};
ghost use Rattle.tpm_sequence_text.specs.Sizes.{sequence_size, slot_size};
ghost use Rattle.tpm_sequence_text.specs.Slot.{event_in, hash_in, hmac_in, object_in, sequence_in, sequence_text, slot_in, slot_text};

use crate::hash_state::{read_hash_state, write_hash_state};
use crate::kind::{
    SequenceKind, beginning_number, kind_number, kind_of, read_beginning, read_kind,
};
use tpm_bytes::{Cursor, Sink};
use tpm_hash_state::HmacState;
use tpm_image_text::{Malformed, read_array};
use tpm_sequence::{Sequence, SequenceObject};

#[tactic(auto, unfolding(crate::specs::Slot::hash_in))]
fn read_hash_sequence(text: &mut Cursor) -> Result<Sequence, Malformed>
    ensures { Reads (λ sequence. sequence) (hash_in text.old) text.old result text.new }
{
    let mut ahead = Cursor::new(text.rest());
    let state = read_hash_state(&mut ahead)?;
    let beginning = read_beginning(&mut ahead)?;
    *text = ahead;
    Ok(Sequence::Hash { state, beginning })
}

#[tactic(auto, unfolding(crate::specs::Slot::event_in))]
fn read_event_sequence(text: &mut Cursor) -> Result<Sequence, Malformed>
    ensures { Reads (λ sequence. sequence) (event_in text.old) text.old result text.new }
{
    let mut ahead = Cursor::new(text.rest());
    let sha1 = read_hash_state(&mut ahead)?;
    let sha256 = read_hash_state(&mut ahead)?;
    *text = ahead;
    Ok(Sequence::Event { sha1, sha256 })
}

#[tactic(auto, unfolding(crate::specs::Slot::hmac_in))]
fn read_hmac_sequence(text: &mut Cursor) -> Result<Sequence, Malformed>
    ensures { Reads (λ sequence. sequence) (hmac_in text.old) text.old result text.new }
{
    let mut ahead = Cursor::new(text.rest());
    let inner = read_hash_state(&mut ahead)?;
    let outer = read_hash_state(&mut ahead)?;
    *text = ahead;
    let state = HmacState { inner, outer };
    Ok(Sequence::Hmac { state })
}

/// Reads a sequence of this kind.
fn read_sequence(kind: SequenceKind, text: &mut Cursor) -> Result<Sequence, Malformed>
    ensures { Reads (λ sequence. sequence) (sequence_in kind text.old) text.old result text.new }
{
    match kind {
        SequenceKind::Hash => read_hash_sequence(text),
        SequenceKind::Event => read_event_sequence(text),
        SequenceKind::Hmac => read_hmac_sequence(text),
    }
}

/// Reads a sequence object whose sequence is of this kind.
#[tactic(auto, unfolding(crate::specs::Slot::object_in))]
fn read_object(kind: SequenceKind, text: &mut Cursor) -> Result<SequenceObject, Malformed>
    ensures { Reads (λ object. object) (object_in kind text.old) text.old result text.new }
{
    let mut ahead = Cursor::new(text.rest());
    let auth = read_array(&mut ahead)?;
    let sequence = read_sequence(kind, &mut ahead)?;
    *text = ahead;
    Ok(SequenceObject { auth, sequence })
}

/// Reads the contents of a slot.
#[tactic(auto, unfolding(crate::specs::Slot::slot_in))]
pub fn read_slot(text: &mut Cursor) -> Result<Option<SequenceObject>, Malformed>
    ensures { Reads (λ slot. slot) (slot_in text.old) text.old result text.new }
{
    let mut ahead = Cursor::new(text.rest());
    let slot = match read_kind(&mut ahead)? {
        Some(kind) => Some(read_object(kind, &mut ahead)?),
        None => None,
    };
    *text = ahead;
    Ok(slot)
}

fn write_sequence<const N: usize>(sequence: &Sequence, text: &mut Sink<N>)
    requires { length text.old + sequence_size ≤ N }
    ensures written { text.new ≡ text.old ++ sequence_text sequence.now }
    ensures small { length text.new ≤ length text.old + sequence_size }
{
    match sequence {
        Sequence::Hash { state, beginning } => {
            write_hash_state(state, text);
            text.append_u8(beginning_number(*beginning));
        }
        Sequence::Event { sha1, sha256 } => {
            write_hash_state(sha1, text);
            write_hash_state(sha256, text);
        }
        Sequence::Hmac { state } => {
            write_hash_state(&state.inner, text);
            write_hash_state(&state.outer, text);
        }
    }
}

/// Writes the contents of a slot.
#[tactic(auto, unfolding(crate::specs::Slot::slot_text))]
pub fn write_slot<const N: usize>(slot: Option<&SequenceObject>, text: &mut Sink<N>)
    requires { length text.old + slot_size ≤ N }
    ensures written { text.new ≡ text.old ++ slot_text (option_copied slot.entry) }
    ensures small { length text.new ≤ length text.old + slot_size }
{
    match slot {
        Some(object) => {
            text.append_u8(kind_number(Some(kind_of(&object.sequence))));
            text.append(&object.auth);
            write_sequence(&object.sequence, text);
        }
        None => text.append_u8(kind_number(None)),
    }
}

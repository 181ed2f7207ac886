//! The slots of the transient objects, in a state text.

ghost use Rattle.std.specs.Prelude.{◌≡◌, ◌<◌, ◌≤◌, ◌+◌, ◌++◌, length, option_copied};
ghost use Rattle.tpm_bytes.specs.Reading.{Reads};
ghost use Rattle.tpm_containers.specs.Slots.{free};
ghost use Rattle.tpm_image_text.specs.Body.{object_fields_in, object_fields_text};
ghost use Rattle.tpm_image_text.specs.Filling.{Fills};
ghost use Rattle.tpm_image_text.specs.Sizes.{object_fields_size, text_size};
ghost use Rattle.tpm_record.specs.Objects.{objects_of};
ghost use Rattle.tpm_state_text.specs.Filling.{FillsPlace};
ghost use Rattle.tpm_state_text.specs.Objects.{transients_in, transients_text};
ghost use Rattle.tpm_state_text.specs.Places.{optional_in, optional_text};
ghost use Rattle.tpm_state_text.specs.Sizes.{transients_size};
ghost use Rattle.tpm_types_common.specs.Limits.{object_limit};

use tpm_bytes::Cursor;
use tpm_containers::Slots;
use tpm_image_text::{
    FillFault, Malformed, Text, read_bool, read_object_fields, write_bool, write_object_fields,
};
use tpm_object::Object;
use tpm_record::objects::Objects;
use tpm_types_common::OBJECT_LIMIT;

/// Reads the object in a slot, or None if the slot is free.
fn read_optional_object(text: &mut Cursor) -> Result<Option<Object>, Malformed>
    ensures { Reads (λ object. object) (optional_in object_fields_in text.old) text.old
        result text.new }
{
    let mut ahead = Cursor::new(text.rest());
    let object = if read_bool(&mut ahead)? {
        Some(read_object_fields(&mut ahead)?)
    } else {
        None
    };
    *text = ahead;
    Ok(object)
}

/// Reads a slot. If it contains an object, stores the object in the same slot of the device,
/// which is still free.
fn read_place<O: Slots<Object, OBJECT_LIMIT>>(
    objects: &mut Objects<O>,
    place: usize,
    text: &mut Cursor,
) -> Result<(), FillFault>
    requires { place < object_limit }
    ensures { FillsPlace O.can_refuse (optional_in object_fields_in text.old)
        (objects_of O.places objects.old) place result (objects_of O.places objects.new) text.new }
{
    let Ok(value) = read_optional_object(text) else {
        return Err(FillFault::Malformed);
    };
    let Some(object) = value else {
        return Ok(());
    };
    objects.put(place, object).map_err(|_| FillFault::NoMemory)
}

/// Reads the transient objects into the slots of a device. All of these slots must be free.
#[tactic(auto, unfolding(crate::specs::Objects::transients_in))]
pub fn read_transients<O: Slots<Object, OBJECT_LIMIT>>(
    objects: &mut Objects<O>,
    text: &mut Cursor,
) -> Result<(), FillFault>
    requires { objects_of O.places objects.old ≡ free object_limit }
    ensures { Fills O.can_refuse (transients_in text.old) (objects_of O.places objects.new)
        result text.new }
{
    for place in 0..OBJECT_LIMIT {
        read_place(objects, place, text)?;
    }
    Ok(())
}

/// Writes the object in a slot, or the byte for a free slot.
fn write_optional_object(object: Option<&Object>, text: &mut Text)
    requires { length text.old + (1 + object_fields_size) ≤ text_size }
    ensures written { text.new ≡ text.old
        ++ optional_text object_fields_text (option_copied object.entry) }
    ensures small { length text.new ≤ length text.old + (1 + object_fields_size) }
{
    match object {
        Some(object) => {
            write_bool(true, text);
            write_object_fields(object, text);
        }
        None => write_bool(false, text),
    }
}

/// Writes the transient objects, slot by slot.
#[tactic(auto, unfolding(crate::specs::Objects::transients_text))]
pub fn write_transients<O: Slots<Object, OBJECT_LIMIT>>(objects: &Objects<O>, text: &mut Text)
    requires { length text.old + transients_size ≤ text_size }
    ensures written { text.new ≡ text.old ++ transients_text (objects_of O.places objects.now) }
    ensures small { length text.new ≤ length text.old + transients_size }
{
    objects.read_sizes();
    for place in 0..OBJECT_LIMIT {
        write_optional_object(objects.in_place(place), text);
    }
}

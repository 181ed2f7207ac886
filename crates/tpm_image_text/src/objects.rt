//! Reads and writes the persistent objects in an image.

ghost use Rattle.tpm_types_common.specs.Limits.{persistent_limit};
ghost use Rattle.tpm_image_text.specs.Sizes.{object_fields_size, object_size, objects_size, text_size};
ghost use Rattle.std.specs.Prelude.{◌≡◌, ◌≤◌, ◌<◌, ◌+◌, ◌*◌, ◌++◌, IfOk, length, true};
ghost use Rattle.tpm_types_common.specs.AuthValue.{trimmed};
ghost use Rattle.tpm_bytes.specs.Reading.{Reads};
ghost use Rattle.tpm_image_text.specs.Body.{ascend_from, handle_in, is_sensitive_of, object_fields_in, object_fields_text, object_in, object_text, objects_in, objects_text, object_hierarchy_in, sensitive_in, sensitive_of};
ghost use Rattle.std.specs.List.{flat_map};
ghost use Rattle.tpm_bytes.specs.Many.{many_at};
ghost use Rattle.tpm_image_text.specs.Fields.{passing};
ghost use Rattle.tpm_image_text.specs.Filling.{AllBelow, Appends, Fills};
ghost use Rattle.tpm_types_common.specs.Handle.{is_persistent};
ghost use Rattle.tpm_record.specs.Persistent.{can_persist, no_persistent};

use crate::fault::{FillFault, Malformed};
use crate::fields::{
    Text, is_trimmed, read_sized, read_structure, read_u16, read_u32, write_sized, write_u16,
    write_u32,
};
use tpm_bytes::Cursor;
use tpm_containers::KeyFault;
use tpm_object::Object;
use tpm_record::PersistentObjects;
use tpm_types_common::{AuthValue, Handle, HierarchyHandle, Octets, PERSISTENT_LIMIT};
use tpm_types_name::Name;
use tpm_types_object::{Public, Sensitive};

/// Whether an object in this hierarchy can be persistent.
fn can_persist(hierarchy: HierarchyHandle) -> bool
    ensures { result ≡ can_persist hierarchy }
{
    match hierarchy {
        HierarchyHandle::Owner | HierarchyHandle::Endorsement | HierarchyHandle::Platform => true,
        HierarchyHandle::Null => false,
    }
}

/// Reads the handle of an object's hierarchy.
#[tactic(auto, unfolding(crate::specs::Body::object_hierarchy_in))]
fn read_object_hierarchy(text: &mut Cursor) -> Result<HierarchyHandle, Malformed>
    ensures { Reads (λ hierarchy. hierarchy) (object_hierarchy_in text.old)
        text.old result text.new }
{
    let mut ahead = Cursor::new(text.rest());
    let handle = Handle {
        number: read_u32(&mut ahead)?,
    };
    let Some(hierarchy) = handle.hierarchy() else {
        return Err(Malformed);
    };
    *text = ahead;
    Ok(hierarchy)
}

/// Reads the handle of a persistent object.
#[tactic(auto, unfolding(crate::specs::Body::handle_in))]
fn read_handle(text: &mut Cursor) -> Result<Handle, Malformed>
    ensures exact { Reads (λ handle. handle) (handle_in text.old) text.old result text.new }
    ensures named { IfOk result (λ handle. is_persistent handle ≡ true) }
{
    let mut ahead = Cursor::new(text.rest());
    let handle = Handle {
        number: read_u32(&mut ahead)?,
    };
    if !handle.is_persistent() {
        return Err(Malformed);
    }
    *text = ahead;
    Ok(handle)
}

/// Whether this sensitive area can belong to a stored object with this public area.
fn is_sensitive_of(public: &Public, sensitive: &Sensitive) -> bool
    ensures value { result ≡ is_sensitive_of public.now sensitive.now }
    ensures same { result ≡ true
        → trimmed sensitive.now.auth_value ≡ sensitive.now.auth_value }
{
    sensitive.object_type.number() == public.object_type().number()
        && is_trimmed(sensitive.auth_value.as_slice())
}

/// Reads the sensitive area of an object with this public area.
#[tactic(auto, unfolding(crate::specs::Body::sensitive_in))]
fn read_sensitive(public: &Public, text: &mut Cursor) -> Result<Sensitive, Malformed>
    ensures exact { Reads (λ sensitive. sensitive) (sensitive_in public.now text.old) text.old
        result text.new }
    ensures same { IfOk result (λ area. trimmed area.auth_value ≡ area.auth_value) }
{
    let mut ahead = Cursor::new(text.rest());
    let sensitive: Sensitive = read_structure(&mut ahead)?;
    if !is_sensitive_of(public, &sensitive) {
        return Err(Malformed);
    }
    *text = ahead;
    Ok(sensitive)
}

/// Reads an object of any hierarchy.
#[tactic(auto, unfolding(crate::specs::Body::object_fields_in))]
pub fn read_object_fields(text: &mut Cursor) -> Result<Object, Malformed>
    ensures { Reads (λ object. object) (object_fields_in text.old) text.old result text.new }
{
    let mut ahead = Cursor::new(text.rest());
    let hierarchy = read_object_hierarchy(&mut ahead)?;
    let qualified_name = Name::of(read_sized(&mut ahead, 34)?);
    let public: Public = read_structure(&mut ahead)?;
    let sensitive = read_sensitive(&public, &mut ahead)?;
    *text = ahead;
    Ok(Object {
        hierarchy,
        public,
        auth_value: AuthValue::of(sensitive.auth_value.as_slice()),
        seed_value: sensitive.seed_value,
        sensitive: sensitive.sensitive,
        qualified_name,
    })
}

/// Reads a persistent object and its handle.
#[tactic(auto, unfolding(crate::specs::Body::object_in))]
fn read_object(text: &mut Cursor) -> Result<(Handle, Object), Malformed>
    ensures exact { Reads (λ e. (e.0.number, e.1)) (object_in text.old) text.old result text.new }
    ensures named { IfOk result (λ e. is_persistent e.0 ≡ true) }
    ensures owned { IfOk result (λ e. can_persist e.1.hierarchy ≡ true) }
{
    let mut ahead = Cursor::new(text.rest());
    let handle = read_handle(&mut ahead)?;
    let object = read_object_fields(&mut ahead)?;
    if !can_persist(object.hierarchy) {
        return Err(Malformed);
    }
    *text = ahead;
    Ok((handle, object))
}

/// Reads an object and adds it to the others. Handles are stored in ascending order: the handle
/// of the object must be at least `lowest`. Returns the lowest handle that the next object may
/// have.
#[tactic(auto, using(crate::proofs::Appending::appended))]
fn add_object<P: PersistentObjects>(
    objects: &mut P,
    lowest: u64,
    text: &mut Cursor,
) -> Result<u64, FillFault>
    requires below { AllBelow lowest (P.entries objects.old) }
    requires room { length (P.entries objects.old) < persistent_limit }
    ensures { Appends P.can_refuse (object_in text.old) lowest (λ e. e.0 < lowest)
        (P.entries objects.old) result (P.entries objects.new) text.new }
{
    let Ok((handle, object)) = read_object(text) else {
        return Err(FillFault::Malformed);
    };
    let number = u64::from(handle.number);
    if number < lowest {
        return Err(FillFault::Malformed);
    }
    match objects.add(handle, object) {
        Ok(()) => Ok(number + 1),
        Err(KeyFault::Taken | KeyFault::Full | KeyFault::NoMemory) => Err(FillFault::NoMemory),
    }
}

/// Reads `count` objects. Each must have a higher handle than the object before it.
fn add_objects<P: PersistentObjects>(
    objects: &mut P,
    count: u16,
    text: &mut Cursor,
) -> Result<(), FillFault>
    requires none { P.entries objects.old ≡ no_persistent }
    requires few { count ≤ persistent_limit }
    ensures { Fills P.can_refuse (passing (ascend_from 0) (many_at object_in count) text.old)
        (P.entries objects.new) result text.new }
{
    let mut lowest = 0;
    for _ in 0..count {
        lowest = add_object(objects, lowest, text)?;
    }
    Ok(())
}

/// Reads the persistent objects into a device that has no persistent objects yet.
#[tactic(auto, unfolding(crate::specs::Body::objects_in))]
pub fn read_objects<P: PersistentObjects>(
    objects: &mut P,
    text: &mut Cursor,
) -> Result<(), FillFault>
    requires { P.entries objects.old ≡ no_persistent }
    ensures { Fills P.can_refuse (objects_in text.old) (P.entries objects.new) result text.new }
{
    let Ok(count) = read_u16(text) else {
        return Err(FillFault::Malformed);
    };
    if usize::from(count) > PERSISTENT_LIMIT {
        return Err(FillFault::Malformed);
    }
    add_objects(objects, count, text)
}

/// Writes an object.
#[tactic(auto, unfolding(crate::specs::Body::object_fields_text))]
pub fn write_object_fields(object: &Object, text: &mut Text)
    requires { length text.old + object_fields_size ≤ text_size }
    ensures written { text.new ≡ text.old ++ object_fields_text object.now }
    ensures small { length text.new ≤ length text.old + object_fields_size }
{
    let sensitive = Sensitive {
        object_type: object.public.object_type(),
        auth_value: Octets::of(object.auth_value.as_slice()),
        seed_value: object.seed_value.copy(),
        sensitive: object.sensitive.copy(),
    };
    write_u32(object.hierarchy.handle().number, text);
    write_sized(object.qualified_name.as_slice(), 34, text);
    write_sized(object.public.text().as_slice(), 82, text);
    write_sized(sensitive.text().as_slice(), 200, text);
}

/// Writes a persistent object and its handle.
#[tactic(auto, unfolding(crate::specs::Body::object_text))]
fn write_object(entry: &(u32, Object), text: &mut Text)
    requires { length text.old + object_size ≤ text_size }
    ensures written { text.new ≡ text.old ++ object_text entry.now }
    ensures small { length text.new ≤ length text.old + object_size }
{
    let (number, object) = entry;
    write_u32(*number, text);
    write_object_fields(object, text);
}

/// Writes objects and their handles, one after another.
fn write_entries(entries: &[(u32, Object)], text: &mut Text)
    requires few { length entries.now ≤ persistent_limit }
    requires room { length text.old + persistent_limit * object_size ≤ text_size }
    ensures written { text.new ≡ text.old ++ flat_map object_text entries.now }
    ensures small { length text.new ≤ length text.old + object_size * length entries.now }
{
    for entry in entries {
        write_object(entry, text);
    }
}

/// Writes the persistent objects.
#[tactic(auto, unfolding(crate::specs::Body::objects_text))]
pub fn write_objects<P: PersistentObjects>(objects: &P, text: &mut Text)
    requires { length text.old + objects_size ≤ text_size }
    ensures written { text.new ≡ text.old ++ objects_text (P.entries objects.now) }
    ensures small { length text.new ≤ length text.old + objects_size }
{
    objects.read_sizes();
    write_u16(objects.len() as u16, text);
    write_entries(objects.as_slice(), text);
}

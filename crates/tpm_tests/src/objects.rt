//! Tests of the areas of objects, and of the objects made from them. Each public function is called
//! once. Python's `hashlib` and `hmac` computed the expected Name.

use super::comparison::check;
use arrayvec::ArrayVec;
use tpm_bytes::{Cursor, Sink};
use tpm_mac::HashAlg;
use tpm_object::{
    CreationFault, Object, TemplateFault, check_creation, check_template, create, derive_primary,
    drawn_by, is_storage_parent, unwrap, wrap,
};
use tpm_types_common::HierarchyHandle;
use tpm_types_name::Name;
use tpm_types_object::{CreationData, Public, Sensitive, SensitiveCreate};

/// The owner seed of a device that is manufactured with the random bytes 00 to ff.
const SEED: &[u8; 32] = b"\x00\x01\x02\x03\x04\x05\x06\x07\x08\x09\x0a\x0b\x0c\x0d\x0e\x0f\
    \x10\x11\x12\x13\x14\x15\x16\x17\x18\x19\x1a\x1b\x1c\x1d\x1e\x1f";

/// The public area of an HMAC key for SHA-256, in a sized buffer.
const KEY: &[u8] = b"\0\x10\0\x08\0\x0b\0\x04\x04\x40\0\0\0\x05\0\x0b\0\0";

/// The public area of a storage key, in a sized buffer.
const STORAGE: &[u8] = b"\0\x12\0\x25\0\x0b\0\x03\0\x72\0\0\0\x06\0\x80\0\x43\0\0";

/// The parameter inSensitive, in a sized buffer: an empty authorization value, and the key "Jefe".
const JEFE: &[u8] = b"\0\x08\0\0\0\x04Jefe";

/// The parameter inSensitive, in a sized buffer, with an empty authorization value and an empty
/// key.
const NOTHING: &[u8] = b"\0\x04\0\0\0\0";

/// The Name of the HMAC key that is derived from `SEED`.
const NAME: &[u8] = b"\x00\x0b\x42\xa3\x3b\x43\xc0\xf6\x6b\x39\x4f\x97\x10\x5e\x96\x92\x5d\x1f\
    \xa1\xd9\xf0\x3f\x3a\xa8\xf2\xaf\x35\xa5\xfe\x87\x06\x03\x1f\x5e";

fn public_of(text: &[u8]) -> Option<Public> {
    Public::read_sized(&mut Cursor::new(text)).ok()
}

fn given_of(text: &[u8]) -> Option<SensitiveCreate> {
    SensitiveCreate::read_sized(&mut Cursor::new(text)).ok()
}

/// The primary object that is derived from a template and an inSensitive.
fn primary_of(template: &[u8], given: &[u8]) -> Option<Object> {
    let (template, given) = (public_of(template)?, given_of(given)?);
    Some(derive_primary(HierarchyHandle::Owner, SEED, &template, &given))
}

/// The public area decoded from these bytes, and encoded again without its size.
fn rewritten_public(text: &[u8]) -> Option<ArrayVec<u8, 82>> {
    let mut sink = Sink::new();
    public_of(text)?.copy().write(&mut sink).ok()?;
    Some(sink.into_bytes())
}

/// The sensitive area decoded from these bytes, and encoded again without its size.
fn rewritten_sensitive(text: &[u8]) -> Option<ArrayVec<u8, 200>> {
    let area = Sensitive::read_sized(&mut Cursor::new(text)).ok()?;
    let mut sink = Sink::new();
    area.copy().write(&mut sink).ok()?;
    Some(sink.into_bytes())
}

/// The creation data decoded from these bytes, and encoded again without their size.
fn rewritten_creation(text: &[u8]) -> Option<ArrayVec<u8, 245>> {
    let creation = CreationData::read_sized(&mut Cursor::new(text)).ok()?;
    let mut sink = Sink::new();
    creation.write(&mut sink).ok()?;
    Some(sink.into_bytes())
}

fn is_rest<const N: usize>(bytes: Option<ArrayVec<u8, N>>, text: &[u8]) -> bool {
    match bytes {
        Some(bytes) => text.len() > 2 && bytes.as_slice() == &text[2..],
        None => false,
    }
}

#[test]
fn structures_are_written_as_they_were_read(rt: HostRuntime) {
    check(&rt, is_rest(rewritten_public(KEY), KEY), true);
    check(&rt, is_rest(rewritten_public(STORAGE), STORAGE), true);
    let area = b"\0\x0b\0\x08\0\x01a\0\0\0\x02bc";
    check(&rt, is_rest(rewritten_sensitive(area), area), true);
    let creation = b"\0\x13\0\0\0\0\0\0\x01\0\x10\0\x01n\0\x01q\0\x02oi";
    check(&rt, is_rest(rewritten_creation(creation), creation), true);
}

/// Whether the object and its copy have this Name.
fn is_named(object: Option<Object>, name: &[u8]) -> bool {
    match object {
        Some(object) => {
            object.name().as_slice() == name && object.copy().name().as_slice() == name
        }
        None => false,
    }
}

#[test]
fn a_primary_object_has_the_name_that_was_computed_outside(rt: HostRuntime) {
    check(&rt, is_named(primary_of(KEY, JEFE), NAME), true);
    check(&rt, is_named(primary_of(STORAGE, NOTHING), NAME), false);
}

/// Whether the template is refused, and whether the inSensitive is refused.
fn faults_of(template: &[u8], given: &[u8]) -> Option<(bool, bool)> {
    let (template, given) = (public_of(template)?, given_of(given)?);
    let is_fixed_wrongly = check_template(&template, false) == Err(TemplateFault::Attributes);
    let has_no_key = check_creation(&given, &template) == Err(CreationFault::Attributes);
    Some((is_fixed_wrongly, has_no_key))
}

#[test]
fn templates_are_checked(rt: HostRuntime) {
    check(&rt, faults_of(KEY, JEFE), Some((false, false)));
    check(&rt, faults_of(STORAGE, JEFE), Some((true, true)));
    check(&rt, faults_of(KEY, NOTHING), Some((false, true)));
}

/// Whether a created sensitive area, wrapped by a storage key, can be unwrapped with its own public
/// area, but not with the template.
fn is_unwrapped() -> Option<bool> {
    let parent = primary_of(STORAGE, NOTHING)?;
    let (template, given) = (public_of(KEY)?, given_of(JEFE)?);
    let created = create(&template, &given, &[7; 256]);
    let private = wrap(&parent, &created.public, &created.sensitive, &[9; 16]);
    let area = unwrap(&parent, &created.public, private.as_slice()).ok()?;
    let is_same = area.sensitive.is_same(b"Jefe");
    let is_refused = unwrap(&parent, &template, private.as_slice()).is_err();
    let drawn = drawn_by(&template, &given);
    Some(is_same && is_refused && drawn == 32 && is_storage_parent(&parent.public))
}

#[test]
fn what_is_wrapped_is_unwrapped(rt: HostRuntime) {
    check(&rt, is_unwrapped(), Some(true));
    let name = Name::qualified(HashAlg::Sha1, b"\x40\0\0\x01", NAME);
    check(&rt, name.as_slice().len(), 22);
}

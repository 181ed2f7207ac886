//! Tests of the contexts for two HMAC keys in the owner hierarchy; one of the keys has stClear set.
//! Python's `hashlib`, `hmac` and `cryptography` computed the contexts.

use std::process::Abort;
use tpm_bytes::{Cursor, Sink};
use tpm_context::{Binding, CONTEXT_SIZE, ContextFault, open, seal};
use tpm_object::Object;
use tpm_record::Hierarchies;
use tpm_types_common::HierarchyHandle;
use tpm_types_object::{Public, Sensitive};

/// Aborts the test if the actual value is not the expected value.
pub fn check<R: Abort, T: PartialEq + Drop>(rt: &R, found: T, wanted: T) {
    assert!(rt; found == wanted);
}

/// The public area of each key, in a sized buffer.
pub const KEY: &[u8] = b"\0\x10\0\x08\0\x0b\0\x04\x04\x40\0\0\0\x05\0\x0b\0\0";

const ST_CLEAR_KEY: &[u8] = b"\0\x10\0\x08\0\x0b\0\x04\x04\x44\0\0\0\x05\0\x0b\0\0";

/// The sensitive area of both keys, in a sized buffer.
const SENSITIVE: &[u8] = b"\0\x0f\0\x08\0\x01a\0\x02sd\0\x04Jefe";

/// The numbers to which the contexts are bound.
pub const BINDING: Binding = Binding {
    start: 0x1122_3344_5566_7788,
    reset_count: 3,
    restart_count: 5,
};

/// The first context with `BINDING`: the context of the key without stClear.
pub const CONTEXT: &[u8] =
    b"\x00\x00\x00\x00\x00\x00\x00\x01\x80\x00\x00\x00\x40\x00\x00\x01\x00\x6d\x00\x20\
    \xb1\x9c\x79\xc3\xbd\x74\x4f\x40\x25\xd6\x20\x0d\x32\x8b\x3e\x65\x51\x2e\x9e\x6d\
    \x3d\x28\x11\x7e\xa7\xf5\x51\x52\x33\x34\x41\x92\xaa\xed\x5d\x5b\xb3\x02\x95\x60\
    \xa5\x48\x98\x67\x8a\x62\xcb\x82\x93\xe5\xb5\x5e\xe6\x05\xa0\x29\x22\x94\xcd\x78\
    \x5a\x61\x35\x02\x00\x82\x38\xfe\xa4\x63\x0f\x8b\xa2\x1b\x1e\x6c\xda\x1e\x1a\xb7\
    \x01\xed\x1b\x04\xd6\x6a\x3c\x7c\x12\xe4\x45\xa1\x77\xaf\xc6\xdc\x89\x0b\x2c\x79\
    \xd2\x4e\x88\x7e\x7c\xbf\xd2";

/// The second context with `BINDING`: the context of the key with stClear.
const ST_CLEAR_CONTEXT: &[u8] =
    b"\x00\x00\x00\x00\x00\x00\x00\x02\x80\x00\x00\x02\x40\x00\x00\x01\x00\x6d\x00\x20\
    \xe0\x1c\xf9\xb0\x99\xce\xf2\x97\xd5\xf9\xd1\xff\x55\xd8\x39\x2d\x8c\x4a\xc9\x8f\
    \xb1\xee\x96\xac\x0a\x98\x88\xf7\x60\x42\x3a\x51\xf4\xdb\xb0\x2e\x98\x7a\x4e\x38\
    \x4c\x5a\x1d\x78\x2c\x80\x18\xad\x0c\x5b\x8e\x39\x64\x25\x33\xb6\xb5\xc2\x39\xad\
    \xf8\xf2\x99\x06\x3d\x92\x33\x6a\x6a\xe6\x2b\x8e\x06\x62\xc5\x9b\x4a\x0a\x7e\xf2\
    \x1d\x1e\x9e\x25\x48\xda\xa6\x75\xb6\xc1\x37\x7c\x05\x05\xb7\xab\x39\xc3\xed\xca\
    \x15\x8e\xd6\x44\xf2\xeb\x55";

/// The hierarchies of a device that was manufactured from random bytes that all have this value.
/// Therefore all bytes of the device's proofs have this value, too.
pub fn hierarchies(value: u8) -> Hierarchies {
    Hierarchies::manufactured(&[value; 256])
}

/// The primary key with this public area, in the owner hierarchy.
pub fn key_of(public: &[u8]) -> Option<Object> {
    let public = Public::read_sized(&mut Cursor::new(public)).ok()?;
    let sensitive = Sensitive::read_sized(&mut Cursor::new(SENSITIVE)).ok()?;
    let owner = HierarchyHandle::Owner;
    Some(Object::loaded(owner, public, &sensitive, b"\x40\0\0\x01"))
}

/// Whether saving the key with this sequence number yields this context.
fn is_sealed(public: &[u8], sequence: u64, context: &[u8]) -> bool {
    let Some(object) = key_of(public) else {
        return false;
    };
    let mut text: Sink<CONTEXT_SIZE> = Sink::new();
    seal(&hierarchies(7), BINDING, sequence, &object, &mut text);
    text.as_slice() == context
}

#[test]
fn a_context_is_the_one_that_was_computed_outside(rt: HostRuntime) {
    check(&rt, is_sealed(KEY, 1, CONTEXT), true);
    check(&rt, is_sealed(ST_CLEAR_KEY, 2, ST_CLEAR_CONTEXT), true);
}

/// Whether opening the context yields the key with this public area.
fn is_opened(context: &[u8], binding: Binding, public: &[u8]) -> bool {
    let (Some(wanted), Ok(object)) = (key_of(public), open(&hierarchies(7), binding, context))
    else {
        return false;
    };
    object.name().as_slice() == wanted.name().as_slice()
        && object.qualified_name.as_slice() == wanted.qualified_name.as_slice()
        && object.sensitive.is_same(b"Jefe")
}

#[test]
fn a_context_opens_as_its_object(rt: HostRuntime) {
    check(&rt, is_opened(CONTEXT, BINDING, KEY), true);
    check(
        &rt,
        is_opened(ST_CLEAR_CONTEXT, BINDING, ST_CLEAR_KEY),
        true,
    );
}

/// Opens the context, and returns the fault, or None on success.
fn fault_of(context: &[u8], binding: Binding) -> Option<ContextFault> {
    open(&hierarchies(7), binding, context).err()
}

pub fn bound_to(start: u64, reset_count: u32, restart_count: u32) -> Binding {
    Binding {
        start,
        reset_count,
        restart_count,
    }
}

#[test]
fn a_context_is_bound_to_the_start_and_the_counts(rt: HostRuntime) {
    let restarted = bound_to(BINDING.start, 3, 6);
    let reset = bound_to(BINDING.start, 4, 5);
    let started = bound_to(0, 3, 5);
    check(&rt, fault_of(CONTEXT, restarted), None);
    for (context, binding) in [
        (CONTEXT, reset),
        (CONTEXT, started),
        (ST_CLEAR_CONTEXT, restarted),
    ] {
        check(
            &rt,
            fault_of(context, binding),
            Some(ContextFault::Integrity),
        );
    }
}

/// Replaces the byte at `place` in the key's context, opens the result, and returns the fault.
fn fault_with(place: usize, byte: u8) -> Option<ContextFault> {
    let mut bytes = [0; 127];
    bytes.copy_from_slice(CONTEXT);
    bytes[place.min(126)] = byte;
    fault_of(&bytes, BINDING)
}

#[test]
fn a_context_is_bound_to_the_proof(rt: HostRuntime) {
    let fault = open(&hierarchies(8), BINDING, CONTEXT).err();
    check(&rt, fault, Some(ContextFault::Integrity));
}

#[test]
fn another_context_is_refused(rt: HostRuntime) {
    check(
        &rt,
        fault_of(&CONTEXT[..126], BINDING),
        Some(ContextFault::Truncated),
    );
    check(
        &rt,
        fault_of(&CONTEXT[..3], BINDING),
        Some(ContextFault::Truncated),
    );
    for (place, byte, fault) in [
        (0, 1, ContextFault::Integrity),
        (11, 1, ContextFault::Integrity),
        (11, 3, ContextFault::SavedHandle),
        (11, 2, ContextFault::Integrity),
        (15, 0, ContextFault::Hierarchy),
        (15, 7, ContextFault::Integrity),
        (16, 0xff, ContextFault::Size),
        (17, 0x6c, ContextFault::Size),
        (19, 0x1f, ContextFault::Size),
        (20, 0, ContextFault::Integrity),
        (126, 0, ContextFault::Integrity),
    ] {
        check(&rt, fault_with(place, byte), Some(fault));
    }
}

#[test]
fn each_fault_has_its_code(rt: HostRuntime) {
    for (fault, code) in [
        (ContextFault::Truncated, 0x1da),
        (ContextFault::Size, 0x1d5),
        (ContextFault::SavedHandle, 0x1cb),
        (ContextFault::Hierarchy, 0x1c4),
        (ContextFault::Integrity, 0x1df),
    ] {
        check(&rt, fault.rc().number(), code);
    }
}

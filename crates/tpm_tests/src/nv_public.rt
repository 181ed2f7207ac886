//! Tests of the public areas of NV indices. Each public function is called once. Python's `hashlib`
//! computed the expected Names.

use super::comparison::check;
use arrayvec::ArrayVec;
use tpm_bytes::{Cursor, Sink};
use tpm_types_common::ResponseCode;
use tpm_types_nv::{NvAttribute, NvAttributes, NvPublic, NvType};

/// The public area of an ordinary index of eight bytes with nameAlg SHA-256, in a sized buffer.
const ORDINARY: &[u8] = b"\0\x0e\x01\0\0\x01\0\x0b\0\x04\0\x04\0\0\0\x08";

/// The Name of the index `ORDINARY`.
const ORDINARY_NAME: &[u8] = b"\x00\x0b\xc6\x28\x87\x6e\xb0\x6c\xbf\xae\xb9\x4f\x49\xb1\x80\xab\
    \x06\xf3\xf9\xef\xee\x52\x92\x9d\x18\xb5\xe8\x08\xa4\xbc\x62\x3e\xb0\xa0";

/// The public area of a written index with nameAlg SHA-1 and a policy of twenty bytes, in a sized
/// buffer.
const WITH_POLICY: &[u8] = b"\0\x22\x01\xc0\0\x02\0\x04\x62\x04\0\x04\
    \0\x14\x11\x11\x11\x11\x11\x11\x11\x11\x11\x11\x11\x11\x11\x11\x11\x11\x11\x11\x11\x11\0\x20";

/// The Name of the index `WITH_POLICY`.
const WITH_POLICY_NAME: &[u8] =
    b"\x00\x04\x02\xf4\x4e\x4c\x68\x69\xcb\x4d\xd3\xfd\x0a\x38\x8e\xfa\x8b\x8d\xb7\xe2\x19\x93";

fn public_of(text: &[u8]) -> Option<NvPublic> {
    NvPublic::read_sized(&mut Cursor::new(text)).ok()
}

/// The public area decoded from these bytes, and encoded again with its size.
fn rewritten(text: &[u8]) -> Option<ArrayVec<u8, 48>> {
    let mut sink = Sink::new();
    public_of(text)?.copy().write_sized(&mut sink).ok()?;
    Some(sink.into_bytes())
}

/// The public area decoded from these bytes, and encoded again without its size.
fn rewritten_bare(text: &[u8]) -> Option<ArrayVec<u8, 46>> {
    let mut sink = Sink::new();
    public_of(text)?.write(&mut sink).ok()?;
    Some(sink.into_bytes())
}

fn is_rewritten(text: &[u8]) -> bool {
    match (rewritten(text), rewritten_bare(text)) {
        (Some(sized), Some(bare)) => {
            text.len() > 2 && sized.as_slice() == text && bare.as_slice() == &text[2..]
        }
        _ => false,
    }
}

fn has_name(text: &[u8], name: &[u8]) -> bool {
    match public_of(text) {
        Some(public) => tpm_name::of_nv(&public).as_slice() == name,
        None => false,
    }
}

/// The error when a public area without its size is decoded, or None if it is accepted.
fn fault_of(text: &[u8]) -> Option<ResponseCode> {
    match NvPublic::read(&mut Cursor::new(text)) {
        Ok(_) => None,
        Err(rc) => Some(rc.code),
    }
}

#[test]
fn public_areas_are_written_as_they_were_read(rt: HostRuntime) {
    check(&rt, is_rewritten(ORDINARY), true);
    check(&rt, is_rewritten(WITH_POLICY), true);
}

#[test]
fn names_are_those_computed_outside(rt: HostRuntime) {
    check(&rt, has_name(ORDINARY, ORDINARY_NAME), true);
    check(&rt, has_name(WITH_POLICY, WITH_POLICY_NAME), true);
}

#[test]
fn public_areas_are_refused(rt: HostRuntime) {
    check(
        &rt,
        fault_of(b"\x02\0\0\x01\0\x0b\0\x04\0\x04\0\0\0\x08"),
        Some(ResponseCode::Value),
    );
    check(
        &rt,
        fault_of(b"\x01\0\0\x01\0\x0c\0\x04\0\x04\0\0\0\x08"),
        Some(ResponseCode::Hash),
    );
    check(
        &rt,
        fault_of(b"\x01\0\0\x01\0\x0b\0\x14\0\x04\0\0\0\x08"),
        Some(ResponseCode::ReservedBits),
    );
    check(
        &rt,
        fault_of(b"\x01\0\0\x01\0\x0b\0\x04\0\x04\0\0\0"),
        Some(ResponseCode::Insufficient),
    );
}

#[test]
fn attributes_have_bits_and_a_type(rt: HostRuntime) {
    let counter = NvAttributes { bits: 0x0004_0014 };
    check(&rt, counter.index_type(), Some(NvType::Counter));
    check(&rt, NvAttributes { bits: 0x30 }.index_type(), None);
    check(
        &rt,
        NvType::named(NvType::Extend.number()),
        Some(NvType::Extend),
    );
    check(&rt, counter.is_of(NvType::Counter), true);
    check(&rt, counter.has(NvAttribute::AuthRead), true);
    check(&rt, counter.with(NvAttribute::Written).bits, 0x2004_0014);
    check(
        &rt,
        counter.without(NvAttribute::AuthWrite).bits,
        0x0004_0010,
    );
    check(&rt, NvAttribute::ReadStClear.bit(), 31);
}

//! Tests of NV indices. Each call is made once, with lists and with fixed slots. Python's `hashlib`
//! computed the expected digest.

use super::comparison::check;
use std::alloc::Global;
use std::process::Abort;
use tpm_bytes::{Cursor, Sink};
use tpm_mac::HashAlg;
use tpm_nv::{
    DefineFault, DefinitionFault, Indices, ListIndices, LockFault, ReadFault, RestoreFault,
    WriteFault, check_definition,
};
use tpm_slots::IndexPlaces;
use tpm_types_common::{AuthValue, Handle, Octets};
use tpm_types_nv::{NvAttributes, NvPublic};

const FIRST: Handle = Handle {
    number: 0x0100_0001,
};

const SECOND: Handle = Handle {
    number: 0x0100_0002,
};

/// An ordinary index of eight bytes that can be written and read with its authorization value.
const ORDINARY: &[u8] = b"\x01\0\0\x01\0\x0b\0\x04\0\x04\0\0\0\x08";

/// A counter that can be locked against reading until the next startup.
const COUNTER: &[u8] = b"\x01\0\0\x02\0\x0b\x80\x04\0\x14\0\0\0\x08";

/// A bit field that can be locked against writing until the next startup, and that a startup
/// clears.
const BITS: &[u8] = b"\x01\0\0\x01\0\x0b\x08\x04\x40\x24\0\0\0\x08";

/// An index that can be extended, with nameAlg SHA-1.
const EXTENDED: &[u8] = b"\x01\0\0\x01\0\x04\0\x04\0\x44\0\0\0\x14";

/// An ordinary index whose public area has the attribute WRITTEN set.
const WRITTEN: &[u8] = b"\x01\0\0\x01\0\x0b\x20\x04\0\x04\0\0\0\x08";

/// The public area of a handle that is not that of an index.
fn of_another_handle() -> NvPublic {
    NvPublic {
        nv_index: Handle::OWNER,
        name_alg: HashAlg::Sha256,
        attributes: NvAttributes { bits: 0x0004_0004 },
        auth_policy: Octets::empty(),
        data_size: 8,
    }
}

/// Defines and restores what is not an index.
fn other_handles<N: Indices>(rt: &impl Abort, indices: &mut N) {
    let defined = indices.define(of_another_handle(), AuthValue::empty());
    check(rt, defined, Err(DefineFault::Public));
    let restored = indices.restore(of_another_handle(), AuthValue::empty(), b"");
    check(rt, restored, Err(RestoreFault::Public));
    let mut index = of_another_handle();
    index.nv_index = FIRST;
    let restored = indices.restore(index, AuthValue::empty(), b"unwritten");
    check(rt, restored, Err(RestoreFault::DataSize));
}

/// A counter of four bytes.
const SHORT_COUNTER: &[u8] = b"\x01\0\0\x02\0\x0b\0\x04\0\x14\0\0\0\x04";

/// The SHA-1 digest of twenty zero bytes followed by "abc".
const DIGEST: &[u8] =
    b"\x82\x6e\xb4\x34\xa3\xb9\x98\xd5\x2e\x8f\x8d\x6f\xf9\x74\x18\xcb\x60\xd5\x25\x6e";

/// The outcome of defining an index: the bytes are not a public area, a check failed, or the call
/// returned a result.
#[derive(Clone, Copy, PartialEq, Eq)]
enum Outcome {
    Unread,
    Refused(DefinitionFault),
    Answered(Result<(), DefineFault>),
}

/// Defines the index with this public area and the authorization value "a".
fn defined<N: Indices>(indices: &mut N, text: &[u8]) -> Outcome {
    let Ok(public) = NvPublic::read(&mut Cursor::new(text)) else {
        return Outcome::Unread;
    };
    match check_definition(&public, 1, false) {
        Ok(()) => Outcome::Answered(indices.define(public, AuthValue::of(b"a"))),
        Err(fault) => Outcome::Refused(fault),
    }
}

/// Defines the index with this public area, without checking the area first.
fn defined_unchecked<N: Indices>(indices: &mut N, text: &[u8]) -> Option<Result<(), DefineFault>> {
    match NvPublic::read(&mut Cursor::new(text)) {
        Ok(public) => Some(indices.define(public, AuthValue::of(b"a"))),
        Err(_) => None,
    }
}

fn is_read<N: Indices>(indices: &N, handle: Handle, size: u16, bytes: &[u8]) -> bool {
    match indices.read(handle, 0, size) {
        Ok(read) => read == bytes,
        Err(_) => false,
    }
}

/// The fault of reading the first byte of an index, or None if the read succeeds.
fn read_fault<N: Indices>(indices: &N, handle: Handle) -> Option<ReadFault> {
    indices.read(handle, 0, 1).err()
}

fn has_auth<N: Indices>(indices: &N, handle: Handle, bytes: &[u8]) -> bool {
    match indices.auth(handle) {
        Some(value) => value.is_same(bytes),
        None => false,
    }
}

/// Whether an index has the public area that these bytes encode.
fn has_public<N: Indices>(indices: &N, handle: Handle, text: &[u8]) -> bool {
    let mut sink: Sink<46> = Sink::new();
    match indices.public(handle) {
        Some(area) => area.write(&mut sink).is_ok() && sink.as_slice() == text,
        None => false,
    }
}

/// Defines indices. Some definitions are refused, and one succeeds.
fn definitions<N: Indices>(rt: &impl Abort, indices: &mut N) {
    check(
        rt,
        defined_unchecked(indices, WRITTEN),
        Some(Err(DefineFault::Written)),
    );
    check(
        rt,
        defined_unchecked(indices, SHORT_COUNTER),
        Some(Err(DefineFault::DataSize)),
    );
    other_handles(rt, indices);
    check(rt, indices.next(Handle::default()), None);
    check(rt, defined(indices, ORDINARY), Outcome::Answered(Ok(())));
    check(
        rt,
        defined(indices, ORDINARY),
        Outcome::Answered(Err(DefineFault::Defined)),
    );
    check(rt, has_public(indices, FIRST, ORDINARY), true);
    check(rt, has_public(indices, SECOND, ORDINARY), false);
}

/// Writes to an ordinary index. Some writes are refused.
fn writes<N: Indices>(rt: &impl Abort, indices: &mut N) {
    check(
        rt,
        read_fault(indices, FIRST),
        Some(ReadFault::Uninitialized),
    );
    check(rt, indices.write(FIRST, 2, b"\x5a"), Ok(()));
    check(
        rt,
        is_read(indices, FIRST, 8, b"\xff\xff\x5a\xff\xff\xff\xff\xff"),
        true,
    );
    check(
        rt,
        indices.write(FIRST, 1, b"abcdefgh"),
        Err(WriteFault::PastData),
    );
    check(rt, indices.lock_write(FIRST), Err(LockFault::Attributes));
    check(rt, indices.increment(FIRST), Err(WriteFault::Attributes));
    check(
        rt,
        indices.write(SECOND, 0, b"a"),
        Err(WriteFault::Undefined),
    );
}

/// Changes the authorization value of an index, and removes the index.
fn changes<N: Indices>(rt: &impl Abort, indices: &mut N) {
    check(rt, has_auth(indices, FIRST, b"a"), true);
    check(rt, indices.change_auth(FIRST, AuthValue::of(b"bc")), Ok(()));
    check(rt, has_auth(indices, FIRST, b"bc"), true);
    check(rt, indices.next(Handle::default()), Some(FIRST.number));
    check(rt, indices.undefine(FIRST), true);
    check(rt, indices.undefine(FIRST), false);
}

/// Increments a counter, starting from the largest count so far, and sets bits in a bit field.
fn counts<N: Indices>(rt: &impl Abort, indices: &mut N) {
    check(rt, defined(indices, COUNTER), Outcome::Answered(Ok(())));
    indices.set_max_count(7);
    check(rt, indices.increment(SECOND), Ok(()));
    check(rt, defined(indices, BITS), Outcome::Answered(Ok(())));
    check(rt, indices.increment(SECOND), Ok(()));
    check(rt, is_read(indices, SECOND, 8, b"\0\0\0\0\0\0\0\x09"), true);
    check(rt, indices.max_count(), 9);
    check(rt, indices.set_bits(FIRST, 0x0102), Ok(()));
    check(rt, indices.set_bits(FIRST, 0x0201), Ok(()));
    check(
        rt,
        is_read(indices, FIRST, 8, b"\0\0\0\0\0\0\x03\x03"),
        true,
    );
}

/// Locks indices until the next startup, which leaves a counter unchanged and clears a bit field.
fn locks<N: Indices>(rt: &impl Abort, indices: &mut N) {
    check(rt, indices.lock_write(FIRST), Ok(()));
    check(rt, indices.set_bits(FIRST, 1), Err(WriteFault::Locked));
    check(rt, indices.lock_read(SECOND), Ok(()));
    check(rt, read_fault(indices, SECOND), Some(ReadFault::Locked));
    indices.startup();
    check(
        rt,
        read_fault(indices, FIRST),
        Some(ReadFault::Uninitialized),
    );
    check(rt, indices.set_bits(FIRST, 1), Ok(()));
    check(rt, is_read(indices, SECOND, 8, b"\0\0\0\0\0\0\0\x09"), true);
    check(rt, indices.undefine(FIRST), true);
    check(rt, is_read(indices, SECOND, 8, b"\0\0\0\0\0\0\0\x09"), true);
    indices.read_sizes();
}

/// Extends an index.
fn extends<N: Indices>(rt: &impl Abort, indices: &mut N) {
    check(rt, defined(indices, EXTENDED), Outcome::Answered(Ok(())));
    check(rt, indices.extend(FIRST, b"abc"), Ok(()));
    check(rt, is_read(indices, FIRST, 20, DIGEST), true);
}

/// Tests an ordinary index from its definition to its removal.
fn ordinary<N: Indices>(rt: &impl Abort, mut indices: N) {
    definitions(rt, &mut indices);
    writes(rt, &mut indices);
    changes(rt, &mut indices);
}

/// Tests a counter and a bit field.
fn counters<N: Indices>(rt: &impl Abort, mut indices: N) {
    counts(rt, &mut indices);
    locks(rt, &mut indices);
}

/// Makes each call on NV indices that are stored in `N`. A function with a specific `N` is slow to
/// prove. Therefore this function is generic, and two other functions call it, each with a specific
/// `N`.
fn exercise<N: Indices, R: Abort>(rt: &R, alloc: Global) {
    ordinary(rt, N::new(alloc));
    counters(rt, N::new(alloc));
    extends(rt, &mut N::new(alloc));
}

#[test]
fn in_lists(rt: HostRuntime) {
    exercise::<ListIndices, HostRuntime>(&rt, rt.alloc());
}

#[test]
fn in_fixed_places(rt: HostRuntime) {
    exercise::<IndexPlaces, HostRuntime>(&rt, rt.alloc());
}

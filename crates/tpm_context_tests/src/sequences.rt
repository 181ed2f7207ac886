//! Tests of the context of a SHA-256 hash sequence with the authorization value "pw" and the data
//! "abc". Python's `hashlib`, `hmac` and `cryptography` computed the context.

use crate::contexts::{BINDING, CONTEXT, bound_to, check, hierarchies};
use tpm_bytes::Sink;
use tpm_context::{Binding, CONTEXT_SIZE, ContextFault, open, open_sequence, seal_sequence};
use tpm_mac::HashAlg;
use tpm_sequence::{Sequence, SequenceObject};

/// The third context with `BINDING`.
const SEQUENCE_CONTEXT: &[u8] =
    b"\x00\x00\x00\x00\x00\x00\x00\x03\x80\x00\x00\x01\x40\x00\x00\x07\x00\xae\x00\x20\
    \x0a\xa7\x9b\x06\x5e\x34\x7b\x22\x23\xf8\xa7\x58\x44\x99\x03\x10\x39\x71\x32\x98\
    \x98\x4f\x78\x35\x56\xc5\xf8\x60\x86\x47\xea\x7c\xc9\xfe\x69\x99\xc9\x87\xee\x57\
    \xb1\xb1\x49\x0a\x52\xdc\x87\x40\xe4\x3c\xe9\x6d\x28\x27\xad\xdb\x41\x28\x89\x41\
    \xaf\x8e\x96\x4b\x0d\x13\x80\xb8\x72\x6e\x39\x01\x24\x7f\x01\xe4\xb3\xaf\x3a\x89\
    \xd9\x34\xef\xe2\x52\xf4\xa5\xeb\x8f\x66\x44\x33\x8c\xb7\x8c\xfc\x1f\x6f\x33\x48\
    \x25\x5a\x30\xe5\xa9\xac\x68\x80\xc1\x0b\x29\xa7\x0e\x8d\x45\x51\x65\x33\xba\x53\
    \xe5\x6b\xab\x6c\x5f\x4e\x8d\x91\xae\x2b\xd2\x94\x8d\x93\x31\xb3\xef\xec\x71\x63\
    \x0b\x83\xfb\xe9\x91\x0c\xe6\x40\xa5\x53\xfe\xd5\xf6\x97\xb9\xeb\xad\x22\xd1\xff\
    \x5c\x34\x00\xf2\x9e\x0f\xb3\xf8\x43\xf6\xaa\x39";

/// The sequence object after it has absorbed its data.
fn sequence() -> SequenceObject {
    let mut object = SequenceObject::new(b"pw", Sequence::hash(HashAlg::Sha256));
    object.update(b"abc");
    object
}

/// Opens the context as that of a sequence object, and returns the fault, or None on success.
fn fault_of(context: &[u8], binding: Binding) -> Option<ContextFault> {
    open_sequence(&hierarchies(7), binding, context).err()
}

#[test]
fn a_sequence_context_is_the_one_that_was_computed_outside(rt: HostRuntime) {
    let mut text: Sink<CONTEXT_SIZE> = Sink::new();
    seal_sequence(&hierarchies(7), BINDING, 3, &sequence(), &mut text);
    check(&rt, text.as_slice() == SEQUENCE_CONTEXT, true);
}

#[test]
fn a_sequence_context_opens_as_its_sequence_object(rt: HostRuntime) {
    let found = open_sequence(&hierarchies(7), BINDING, SEQUENCE_CONTEXT).ok();
    check(&rt, found == Some(sequence()), true);
    let restarted = bound_to(BINDING.start, 3, 6);
    check(&rt, fault_of(SEQUENCE_CONTEXT, restarted), None);
}

#[test]
fn another_context_is_not_a_sequence_context(rt: HostRuntime) {
    let integrity = Some(ContextFault::Integrity);
    check(&rt, fault_of(CONTEXT, BINDING), integrity);
    check(
        &rt,
        fault_of(SEQUENCE_CONTEXT, bound_to(BINDING.start, 4, 5)),
        integrity,
    );
    let as_object = open(&hierarchies(7), BINDING, SEQUENCE_CONTEXT).err();
    check(&rt, as_object, integrity);
}

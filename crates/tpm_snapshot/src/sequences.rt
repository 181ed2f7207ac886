//! The sequence objects of the completing layer, as a state text encodes them.

ghost use Rattle.std.specs.Prelude.{◌≡◌, ◌<◌, ◌^◌, length};
ghost use Rattle.std.specs.List.{All};
ghost use Rattle.tpm_sequence_text.specs.HashState.{IsHashState, IsValue};
ghost use Rattle.tpm_sequence_text.specs.Slot.{IsSequence, IsSequenceObject, IsSlot};

use tpm_hash_state::{ChainingValue, HashState, HmacState};
use tpm_sequence::{Sequence, SequenceObject};

/// Proves that each word fits in 32 bits. Does nothing at run time.
fn words_fit(words: &[u32])
    ensures { All (λ word. word < 2 ^ 32) words.now }
{}

/// Returns a number unchanged. The contract adds that the number fits in 64 bits.
pub fn with_width(number: u64) -> u64
    ensures same { result ≡ number }
    ensures fits { result < 2 ^ 64 }
{
    number
}

/// Returns a hash value unchanged. The contract adds that each of its words fits in 32 bits.
fn value_of(value: ChainingValue) -> ChainingValue
    ensures same { result ≡ value }
    ensures is_value { IsValue result }
{
    match value {
        ChainingValue::Sha1(words) => {
            words_fit(&words);
            ChainingValue::Sha1(words)
        }
        ChainingValue::Sha256(words) => {
            words_fit(&words);
            ChainingValue::Sha256(words)
        }
    }
}

/// Returns a hash state unchanged. The contract adds that its numbers fit their integer types.
fn state_of(state: HashState) -> HashState
    ensures same { result ≡ state }
    ensures is_state { IsHashState result }
{
    let chaining = value_of(state.chaining);
    let block = state.block;
    HashState {
        chaining,
        block,
        length: with_width(state.length),
    }
}

/// Returns a sequence unchanged. The contract adds that its numbers fit their integer types.
fn sequence_of(sequence: Sequence) -> Sequence
    ensures same { result ≡ sequence }
    ensures is_sequence { IsSequence result }
{
    match sequence {
        Sequence::Hash { state, beginning } => Sequence::Hash {
            state: state_of(state),
            beginning,
        },
        Sequence::Event { sha1, sha256 } => Sequence::Event {
            sha1: state_of(sha1),
            sha256: state_of(sha256),
        },
        Sequence::Hmac { state } => {
            let inner = state_of(state.inner);
            let outer = state_of(state.outer);
            Sequence::Hmac {
                state: HmacState { inner, outer },
            }
        }
    }
}

/// Returns a sequence object unchanged. The contract adds that its numbers fit their integer types.
fn object_of(object: SequenceObject) -> SequenceObject
    ensures same { result ≡ object }
    ensures is_object { IsSequenceObject result }
{
    let auth = object.auth;
    let sequence = sequence_of(object.sequence);
    SequenceObject { auth, sequence }
}

/// Returns a slot unchanged. The contract adds that the numbers of its sequence object fit their
/// integer types.
fn slot_of(slot: Option<SequenceObject>) -> Option<SequenceObject>
    ensures same { result ≡ slot }
    ensures is_slot { IsSlot result }
{
    let Some(object) = slot else {
        return None;
    };
    Some(object_of(object))
}

/// Returns the slots unchanged. The contract adds that the numbers of their sequence objects fit
/// their integer types.
pub fn sequences_of(slots: &[Option<SequenceObject>; 3]) -> [Option<SequenceObject>; 3]
    ensures value { result ≡ slots.now }
    ensures size { length result ≡ 3 }
    ensures fits { All IsSlot result }
{
    let first = slot_of(slots[0]);
    let second = slot_of(slots[1]);
    let third = slot_of(slots[2]);
    [first, second, third]
}

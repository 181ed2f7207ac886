//! Reads the context of an object or of a sequence object.

ghost use Rattle.std.specs.Prelude.{◌≡◌, ◌≤◌, ◌+◌, [], IfOk, length};
ghost use Rattle.tpm_bytes.specs.Reading.{AreBytes, Gives};
ghost use Rattle.tpm_context.specs.Context.{Decrypts, DecryptsContent, blob_in, blob_size, content_in, object_in, object_in_context, parts_in, plain_in};
ghost use Rattle.tpm_context.specs.Meaning.{IsContext, IsSequenceContext};
ghost use Rattle.tpm_context.specs.Sequences.{opened_sequence, sequence_in};

use crate::binding::Binding;
use crate::fault::ContextFault;
use crate::head::ContextHead;
use crate::protection::{context_proof, decrypt, integrity};
use crate::sealing::{BLOB_SIZE, OBJECT_SIZE};
use tpm_bytes::{Cursor, Sink, SizedFault, is_equal};
use tpm_image_text::read_object_fields;
use tpm_object::Object;
use tpm_record::Hierarchies;
use tpm_sequence::SequenceObject;
use tpm_sequence_text::read_slot;

/// The integrity value and the encrypted object of a contextBlob.
#[derive(Drop)]
struct BlobParts<'a> {
    integrity: &'a [u8],
    cipher: &'a [u8],
}

/// Returns the contextBlob in the bytes after the head. No bytes may follow it.
#[tactic(auto, unfolding(crate::specs::Context::blob_in), using(crate::proofs::Sizes::sized_few))]
fn blob_in<'a>(text: &mut Cursor<'a>) -> Result<&'a [u8], ContextFault>
    ensures value { Gives (λ blob. blob.now) (blob_in text.old) result }
    ensures small { IfOk result (λ blob. length blob.now ≤ blob_size) }
{
    let blob = match text.sized(BLOB_SIZE) {
        Ok(blob) => blob,
        Err(SizedFault::TooLong) => return Err(ContextFault::Size),
        Err(SizedFault::Short) => return Err(ContextFault::Truncated),
    };
    if !text.is_empty() {
        return Err(ContextFault::Size);
    }
    Ok(blob)
}

/// Returns the integrity value and the encrypted object in a contextBlob.
#[tactic(auto, unfolding(crate::specs::Context::parts_in), using(crate::proofs::Sizes::sized_rest))]
fn parts_in<'a>(blob: &'a [u8]) -> Result<BlobParts<'a>, ContextFault>
    ensures value { Gives (λ parts. (parts.integrity.now, parts.cipher.now))
        (parts_in blob.now) result }
    ensures small { IfOk result (λ parts. length parts.cipher.now + 34 ≤ length blob.now) }
{
    let mut text = Cursor::new(blob);
    let Ok(integrity) = text.sized(32) else {
        return Err(ContextFault::Size);
    };
    if integrity.len() != 32 {
        return Err(ContextFault::Size);
    }
    Ok(BlobParts {
        integrity,
        cipher: text.rest(),
    })
}

/// Returns the object that a plaintext encodes; the object must match the head.
#[tactic(auto, unfolding(crate::specs::Context::object_in))]
fn object_in(head: ContextHead, plain: &[u8]) -> Result<Object, ContextFault>
    ensures value { result ≡ object_in head plain.now }
    ensures bytes { AreBytes plain.now }
{
    let mut text = Cursor::new(plain);
    let Ok(object) = read_object_fields(&mut text) else {
        return Err(ContextFault::Integrity);
    };
    if !text.is_empty() || !head.is_of(&object) {
        return Err(ContextFault::Integrity);
    }
    Ok(object)
}

/// Returns the sequence object that a plaintext encodes; the head must be that of a sequence
/// object's context.
#[tactic(auto, unfolding(crate::specs::Sequences::sequence_in), using(tpm_image_text::proofs::Bytes::bytes_hold))]
fn sequence_in(head: ContextHead, plain: &[u8]) -> Result<SequenceObject, ContextFault>
    ensures { result ≡ sequence_in head plain.now }
{
    let mut text = Cursor::new(plain);
    let Ok(slot) = read_slot(&mut text) else {
        return Err(ContextFault::Integrity);
    };
    if !text.is_empty() || !head.is_of_sequence() {
        return Err(ContextFault::Integrity);
    }
    slot.ok_or(ContextFault::Integrity)
}

/// Decrypts the content of a context with these parts into a buffer, if the integrity value is
/// correct.
#[tactic(auto, unfolding(crate::specs::Context::plain_in))]
fn decrypt_parts(
    proof: &[u8],
    binding: Binding,
    head: ContextHead,
    parts: &BlobParts,
    plain: &mut Sink<OBJECT_SIZE>,
) -> Result<(), ContextFault>
    requires empty { plain.old ≡ [] }
    requires fits { length parts.now.cipher.now ≤ OBJECT_SIZE }
    ensures { Decrypts (plain_in proof.now binding head parts.now.integrity.now
        parts.now.cipher.now) result plain.new }
{
    let right = integrity(proof, binding, head, parts.cipher);
    if !is_equal(parts.integrity, right.as_slice()) {
        return Err(ContextFault::Integrity);
    }
    plain.append(parts.cipher);
    decrypt(proof, binding.start, head, plain.as_mut_slice());
    Ok(())
}

/// Decrypts the content of a context into a buffer, and returns the head. The context must have been
/// made with these hierarchies and this binding.
#[tactic(auto, unfolding(crate::specs::Context::content_in))]
fn decrypt_content(
    hierarchies: &Hierarchies,
    binding: Binding,
    bytes: &[u8],
    plain: &mut Sink<OBJECT_SIZE>,
) -> Result<ContextHead, ContextFault>
    requires { plain.old ≡ [] }
    ensures value { DecryptsContent (content_in hierarchies.now binding bytes.now) result plain.new }
    ensures bytes { AreBytes bytes.now }
{
    let mut text = Cursor::new(bytes);
    let head = ContextHead::read(&mut text)?;
    let blob = blob_in(&mut text)?;
    let parts = parts_in(blob)?;
    let proof = context_proof(hierarchies, head.hierarchy);
    decrypt_parts(proof.as_slice(), binding, head, &parts, plain)?;
    Ok(head)
}

/// Returns the object of a context, if the context was made with these hierarchies and this
/// binding.
#[tactic(auto, unfolding(crate::specs::Context::object_in_context))]
pub fn open(
    hierarchies: &Hierarchies,
    binding: Binding,
    bytes: &[u8],
) -> Result<Object, ContextFault>
    ensures value { result ≡ object_in_context hierarchies.now binding bytes.now }
    // If the bytes open as an object, they are a context of this object, with some sequence number.
    ensures made { IfOk result (λ object. IsContext hierarchies.now binding bytes.now object) }
{
    let mut plain: Sink<OBJECT_SIZE> = Sink::new();
    let head = decrypt_content(hierarchies, binding, bytes, &mut plain)?;
    object_in(head, plain.as_slice())
}

/// Returns the sequence object of a context, if the context was made with these hierarchies and
/// this binding.
#[tactic(auto, unfolding(crate::specs::Sequences::opened_sequence))]
pub fn open_sequence(
    hierarchies: &Hierarchies,
    binding: Binding,
    bytes: &[u8],
) -> Result<SequenceObject, ContextFault>
    ensures value { result ≡ opened_sequence hierarchies.now binding bytes.now }
    // If the bytes open as a sequence object, they are a context of this sequence object, with some
    // sequence number.
    ensures made { IfOk result (λ object.
        IsSequenceContext hierarchies.now binding bytes.now object) }
{
    let mut plain: Sink<OBJECT_SIZE> = Sink::new();
    let head = decrypt_content(hierarchies, binding, bytes, &mut plain)?;
    sequence_in(head, plain.as_slice())
}

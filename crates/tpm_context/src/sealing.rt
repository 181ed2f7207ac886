//! Makes the context of an object or of a sequence object.

ghost use Rattle.std.specs.Prelude.{◌≡◌, ◌≤◌, [], length};
ghost use Rattle.tpm_image_text.specs.Body.{object_fields_text, sensitive_of};
ghost use Rattle.tpm_object.specs.Object.{IsObject};
ghost use Rattle.tpm_context.specs.Context.{context_text, sealed_text};
ghost use Rattle.tpm_context.specs.Protection.{ciphertext_of};
ghost use Rattle.tpm_context.specs.Sequences.{sequence_context_text};

use crate::binding::Binding;
use crate::head::{ContextHead, HEAD_SIZE};
use crate::protection::{context_proof, encrypt, integrity};
use tpm_bytes::Sink;
use tpm_containers::Sizes;
use tpm_object::Object;
use tpm_record::Hierarchies;
use tpm_sequence::SequenceObject;
use tpm_sequence_text::write_slot;
use tpm_types_common::{HierarchyHandle, Octets};
use tpm_types_object::Sensitive;

/// The largest size of an encoded object, in bytes.
pub(crate) const OBJECT_SIZE: usize = 326;

/// The largest size of a contextBlob, in bytes.
pub(crate) const BLOB_SIZE: usize = 34 + OBJECT_SIZE;

/// The largest size of an object's context, in bytes.
pub const CONTEXT_SIZE: usize = HEAD_SIZE + 2 + BLOB_SIZE;

/// Writes an object, encoded as in an image.
#[tactic(auto, unfolding(tpm_image_text::specs::Body::object_fields_text))]
fn write_object(object: &Object, text: &mut Sink<OBJECT_SIZE>)
    requires { text.old ≡ [] }
    ensures written { text.new ≡ object_fields_text object.now }
    ensures object { IsObject object.now }
{
    object.read_sizes();
    let sensitive = Sensitive {
        object_type: object.public.object_type(),
        auth_value: Octets::of(object.auth_value.as_slice()),
        seed_value: object.seed_value.copy(),
        sensitive: object.sensitive.copy(),
    };
    text.append_u32(object.hierarchy.handle().number);
    text.append_sized(object.qualified_name.as_slice());
    text.append_sized(object.public.text().as_slice());
    text.append_sized(sensitive.text().as_slice());
}

/// Writes a context with this head; `content` is the content before encryption.
fn write_sealed(
    proof: &[u8],
    binding: Binding,
    head: ContextHead,
    content: &mut Sink<OBJECT_SIZE>,
    context: &mut Sink<CONTEXT_SIZE>,
)
    ensures { context.new ≡ sealed_text proof.now binding head
        (ciphertext_of proof.now binding.start head content.old) }
{
    encrypt(proof, binding.start, head, content.as_mut_slice());
    let integrity = integrity(proof, binding, head, content.as_slice());
    let mut blob: Sink<BLOB_SIZE> = Sink::new();
    blob.append_sized(integrity.as_slice());
    blob.append(content.as_slice());
    context.clear();
    context.append(head.text().as_slice());
    context.append_sized(blob.as_slice());
}

/// Writes the context of an object. Contexts with the same start number must have different
/// sequence numbers, since they would otherwise be encrypted with the same key and IV. Contexts
/// with different start numbers have different keys.
#[tactic(auto, unfolding(crate::specs::Context::context_text))]
pub fn seal(
    hierarchies: &Hierarchies,
    binding: Binding,
    sequence: u64,
    object: &Object,
    context: &mut Sink<CONTEXT_SIZE>,
)
    ensures text { context.new ≡ context_text hierarchies.now binding sequence object.now }
    ensures object { IsObject object.now }
{
    let head = ContextHead::of(sequence, object);
    let proof = context_proof(hierarchies, head.hierarchy);
    let mut content: Sink<OBJECT_SIZE> = Sink::new();
    write_object(object, &mut content);
    write_sealed(proof.as_slice(), binding, head, &mut content, context);
}

/// Writes the context of a sequence object. As in [`seal`], each context with the same start number
/// must have a sequence number of its own.
#[tactic(auto, unfolding(crate::specs::Sequences::sequence_context_text))]
pub fn seal_sequence(
    hierarchies: &Hierarchies,
    binding: Binding,
    number: u64,
    object: &SequenceObject,
    context: &mut Sink<CONTEXT_SIZE>,
)
    ensures { context.new
        ≡ sequence_context_text hierarchies.now binding number object.now }
{
    let head = ContextHead::of_sequence(number);
    let proof = context_proof(hierarchies, HierarchyHandle::Null);
    let mut content: Sink<OBJECT_SIZE> = Sink::new();
    write_slot(Some(object), &mut content);
    write_sealed(proof.as_slice(), binding, head, &mut content, context);
}

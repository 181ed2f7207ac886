//! How a context is encrypted and authenticated (TPM 2.0 Library, Part 1, section 30.3).

ghost use Rattle.std.specs.Prelude.{◌≡◌, ◌++◌, length};
ghost use Rattle.tpm_context.specs.Context.{context_proof};
ghost use Rattle.tpm_context.specs.Protection.{bound_text, cipher_bytes, cipher_iv, cipher_key, ciphertext_of, context_label, context_party, integrity_of, plaintext_of, protected_text, restart_bound};

use crate::binding::Binding;
use crate::head::{ContextHead, SavedHandle};
use tpm_aes::Aes128;
use tpm_bytes::Sink;
use tpm_mac::{Digest, HashAlg, hmac_parts, kdfa};
use tpm_record::Hierarchies;
use tpm_types_common::HierarchyHandle;

/// KDFa's label for the key and the IV of a context.
const CONTEXT_LABEL: &[u8] = b"CONTEXT";

/// The largest size of the secret with which the contexts of a hierarchy are protected.
pub(crate) const PROOF_SIZE: usize = 64;

/// Returns the secret with which the contexts of a hierarchy are protected. TPM2_Clear changes the
/// secrets of the owner, endorsement and platform hierarchies; a TPM Reset changes that of the null
/// hierarchy.
pub(crate) fn context_proof(
    hierarchies: &Hierarchies,
    hierarchy: HierarchyHandle,
) -> Sink<PROOF_SIZE>
    ensures { result ≡ context_proof hierarchies.now hierarchy }
{
    let mut proof = Sink::new();
    match hierarchy {
        HierarchyHandle::Owner => proof.append(&hierarchies.owner.secrets.proof),
        HierarchyHandle::Endorsement => proof.append(&hierarchies.endorsement.secrets.proof),
        HierarchyHandle::Platform => {
            proof.append(&hierarchies.platform.secrets.proof);
            proof.append(&hierarchies.owner.secrets.proof);
        }
        HierarchyHandle::Null => proof.append(&hierarchies.null.proof),
    }
    proof
}

/// The cipher of a context and its IV.
#[derive(Drop)]
struct ContextCipher {
    cipher: Aes128,
    iv: [u8; 16],
}

/// Returns the cipher and its IV: the first 16 bytes are the key, and the rest is the IV.
fn cipher_from(bytes: &[u8; 32]) -> ContextCipher
    ensures key { result.cipher ≡ cipher_key bytes.now }
    ensures iv { result.iv ≡ cipher_iv bytes.now }
{
    let (front, back) = bytes.split_at(16);
    let (mut key, mut iv) = ([0; 16], [0; 16]);
    key.copy_from_slice(front);
    iv.copy_from_slice(back);
    ContextCipher {
        cipher: Aes128::new(&key),
        iv,
    }
}

/// Returns KDFa's argument contextV for a context.
fn context_party(start: u64, head: ContextHead) -> Sink<12>
    ensures { result ≡ context_party start head }
{
    let mut party = Sink::new();
    party.append_u32(head.saved.number());
    party.append_u64(start);
    party
}

/// Returns the cipher of the context with this head, derived from the secret of its hierarchy and
/// from the layer's start number.
#[tactic(auto, unfolding(crate::specs::Protection::cipher_bytes))]
fn context_cipher(proof: &[u8], start: u64, head: ContextHead) -> ContextCipher
    ensures key { result.cipher ≡ cipher_key (cipher_bytes proof.now start head) }
    ensures iv { result.iv ≡ cipher_iv (cipher_bytes proof.now start head) }
{
    let mut bytes = [0; 32];
    kdfa(
        HashAlg::Sha256,
        proof,
        CONTEXT_LABEL,
        &head.sequence.to_be_bytes(),
        context_party(start, head).as_slice(),
        &mut bytes,
    );
    cipher_from(&bytes)
}

/// Encrypts a plaintext in place.
pub(crate) fn encrypt(proof: &[u8], start: u64, head: ContextHead, text: &mut [u8])
    ensures { text.new ≡ ciphertext_of proof.now start head text.old }
{
    let by = context_cipher(proof, start, head);
    by.cipher.cfb_encrypt(&by.iv, text);
}

/// Decrypts a ciphertext in place.
pub(crate) fn decrypt(proof: &[u8], start: u64, head: ContextHead, text: &mut [u8])
    ensures { text.new ≡ plaintext_of proof.now start head text.old }
{
    let by = context_cipher(proof, start, head);
    by.cipher.cfb_decrypt(&by.iv, text);
}

/// Returns the restartCount to which a context is bound.
fn restart_bound(binding: Binding, saved: SavedHandle) -> u32
    ensures { result ≡ restart_bound binding saved }
{
    match saved {
        SavedHandle::Ordinary | SavedHandle::Sequence => 0,
        SavedHandle::StClear => binding.restart_count,
    }
}

/// Returns the fields that the integrity value covers before the encrypted object.
fn bound_text(binding: Binding, head: ContextHead) -> Sink<28>
    ensures { result ≡ bound_text binding head }
{
    let mut text = Sink::new();
    text.append_u64(binding.start);
    text.append_u32(binding.reset_count);
    text.append_u32(restart_bound(binding, head.saved));
    text.append_u64(head.sequence);
    text.append_u32(head.saved.number());
    text
}

/// Returns the integrity value of the context with this head and this encrypted object.
#[tactic(auto, unfolding(crate::specs::Protection::integrity_of))]
pub(crate) fn integrity(proof: &[u8], binding: Binding, head: ContextHead, cipher: &[u8]) -> Digest
    ensures value { result.items ≡ integrity_of proof.now binding head cipher.now }
    ensures size { length result.items ≡ 32 }
{
    let bound = bound_text(binding, head);
    hmac_parts(HashAlg::Sha256, proof, &[bound.as_slice(), cipher])
}

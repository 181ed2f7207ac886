//! TPM2_Hash: returns the digest of data, and a ticket which says that a restricted key may sign the
//! digest (specified in `specs/Hash`).

ghost use Rattle.std.specs.Prelude.{◌≡◌, ◌≤◌, length};
ghost use Rattle.tpm_actions_device.specs.Hash.{hash_row, hierarchy_at, is_generated, ticket_digest, ticket_hierarchy, ticket_text};
ghost use Rattle.tpm_bytes.specs.Reading.{Reads};
ghost use Rattle.tpm_record.specs.rows.Request.{request_of};
ghost use Rattle.tpm_record.specs.rows.Rows.{Acts};

use tpm_bytes::{Cursor, Sink};
use tpm_mac::{Digest, HashAlg, digest_parts, hmac_parts};
use tpm_record::Keep;
use tpm_record::rows::answer::Answer;
use tpm_record::rows::call::Call;
use tpm_record::rows::reading::{end, parameter};
use tpm_types_common::{
    DATA_LIMIT, Handle, HierarchyHandle, Rc, Refused, ResponseCode, read_buffer, read_hash,
};

/// The tag of the ticket: TPM_ST_HASHCHECK.
const HASH_CHECK_TAG: u16 = 0x8024;

/// The first bytes of a TPM's attestation structures: TPM_GENERATED_VALUE.
const GENERATED: [u8; 4] = [0xff, 0x54, 0x43, 0x47];

/// Reads the handle of a hierarchy. Fails with INSUFFICIENT if it is truncated, or with VALUE if it
/// names no hierarchy.
#[tactic(auto, unfolding(crate::specs::Hash::hierarchy_at))]
fn read_hierarchy(text: &mut Cursor) -> Result<HierarchyHandle, Rc>
    ensures { Reads (λ hierarchy. hierarchy) (hierarchy_at text.old) text.old result text.new }
{
    let mut ahead = Cursor::new(text.rest());
    let Ok(number) = ahead.u32() else {
        return Err(ResponseCode::Insufficient.anywhere());
    };
    let Some(hierarchy) = (Handle { number }).hierarchy() else {
        return Err(ResponseCode::Value.anywhere());
    };
    *text = ahead;
    Ok(hierarchy)
}

/// Whether the data begin like an attestation structure of a TPM.
fn is_generated(message: &[u8]) -> bool
    ensures { result ≡ is_generated message.now }
{
    message.starts_with(&GENERATED)
}

/// The hierarchy of the ticket.
fn ticket_hierarchy(asked: HierarchyHandle, message: &[u8]) -> HierarchyHandle
    ensures { result ≡ ticket_hierarchy asked message.now }
{
    if is_generated(message) {
        HierarchyHandle::Null
    } else {
        asked
    }
}

/// The digest of the ticket.
fn ticket_digest(hierarchy: HierarchyHandle, proof: &[u8; 32], digest: &[u8]) -> Digest
    ensures value { result.items ≡ ticket_digest hierarchy proof.now digest.now }
    ensures small { length result.items ≤ 32 }
{
    let tag = HASH_CHECK_TAG.to_be_bytes();
    match hierarchy {
        HierarchyHandle::Null => Digest::new(),
        _ => hmac_parts(HashAlg::Sha256, proof, &[&tag, digest]),
    }
}

/// The ticket of a digest.
#[tactic(auto, unfolding(crate::specs::Hash::ticket_text))]
fn ticket(hierarchy: HierarchyHandle, proof: &[u8; 32], digest: &[u8]) -> Sink<40>
    ensures { result ≡ ticket_text hierarchy proof.now digest.now }
{
    let checked = ticket_digest(hierarchy, proof, digest);
    let mut text = Sink::new();
    text.append_u16(HASH_CHECK_TAG);
    text.append_u32(hierarchy.handle().number);
    text.append_sized(checked.as_slice());
    text
}

/// TPM2_Hash: returns the digest of data, and a ticket.
#[tactic(auto, unfolding(crate::specs::Hash::hash_row, crate::specs::Hash::hash_parameters_in))]
pub fn hash<K: Keep>(keep: &mut K, call: &Call, answer: &mut Answer) -> Result<(), Refused>
    ensures { Acts (hash_row (K.record_of keep.old) (request_of call.now))
        (K.record_of keep.old) result answer.new (K.record_of keep.new) }
{
    answer.clear();
    let mut text = Cursor::new(call.parameters);
    let message = parameter(1, read_buffer(&mut text, DATA_LIMIT))?;
    let alg = parameter(2, read_hash(&mut text))?;
    let asked = parameter(3, read_hierarchy(&mut text))?;
    end(&text)?;
    let digest = digest_parts(alg, &[message]);
    let hierarchy = ticket_hierarchy(asked, message);
    let proof = &keep.fixed().hierarchies.secrets(hierarchy).proof;
    let ticket = ticket(hierarchy, proof, digest.as_slice());
    answer.parameters.append_sized(digest.as_slice());
    answer.parameters.append(ticket.as_slice());
    Ok(())
}

//! TPM2_Hash: the digest of data, with a ticket that says that a restricted key may sign the
//! digest.

ghost use Rattle.std.specs.Prelude.{◌≡◌, ◌≤◌, length};
ghost use Rattle.tpm_bytes.specs.Reading.{Gives, Reads};
ghost use Rattle.tpm_completion.specs.Hashing.{hash_row, hash_text, hierarchy_at, is_generated, ticket_digest, ticket_hierarchy, ticket_text, ticketed_text};

use crate::testing::Body;
use tpm_bytes::{Cursor, Sink};
use tpm_mac::{Digest, HashAlg, digest_parts, hmac_parts};
use tpm_record::Hierarchies;
use tpm_record::rows::reading::{end, parameter};
use tpm_types_common::{
    DATA_LIMIT, Handle, HierarchyHandle, Rc, Refused, ResponseCode, read_buffer, read_hash,
};

/// The tag of the ticket: TPM_ST_HASHCHECK.
const HASH_CHECK_TAG: u16 = 0x8024;

/// The first bytes of a TPM's attestation structures: TPM_GENERATED_VALUE.
const GENERATED: [u8; 4] = [0xff, 0x54, 0x43, 0x47];

/// Parses the handle of a hierarchy: INSUFFICIENT if it is truncated, VALUE if it names no
/// hierarchy.
#[tactic(auto, unfolding(crate::specs::Hashing::hierarchy_at))]
pub fn read_hierarchy(text: &mut Cursor) -> Result<HierarchyHandle, Rc>
    ensures { Reads (λ hierarchy. hierarchy) (hierarchy_at text.old) text.old result text.new }
{
    let mut ahead = Cursor::new(text.rest());
    let Ok(number) = ahead.u32() else {
        return Err(ResponseCode::Insufficient.anywhere());
    };
    let Some(hierarchy) = (Handle { number }).hierarchy() else {
        return Err(ResponseCode::Value.anywhere());
    };
    *text = ahead;
    Ok(hierarchy)
}

/// Whether the data begin like an attestation structure of a TPM.
fn is_generated(message: &[u8]) -> bool
    ensures { result ≡ is_generated message.now }
{
    message.starts_with(&GENERATED)
}

/// The hierarchy of the ticket.
fn ticket_hierarchy(asked: HierarchyHandle, message: &[u8]) -> HierarchyHandle
    ensures { result ≡ ticket_hierarchy asked message.now }
{
    if is_generated(message) {
        HierarchyHandle::Null
    } else {
        asked
    }
}

/// The digest of the ticket.
fn ticket_digest(hierarchy: HierarchyHandle, proof: &[u8; 32], digest: &[u8]) -> Digest
    ensures value { result.items ≡ ticket_digest hierarchy proof.now digest.now }
    ensures small { length result.items ≤ 32 }
{
    let tag = HASH_CHECK_TAG.to_be_bytes();
    match hierarchy {
        HierarchyHandle::Null => Digest::new(),
        _ => hmac_parts(HashAlg::Sha256, proof, &[&tag, digest]),
    }
}

/// The ticket of a digest.
#[tactic(auto, unfolding(crate::specs::Hashing::ticket_text))]
fn ticket(hierarchy: HierarchyHandle, proof: &[u8; 32], digest: &[u8]) -> Sink<40>
    ensures { result ≡ ticket_text hierarchy proof.now digest.now }
{
    let checked = ticket_digest(hierarchy, proof, digest);
    let mut text = Sink::new();
    text.append_u16(HASH_CHECK_TAG);
    text.append_u32(hierarchy.handle().number);
    text.append_sized(checked.as_slice());
    text
}

/// A digest, and its ticket for this hierarchy.
#[tactic(auto, unfolding(crate::specs::Hashing::ticketed_text))]
pub fn ticketed(hierarchies: &Hierarchies, chosen: HierarchyHandle, digest: &[u8]) -> Body
    requires { length digest.now ≤ 32 }
    ensures { result ≡ ticketed_text hierarchies.now chosen digest.now }
{
    let proof = &hierarchies.secrets(chosen).proof;
    let ticket = ticket(chosen, proof, digest);
    let mut body = Sink::new();
    body.append_sized(digest);
    body.append(ticket.as_slice());
    body
}

/// The digest of data, and its ticket.
fn hash_text(
    hierarchies: &Hierarchies,
    message: &[u8],
    alg: HashAlg,
    asked: HierarchyHandle,
) -> Body
    ensures { result ≡ hash_text hierarchies.now message.now alg asked }
{
    let digest = digest_parts(alg, &[message]);
    ticketed(
        hierarchies,
        ticket_hierarchy(asked, message),
        digest.as_slice(),
    )
}

/// TPM2_Hash.
#[tactic(auto, unfolding(crate::specs::Hashing::hash_row))]
pub fn hash(hierarchies: &Hierarchies, parameters: &[u8]) -> Result<Body, Refused>
    ensures { Gives (λ body. body) (hash_row hierarchies.now parameters.now) result }
{
    let mut text = Cursor::new(parameters);
    let message = parameter(1, read_buffer(&mut text, DATA_LIMIT))?;
    let alg = parameter(2, read_hash(&mut text))?;
    let asked = parameter(3, read_hierarchy(&mut text))?;
    end(&text)?;
    Ok(hash_text(hierarchies, message, alg, asked))
}

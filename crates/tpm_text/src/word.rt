//! The words for hash algorithms and symmetric definitions, and the identifiers that they encode.

ghost use Rattle.std.specs.Prelude.{◌≡◌};
ghost use Rattle.tpm_text.specs.Draft.{Drafts, drafted_bytes};
ghost use Rattle.tpm_bytes.specs.Reading.{Gives};
ghost use Rattle.tpm_text.specs.Parameter.{hash_in, hash_text, symmetric_in, symmetric_word_text};

use crate::draft::Draft;
use tpm_bytes::Sink;
use tpm_mac::HashAlg;
use tpm_number::{TokenFault, is_word};
use tpm_types_common::{SymmetricDefinition, hash_number, hash_or_null_number};

/// The hash algorithm that a word stands for.
pub fn hash_in(word: &[u8]) -> Result<HashAlg, TokenFault>
    ensures { Gives (λ hash. hash) (hash_in word.now) result }
{
    if is_word("sha1", word) {
        Ok(HashAlg::Sha1)
    } else if is_word("sha256", word) {
        Ok(HashAlg::Sha256)
    } else {
        Err(TokenFault::Bad)
    }
}

/// Writes the identifier of a hash algorithm, or TPM_ALG_NULL.
#[tactic(auto, unfolding(crate::specs::Parameter::hash_text))]
pub fn put_hash(word: &[u8], draft: &mut Draft) -> Result<(), TokenFault>
    ensures { Drafts (hash_text word.now) (drafted_bytes draft.old) result
        (drafted_bytes draft.new) }
{
    let algorithm = if is_word("null", word) {
        None
    } else {
        Some(hash_in(word)?)
    };
    draft.put(&hash_or_null_number(algorithm).to_be_bytes());
    Ok(())
}

/// The symmetric definition that a word stands for.
fn symmetric_in(word: &[u8]) -> Result<SymmetricDefinition, TokenFault>
    ensures { Gives (λ definition. definition) (symmetric_in word.now) result }
{
    if is_word("null", word) {
        Ok(SymmetricDefinition::Null)
    } else if is_word("aes", word) {
        Ok(SymmetricDefinition::Aes128Cfb)
    } else if is_word("xor-sha1", word) {
        Ok(SymmetricDefinition::Xor(HashAlg::Sha1))
    } else if is_word("xor-sha256", word) {
        Ok(SymmetricDefinition::Xor(HashAlg::Sha256))
    } else {
        Err(TokenFault::Bad)
    }
}

/// Writes a symmetric definition.
#[tactic(auto, unfolding(crate::specs::Parameter::symmetric_word_text))]
pub fn put_symmetric(word: &[u8], draft: &mut Draft) -> Result<(), TokenFault>
    ensures { Drafts (symmetric_word_text word.now) (drafted_bytes draft.old) result
        (drafted_bytes draft.new) }
{
    let definition = symmetric_in(word)?;
    let mut text: Sink<6> = Sink::new();
    definition.append_to(&mut text);
    draft.put(text.as_slice());
    Ok(())
}

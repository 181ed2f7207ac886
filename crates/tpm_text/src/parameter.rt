//! Writes a parameter from its token, for each kind of parameter that a command can have.

ghost use Rattle.std.specs.Prelude.{◌≡◌, MatchResult};
ghost use Rattle.tpm_text.specs.Draft.{Drafts, drafted_bytes};
ghost use Rattle.tpm_bytes.specs.Reading.{Gives};
ghost use Rattle.tpm_text.specs.Parameter.{bank_word_text, buffer_text, digest_word_text, element_text, handle_text, hash_in, hash_text, list_or_none_text, list_text, number_text, parameter_text, symmetric_in};

use crate::digits::digits_of;
use crate::draft::Draft;
use crate::element::Element;
use crate::entry::handle_in;
use crate::list::{put_list, put_list_or_none};
use crate::word::{hash_in, put_hash, put_symmetric};
use tpm_commands::ParameterKind;
use tpm_number::{TokenFault, is_word, number_in};

/// Writes the handle that a token encodes.
#[tactic(auto, unfolding(crate::specs::Parameter::handle_text))]
fn put_handle(token: &[u8], draft: &mut Draft) -> Result<(), TokenFault>
    ensures { Drafts (handle_text token.now) (drafted_bytes draft.old) result
        (drafted_bytes draft.new) }
{
    draft.put(&handle_in(token)?.number.to_be_bytes());
    Ok(())
}

/// Writes the parameter of this kind that a token encodes.
#[tactic(auto, unfolding(crate::specs::Parameter::parameter_text))]
pub fn put_parameter(kind: ParameterKind, token: &[u8], draft: &mut Draft) -> Result<(), TokenFault>
    ensures { Drafts (parameter_text kind token.now) (drafted_bytes draft.old)
        result (drafted_bytes draft.new) }
{
    match kind {
        ParameterKind::SessionType | ParameterKind::U8 | ParameterKind::YesNo => {
            draft.put(&(number_in(0xff, token)? as u8).to_be_bytes());
        }
        ParameterKind::StartupType | ParameterKind::U16 | ParameterKind::Operation => {
            draft.put(&(number_in(0xffff, token)? as u16).to_be_bytes());
        }
        ParameterKind::U32 | ParameterKind::PersistentHandle => {
            draft.put(&(number_in(0xffff_ffff, token)? as u32).to_be_bytes());
        }
        ParameterKind::U64 => {
            draft.put(&number_in(0xffff_ffff_ffff_ffff, token)?.to_be_bytes());
        }
        ParameterKind::Hash | ParameterKind::HashOrNull => put_hash(token, draft)?,
        ParameterKind::Symmetric => put_symmetric(token, draft)?,
        ParameterKind::Selection => put_list_or_none(Element::Bank, token, draft)?,
        ParameterKind::Digests => put_list_or_none(Element::Digest, token, draft)?,
        ParameterKind::DigestList => put_list(Element::Buffer, token, draft)?,
        ParameterKind::AlgorithmList => put_list_or_none(Element::Algorithm, token, draft)?,
        ParameterKind::Hierarchy => put_handle(token, draft)?,
        ParameterKind::PublicParameters => draft.put_hex(digits_of(token)?)?,
        ParameterKind::Buffer(_)
        | ParameterKind::SensitiveCreate
        | ParameterKind::Public
        | ParameterKind::NvPublic => draft.put_buffer(token)?,
    }
    Ok(())
}

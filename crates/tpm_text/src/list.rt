//! Lists in words, whose elements are joined by `+`: selections of PCRs, and lists of digests and of
//! algorithms.

ghost use Rattle.std.specs.Prelude.{◌≡◌, ◌==◌, length};
ghost use Rattle.std.specs.Int.{w32, to_be_bytes};
ghost use Rattle.std.specs.List.{count_by};
ghost use Rattle.tpm_text.specs.Draft.{Drafts, drafted_bytes};
ghost use Rattle.tpm_bytes.specs.Reading.{Gives};
ghost use Rattle.tpm_number.specs.Number.{number_in};
ghost use Rattle.tpm_text.specs.Parameter.{bank_word_text, digest_word_text, element_text, hash_and_rest_in, elements_text, list_or_none_text, list_text, pcrs_in};
ghost use Rattle.tpm_text.specs.Pieces.{pieces_of, plus};

use crate::draft::Draft;
use crate::element::Element;
use crate::token::{cut, position_of};
use crate::word::hash_in;
use tpm_bytes::Sink;
use tpm_mac::HashAlg;
use tpm_number::{TokenFault, is_word, number_in};
use tpm_types_common::{BankSelection, PcrIndex, PcrSelect, hash_number};

/// Returns the hash algorithm that is named before the first colon, and all text after the colon.
#[tactic(auto, unfolding(crate::specs::Parameter::hash_and_rest_in))]
fn hash_and_rest_in(piece: &[u8]) -> Result<(HashAlg, &[u8]), TokenFault>
    ensures { Gives (λ pair. (pair.0, pair.1.now)) (hash_and_rest_in piece.now) result }
{
    let Some(place) = position_of(b':', piece) else {
        return Err(TokenFault::Bad);
    };
    let hash = hash_in(&piece[..place])?;
    Ok((hash, &piece[place + 1..]))
}

/// Parses the number of a PCR, 0 to 23.
fn pcr_in(piece: &[u8]) -> Result<PcrIndex, TokenFault>
    ensures { Gives (λ pcr. pcr) (number_in 23 piece.now) result }
{
    let number = number_in(23, piece)?;
    PcrIndex::new(number as u8).ok_or(TokenFault::Range)
}

/// Parses PCR numbers that are separated by commas, and returns the PCR selection.
fn pcrs_in(numbers: &[u8]) -> Result<PcrSelect, TokenFault>
    ensures { Gives (λ select. select) (pcrs_in numbers.now) result }
{
    let mut select = PcrSelect::none();
    let mut left = numbers;
    loop {
        let (piece, others) = cut(b',', left);
        select.insert(pcr_in(piece)?);
        match others {
            Some(text) => left = text,
            None => return Ok(select),
        }
    }
}

/// Writes the PCR selection for one bank (TPMS_PCR_SELECTION).
#[tactic(auto, unfolding(crate::specs::Parameter::bank_word_text))]
fn put_bank(piece: &[u8], draft: &mut Draft) -> Result<(), TokenFault>
    ensures { Drafts (bank_word_text piece.now) (drafted_bytes draft.old) result
        (drafted_bytes draft.new) }
{
    let (hash, numbers) = hash_and_rest_in(piece)?;
    let select = pcrs_in(numbers)?;
    let mut text: Sink<6> = Sink::new();
    BankSelection { hash, select }.append_to(&mut text);
    draft.put(text.as_slice());
    Ok(())
}

/// Writes a digest with its hash algorithm.
#[tactic(auto, unfolding(crate::specs::Parameter::digest_word_text))]
fn put_digest(piece: &[u8], draft: &mut Draft) -> Result<(), TokenFault>
    ensures { Drafts (digest_word_text piece.now) (drafted_bytes draft.old) result
        (drafted_bytes draft.new) }
{
    let (hash, digits) = hash_and_rest_in(piece)?;
    if digits.len() != 2 * hash.size() {
        return Err(TokenFault::Bad);
    }
    draft.put(&hash_number(hash).to_be_bytes());
    draft.put_hex(digits)
}

fn put_element(element: Element, piece: &[u8], draft: &mut Draft) -> Result<(), TokenFault>
    ensures { Drafts (element_text element piece.now) (drafted_bytes draft.old) result
        (drafted_bytes draft.new) }
{
    match element {
        Element::Bank => put_bank(piece, draft),
        Element::Digest => put_digest(piece, draft),
        Element::Buffer => draft.put_buffer(piece),
        Element::Algorithm => {
            draft.put(&(number_in(0xffff, piece)? as u16).to_be_bytes());
            Ok(())
        }
    }
}

/// Writes the elements of a list, which are separated by `+`.
fn put_elements(element: Element, token: &[u8], draft: &mut Draft) -> Result<(), TokenFault>
    ensures { Drafts (elements_text element (pieces_of plus token.now)) (drafted_bytes draft.old)
        result (drafted_bytes draft.new) }
{
    let mut left = token;
    loop {
        let (piece, others) = cut(b'+', left);
        put_element(element, piece, draft)?;
        match others {
            Some(text) => left = text,
            None => return Ok(()),
        }
    }
}

fn separator_count(separator: u8, text: &[u8]) -> usize
    ensures { result ≡ count_by (λ byte. byte == separator) text.now }
{
    text.iter().filter(|byte| **byte == separator).count()
}

/// The number of pieces between separators in a text, modulo 2^32. The remainder is enough: if a
/// text has more pieces than fit in 32 bits, the command is too long anyway.
fn piece_count(separator: u8, text: &[u8]) -> u32
    ensures { to_be_bytes w32 result ≡ to_be_bytes w32 (length (pieces_of separator text.now)) }
{
    ((separator_count(separator, text) % 0x1_0000_0000 + 1) % 0x1_0000_0000) as u32
}

/// Writes a list, whose elements are separated by `+`.
#[tactic(auto, unfolding(crate::specs::Parameter::list_text))]
pub fn put_list(element: Element, token: &[u8], draft: &mut Draft) -> Result<(), TokenFault>
    ensures { Drafts (list_text element token.now) (drafted_bytes draft.old) result
        (drafted_bytes draft.new) }
{
    draft.put(&piece_count(b'+', token).to_be_bytes());
    put_elements(element, token, draft)
}

/// Writes a list, whose elements are separated by `+`; the token `-` is the empty list.
#[tactic(auto, unfolding(crate::specs::Parameter::list_or_none_text))]
pub fn put_list_or_none(element: Element, token: &[u8], draft: &mut Draft) -> Result<(), TokenFault>
    ensures { Drafts (list_or_none_text element token.now) (drafted_bytes draft.old) result
        (drafted_bytes draft.new) }
{
    if is_word("-", token) {
        draft.put(&0u32.to_be_bytes());
        return Ok(());
    }
    put_list(element, token, draft)
}

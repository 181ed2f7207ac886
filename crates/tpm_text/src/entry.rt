//! Handles and authorization entries in words. An entry is a password, or a session with a nonce,
//! attributes and an HMAC.

ghost use Rattle.std.specs.Prelude.{◌≡◌};
ghost use Rattle.tpm_text.specs.Draft.{Drafts, drafted_bytes};
ghost use Rattle.tpm_text.specs.Entry.{begins_entry, entry_in, handle_in, hex_handle_in, octet_in, password_entry, session_entry, session_pieces_of, text_of_entry};
ghost use Rattle.tpm_text.specs.EntryPieces.{four_of};
ghost use Rattle.tpm_bytes.specs.Reading.{Gives};
ghost use Rattle.tpm_text.specs.Pieces.{colon, pieces_of};

use crate::draft::Draft;
use crate::token::cut;
use tpm_number::{TokenFault, is_word};
use tpm_types_common::Handle;

/// Parses a handle of eight hex digits.
#[tactic(auto, unfolding(crate::specs::Entry::hex_handle_in))]
fn hex_handle_in(token: &[u8]) -> Result<Handle, TokenFault>
    ensures { Gives (λ handle. handle) (hex_handle_in token.now) result }
{
    if token.len() != 8 {
        return Err(TokenFault::Bad);
    }
    let mut bytes = [0; 4];
    if hex::decode_to_slice(token, &mut bytes).is_err() {
        return Err(TokenFault::Bad);
    }
    Ok(Handle {
        number: u32::from_be_bytes(bytes),
    })
}

/// Parses a handle: the name of a permanent entity, or eight hex digits.
#[tactic(auto, unfolding(crate::specs::Entry::handle_in))]
pub fn handle_in(token: &[u8]) -> Result<Handle, TokenFault>
    ensures { Gives (λ handle. handle) (handle_in token.now) result }
{
    if is_word("OWNER", token) {
        Ok(Handle::OWNER)
    } else if is_word("NULL", token) {
        Ok(Handle::NULL)
    } else if is_word("LOCKOUT", token) {
        Ok(Handle::LOCKOUT)
    } else if is_word("ENDORSEMENT", token) {
        Ok(Handle::ENDORSEMENT)
    } else if is_word("PLATFORM", token) {
        Ok(Handle::PLATFORM)
    } else {
        hex_handle_in(token)
    }
}

/// Parses an octet that is written as two hex digits.
#[tactic(auto, unfolding(crate::specs::Entry::octet_in))]
fn octet_in(piece: &[u8]) -> Result<u8, TokenFault>
    ensures { Gives (λ octet. octet) (octet_in piece.now) result }
{
    if piece.len() != 2 {
        return Err(TokenFault::Bad);
    }
    let mut octet = [0; 1];
    if hex::decode_to_slice(piece, &mut octet).is_err() {
        return Err(TokenFault::Bad);
    }
    Ok(octet[0])
}

/// The pieces of a token that encodes the entry of a session: handle, nonce, attributes and HMAC.
#[derive(Clone, Copy)]
struct SessionPieces<'a> {
    session: &'a [u8],
    nonce: &'a [u8],
    attributes: &'a [u8],
    hmac: &'a [u8],
}

fn session_pieces(text: &[u8]) -> Result<SessionPieces, TokenFault>
    ensures { Gives four_of (session_pieces_of (pieces_of colon text.now)) result }
{
    let (session, Some(rest)) = cut(b':', text) else {
        return Err(TokenFault::Bad);
    };
    let (nonce, Some(rest)) = cut(b':', rest) else {
        return Err(TokenFault::Bad);
    };
    let (attributes, Some(rest)) = cut(b':', rest) else {
        return Err(TokenFault::Bad);
    };
    match cut(b':', rest) {
        (hmac, None) => Ok(SessionPieces {
            session,
            nonce,
            attributes,
            hmac,
        }),
        (_, Some(_)) => Err(TokenFault::Bad),
    }
}

/// Writes the entry for a password: TPM_RS_PW, no nonce, continueSession, and the password.
fn put_password(password: &[u8], draft: &mut Draft) -> Result<(), TokenFault>
    ensures { Drafts (text_of_entry (password_entry password.now)) (drafted_bytes draft.old) result
        (drafted_bytes draft.new) }
{
    draft.put(&Handle::PASSWORD.number.to_be_bytes());
    draft.put(&[0, 0, 1]);
    draft.put_buffer(password)
}

/// Writes the entry for a session: its handle, nonce, attributes and HMAC.
fn put_session(text: &[u8], draft: &mut Draft) -> Result<(), TokenFault>
    ensures { Drafts (text_of_entry (session_entry text.now)) (drafted_bytes draft.old) result
        (drafted_bytes draft.new) }
{
    let pieces = session_pieces(text)?;
    draft.put(&handle_in(pieces.session)?.number.to_be_bytes());
    draft.put_buffer(pieces.nonce)?;
    draft.put(&octet_in(pieces.attributes)?.to_be_bytes());
    draft.put_buffer(pieces.hmac)
}

/// Whether a token begins like an entry: with `pw:` or `s:`.
pub fn begins_entry(token: &[u8]) -> bool
    ensures { result ≡ begins_entry token.now }
{
    token.starts_with(b"pw:") || token.starts_with(b"s:")
}

/// Writes the entry that a token encodes.
#[tactic(auto, unfolding(crate::specs::Entry::entry_in))]
pub fn put_entry(token: &[u8], draft: &mut Draft) -> Result<(), TokenFault>
    ensures { Drafts (text_of_entry (entry_in token.now)) (drafted_bytes draft.old) result
        (drafted_bytes draft.new) }
{
    if token.starts_with(b"pw:") {
        put_password(&token[3..], draft)
    } else if token.starts_with(b"s:") {
        put_session(&token[2..], draft)
    } else {
        Err(TokenFault::Bad)
    }
}

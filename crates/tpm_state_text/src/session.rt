//! A session in a state text.

ghost use Rattle.std.specs.Prelude.{◌≡◌, ◌≤◌, ◌+◌, ◌++◌, length, option_copied};
ghost use Rattle.tpm_bytes.specs.Reading.{Reads};
ghost use Rattle.tpm_image_text.specs.Fields.{in_body};
ghost use Rattle.tpm_image_text.specs.Sizes.{text_size};
ghost use Rattle.tpm_state_text.specs.Places.{optional_in, optional_text};
ghost use Rattle.tpm_state_text.specs.Sessions.{session_in, session_text};
ghost use Rattle.tpm_state_text.specs.Sizes.{session_size};
ghost use Rattle.tpm_types_common.specs.Algorithm.{hash_at};
ghost use Rattle.tpm_types_common.specs.SessionType.{session_type_at};
ghost use Rattle.tpm_types_common.specs.Symmetric.{symmetric_at};

use crate::bindings::{read_optional_binding, write_optional_binding};
use crate::policies::{read_policy, write_policy};
use tpm_bytes::Cursor;
use tpm_image_text::{Malformed, Text, read_bool, read_sized, write_bool, write_sized, write_u16};
use tpm_mac::HashAlg;
use tpm_session::{Nonce, Session, SessionKey};
use tpm_types_common::{SessionType, SymmetricDefinition, hash_number, read_hash};

fn read_type(text: &mut Cursor) -> Result<SessionType, Malformed>
    ensures { Reads (λ kind. kind) (in_body session_type_at text.old) text.old result text.new }
{
    match SessionType::read(text) {
        Ok(kind) => Ok(kind),
        Err(_) => Err(Malformed),
    }
}

fn read_algorithm(text: &mut Cursor) -> Result<HashAlg, Malformed>
    ensures { Reads (λ hash. hash) (in_body hash_at text.old) text.old result text.new }
{
    match read_hash(text) {
        Ok(hash) => Ok(hash),
        Err(_) => Err(Malformed),
    }
}

fn read_symmetric(text: &mut Cursor) -> Result<SymmetricDefinition, Malformed>
    ensures { Reads (λ symmetric. symmetric) (in_body symmetric_at text.old) text.old
        result text.new }
{
    match SymmetricDefinition::read(text) {
        Ok(symmetric) => Ok(symmetric),
        Err(_) => Err(Malformed),
    }
}

#[tactic(auto, unfolding(crate::specs::Sessions::session_fields_in, crate::specs::Sessions::session_in))]
fn read_session(text: &mut Cursor) -> Result<Session, Malformed>
    ensures { Reads (λ session. session) (session_in text.old) text.old result text.new }
{
    let mut ahead = Cursor::new(text.rest());
    let kind = read_type(&mut ahead)?;
    let hash = read_algorithm(&mut ahead)?;
    let symmetric = read_symmetric(&mut ahead)?;
    let nonce_tpm = Nonce::of(read_sized(&mut ahead, 32)?);
    let key = SessionKey::of(read_sized(&mut ahead, 32)?);
    let binding = read_optional_binding(&mut ahead)?;
    let policy = read_policy(&mut ahead)?;
    let parts = Session::of(kind, hash, symmetric, nonce_tpm, key, binding, policy);
    let Some(session) = parts else {
        return Err(Malformed);
    };
    *text = ahead;
    Ok(session)
}

/// Reads the session in a slot, or None if the slot is free.
pub fn read_optional_session(text: &mut Cursor) -> Result<Option<Session>, Malformed>
    ensures { Reads (λ session. session) (optional_in session_in text.old) text.old
        result text.new }
{
    let mut ahead = Cursor::new(text.rest());
    let session = if read_bool(&mut ahead)? {
        Some(read_session(&mut ahead)?)
    } else {
        None
    };
    *text = ahead;
    Ok(session)
}

#[tactic(auto, unfolding(crate::specs::Sessions::session_text))]
fn write_session(session: &Session, text: &mut Text)
    requires { length text.old + session_size ≤ text_size }
    ensures written { text.new ≡ text.old ++ session_text session.now }
    ensures small { length text.new ≤ length text.old + session_size }
{
    text.append_u8(session.kind().number());
    write_u16(hash_number(session.hash()), text);
    session.symmetric().append_to(text);
    write_sized(session.nonce_tpm().as_slice(), 32, text);
    write_sized(session.key().as_slice(), 32, text);
    write_optional_binding(session.binding(), text);
    write_policy(session.policy(), text);
}

/// Writes the session in a slot, or the byte for a free slot.
pub fn write_optional_session(session: Option<&Session>, text: &mut Text)
    requires { length text.old + (1 + session_size) ≤ text_size }
    ensures written { text.new ≡ text.old
        ++ optional_text session_text (option_copied session.entry) }
    ensures small { length text.new ≤ length text.old + (1 + session_size) }
{
    match session {
        Some(session) => {
            write_bool(true, text);
            write_session(session, text);
        }
        None => write_bool(false, text),
    }
}

//! Parameter encryption. A session with the attribute decrypt decrypts the first parameter of a
//! command. A session with the attribute encrypt encrypts the first parameter of the response.

ghost use Rattle.std.specs.Prelude.{◌≡◌, ◌≤◌, length, map};
ghost use Rattle.std.specs.List.{zip};
ghost use Rattle.tpm_session.specs.Encryption.{encrypted_parameter, plain_parameter};
ghost use Rattle.tpm_session.specs.FirstBuffer.{with_first_buffer};
ghost use Rattle.tpm_types_common.specs.Limits.{buffer_limit};
ghost use Rattle.tpm_types_command.specs.AuthEntry.{entry_of};
ghost use Rattle.tpm_step.specs.step.Parameters.{asks_for, entry_parameters, session_bytes, session_parameters};

use tpm_auth::{Grant, decrypts, encrypts, granted_value};
use tpm_record::Keep;
use tpm_session::{Session, first_size};
use tpm_step::Direction;
use tpm_types_command::AuthEntry;

/// Decrypts the sized buffer at the start of `text`.
#[tactic(auto, unfolding(tpm_session::specs::FirstBuffer::with_first_buffer))]
fn decrypt_first(session: &Session, value: &[u8], newer: &[u8], older: &[u8], text: &mut [u8])
    requires value { length value.now ≤ 32 }
    requires size { length text.old ≤ buffer_limit }
    ensures { text.new
        ≡ with_first_buffer (plain_parameter session.now value.now newer.now older.now) text.old }
{
    if let Some(size) = first_size(text) {
        let _ = session.open_parameter(value, newer, older, &mut text[2..2 + size]);
    }
}

/// Encrypts the sized buffer at the start of `text`.
#[tactic(auto, unfolding(tpm_session::specs::FirstBuffer::with_first_buffer))]
fn encrypt_first(session: &Session, value: &[u8], newer: &[u8], older: &[u8], text: &mut [u8])
    requires value { length value.now ≤ 32 }
    requires size { length text.old ≤ buffer_limit }
    ensures { text.new
        ≡ with_first_buffer
        (encrypted_parameter session.now value.now newer.now older.now) text.old }
{
    if let Some(size) = first_size(text) {
        let _ = session.close_parameter(value, newer, older, &mut text[2..2 + size]);
    }
}

fn asks_for(direction: Direction, entry: &AuthEntry) -> bool
    ensures { result ≡ asks_for direction (entry_of entry.now) }
{
    match direction {
        Direction::Decrypt => decrypts(entry),
        Direction::Encrypt => encrypts(entry),
    }
}

/// Decrypts or encrypts the sized buffer at the start of `text`, with a session and an
/// authorization value.
fn pass_first(
    direction: Direction,
    session: &Session,
    value: &[u8],
    entry: &AuthEntry,
    text: &mut [u8],
)
    requires value { length value.now ≤ 32 }
    requires size { length text.old ≤ buffer_limit }
    ensures { text.new ≡ with_first_buffer
        (session_bytes direction session.now value.now (entry_of entry.now)) text.old }
{
    let (caller, tpm) = (entry.nonce, session.nonce_tpm().as_slice());
    match direction {
        Direction::Decrypt => decrypt_first(session, value, caller, tpm, text),
        Direction::Encrypt => encrypt_first(session, value, tpm, caller, text),
    }
}

#[tactic(auto, unfolding(tpm_step::specs::step::Parameters::entry_parameters))]
fn pass_by<K: Keep>(
    direction: Direction,
    keep: &K,
    grant: Option<Grant>,
    entry: &AuthEntry,
    text: &mut [u8],
)
    requires { length text.old ≤ buffer_limit }
    ensures { text.new
        ≡ entry_parameters direction (K.record_of keep.now) grant (entry_of entry.now) text.old }
{
    if let Some(session) = keep.sessions().get(entry.session) {
        pass_first(direction, session, granted_value(keep, grant), entry, text);
    }
}

/// Decrypts the first parameter of a command, or encrypts the first parameter of its answer. Uses
/// the session of the first entry whose attributes ask for decryption or encryption, respectively.
/// `grants` says which handle each entry authorizes, if any.
pub fn pass_parameters<K: Keep>(
    direction: Direction,
    keep: &K,
    entries: &[AuthEntry],
    grants: &[Option<Grant>],
    text: &mut [u8],
)
    requires { length text.old ≤ buffer_limit }
    ensures { text.new ≡ session_parameters direction (K.record_of keep.now)
        (zip (map entry_of entries.now) grants.now) text.old }
{
    let [entry, entries @ ..] = entries else {
        return;
    };
    let [grant, grants @ ..] = grants else {
        return;
    };
    if asks_for(direction, entry) {
        pass_by(direction, keep, *grant, entry, text);
    } else {
        pass_parameters(direction, keep, entries, grants, text);
    }
}

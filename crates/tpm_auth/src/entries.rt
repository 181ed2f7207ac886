//! Checks each authorization entry on its own: its session, attributes, sizes and cipher. Only
//! later checks determine what the entry authorizes.

ghost use Rattle.std.specs.Prelude.{◌≡◌, ◌+◌, ◌≤◌, ◌==◌, [], OnOk, length, map, option_copied};
ghost use Rattle.std.specs.List.{list_any};
ghost use Rattle.tpm_types_command.specs.AuthEntry.{entry_of};
ghost use Rattle.tpm_types_common.specs.Handle.{session_kind};
ghost use Rattle.tpm_auth.specs.Entries.{decrypts, encrypts, entries_pass, entry_passes, has_wrong_attributes, is_misplaced, kind_passes, lacks_cipher, reference_of, session_of};
ghost use Rattle.tpm_record.specs.Record.{Record};
ghost use Rattle.tpm_auth.specs.Used.{AreSessions};

use arrayvec::ArrayVec;
use tpm_commands::CommandCode;
use tpm_record::Keep;
use tpm_session::Session;
use tpm_types_command::AuthEntry;
use tpm_types_common::{DIGEST_LIMIT, Handle, Rc, ResponseCode, SessionKind, SymmetricDefinition};

/// Whether the entry's session decrypts the command's first parameter.
pub fn decrypts(entry: &AuthEntry) -> bool
    ensures { result ≡ decrypts (entry_of entry.now) }
{
    entry.attributes.decrypts()
}

/// Whether the entry's session encrypts the response's first parameter.
pub fn encrypts(entry: &AuthEntry) -> bool
    ensures { result ≡ encrypts (entry_of entry.now) }
{
    entry.attributes.encrypts()
}

/// The response code if the session named by the entry with this number does not exist.
pub fn reference_of(number: u8) -> Rc
    ensures { result ≡ reference_of number }
{
    match number {
        1 => ResponseCode::ReferenceS0.anywhere(),
        2 => ResponseCode::ReferenceS1.anywhere(),
        _ => ResponseCode::ReferenceS2.anywhere(),
    }
}

/// Refuses an entry whose handle is of a wrong kind, or names no session. `session` is the session
/// that the entry names, if there is one.
fn check_kind(session: Option<&Session>, number: u8, entry: &AuthEntry) -> Result<(), Rc>
    ensures { (r : Record) → option_copied session.entry ≡ session_of r (entry_of entry.now)
        → result ≡ kind_passes r number (entry_of entry.now) (session_kind entry.now.session) }
{
    match entry.session.session_kind() {
        SessionKind::Other => Err(ResponseCode::Value.anywhere().at_session(number)),
        SessionKind::Session => match session {
            Some(_) => Ok(()),
            None => Err(reference_of(number)),
        },
        SessionKind::Password => Ok(()),
    }
}

/// Whether one of these entries names this session.
fn is_named_in(entries: &[AuthEntry], session: Handle) -> bool
    ensures { result ≡ list_any (λ earlier. earlier.session.number == session.number)
        (map entry_of entries.now) }
{
    match entries {
        [first, others @ ..] => {
            first.session.number == session.number || is_named_in(others, session)
        }
        [] => false,
    }
}

/// Whether one of these entries sets the decrypt attribute.
pub fn any_decrypts(entries: &[AuthEntry]) -> bool
    ensures { result ≡ list_any decrypts (map entry_of entries.now) }
{
    match entries {
        [first, others @ ..] => decrypts(first) || any_decrypts(others),
        [] => false,
    }
}

fn any_encrypts(entries: &[AuthEntry]) -> bool
    ensures { result ≡ list_any encrypts (map entry_of entries.now) }
{
    match entries {
        [first, others @ ..] => encrypts(first) || any_encrypts(others),
        [] => false,
    }
}

fn is_misplaced(code: CommandCode, number: u8, before: &[AuthEntry], entry: &AuthEntry) -> bool
    ensures { result ≡ is_misplaced code number (map entry_of before.now) (entry_of entry.now) }
{
    if entry.session == Handle::PASSWORD {
        code.authorized_handles() < usize::from(number)
    } else {
        is_named_in(before, entry.session)
    }
}

fn has_wrong_attributes(code: CommandCode, before: &[AuthEntry], entry: &AuthEntry) -> bool
    ensures { result ≡ has_wrong_attributes code (map entry_of before.now) (entry_of entry.now) }
{
    let is_password = entry.session == Handle::PASSWORD;
    entry.attributes.audits()
        || is_password && entry.attributes.uses_cipher()
        || decrypts(entry) && (any_decrypts(before) || !code.has_sized_parameter())
        || encrypts(entry) && (any_encrypts(before) || !code.shape().sized_answer)
}

fn lacks_cipher(session: Option<&Session>, entry: &AuthEntry) -> bool
    ensures { (r : Record) → option_copied session.entry ≡ session_of r (entry_of entry.now)
        → result ≡ lacks_cipher r (entry_of entry.now) }
{
    if !entry.attributes.uses_cipher() {
        return false;
    }
    match session {
        Some(session) => session.symmetric() == SymmetricDefinition::Null,
        None => false,
    }
}

#[tactic(auto, unfolding(crate::specs::Entries::entry_passes))]
fn check_entry(
    session: Option<&Session>,
    code: CommandCode,
    before: &[AuthEntry],
    entry: &AuthEntry,
) -> Result<(), Rc>
    requires { length before.now ≤ 2 }
    ensures { (r : Record) → option_copied session.entry ≡ session_of r (entry_of entry.now)
        → result ≡ entry_passes r code (map entry_of before.now) (entry_of entry.now) }
{
    let number = before.len() as u8 + 1;
    if entry.nonce.len() > DIGEST_LIMIT || entry.hmac.len() > DIGEST_LIMIT {
        return Err(ResponseCode::Size.anywhere().at_session(number));
    }
    check_kind(session, number, entry)?;
    if is_misplaced(code, number, before, entry) {
        return Err(ResponseCode::Handle.anywhere().at_session(number));
    }
    if entry.attributes.has_reserved_bits() {
        return Err(ResponseCode::ReservedBits.anywhere().at_session(number));
    }
    if has_wrong_attributes(code, before, entry) {
        return Err(ResponseCode::Attributes.anywhere().at_session(number));
    }
    if lacks_cipher(session, entry) {
        return Err(ResponseCode::Symmetric.anywhere().at_session(number));
    }
    Ok(())
}

/// Checks each entry of a command on its own; returns the first error. Adds the session of each
/// entry, or None for a password entry. Each session is looked up once.
pub fn check_entries<'a, K: Keep>(
    keep: &'a K,
    code: CommandCode,
    entries: &[AuthEntry],
    sessions: &mut ArrayVec<Option<&'a Session>, 3>,
) -> Result<(), Rc>
    requires few { length entries.now ≤ 3 }
    requires empty { sessions.old.items ≡ [] }
    ensures checked { result
        ≡ entries_pass (K.record_of keep.now) code [] (map entry_of entries.now) }
    ensures found { OnOk result
        (AreSessions (K.record_of keep.now) sessions.new.items (map entry_of entries.now)) }
{
    for index in 0..entries.len() {
        let entry = &entries[index];
        let session = keep.sessions().get(entry.session);
        check_entry(session, code, &entries[..index], entry)?;
        sessions.push(session);
    }
    Ok(())
}

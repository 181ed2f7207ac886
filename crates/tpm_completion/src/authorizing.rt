//! Checks the authorization areas of the commands on sequence objects. The first entry contains a
//! password or names an HMAC session, a second entry contains a password.

ghost use Rattle.std.specs.Prelude.{◌≡◌, ◌≤◌, IfOk, length, map};
ghost use Rattle.tpm_bytes.specs.Reading.{Gives, Reads};
ghost use Rattle.tpm_auth.specs.Entries.{is_password};
ghost use Rattle.tpm_types_command.specs.AuthEntry.{entry_of};
ghost use Rattle.tpm_completion.specs.Authorizing.{absent_refused, entries_at, entry_passes, entry_refused, first_passes, handle_at, handle_refused, missing_refused, names_hmac_session, only_entry, password_refused, sequence_named, two_entries};

use crate::completion::Completion;
use arrayvec::ArrayVec;
use tpm_bytes::Cursor;
use tpm_types_command::AuthEntry;
use tpm_types_command::auth_area::read_area;
use tpm_types_common::{Check, Handle, Refused, ResponseCode};

/// The entries of an authorization area.
pub type Entries<'a> = ArrayVec<AuthEntry<'a>, 3>;

/// The refusal of the handle with this number.
fn handle_refused(number: u8, fault: ResponseCode) -> Refused
    ensures { result ≡ handle_refused number fault }
{
    Refused::by(Check::Handles, fault.anywhere().at_handle(number))
}

/// The refusal of the entry with this number.
fn entry_refused(number: u8, fault: ResponseCode) -> Refused
    ensures { result ≡ entry_refused number fault }
{
    Refused::by(Check::Entries, fault.anywhere().at_session(number))
}

/// The refusal of a wrong password in the entry with this number.
pub fn password_refused(number: u8) -> Refused
    ensures { result ≡ password_refused number }
{
    let rc = ResponseCode::BadAuth.anywhere().at_session(number);
    Refused::by(Check::Authorization, rc)
}

/// The refusal if an entry is missing.
fn missing_refused() -> Refused
    ensures { result ≡ missing_refused }
{
    Refused::by(Check::Sessions, ResponseCode::AuthMissing.anywhere())
}

/// The refusal if a handle does not name a sequence object.
pub fn absent_refused(reference: ResponseCode) -> Refused
    ensures { result ≡ absent_refused reference }
{
    Refused::by(Check::Handles, reference.anywhere())
}

/// Reads the handle number `place` of a command.
#[tactic(auto, unfolding(crate::specs::Authorizing::handle_at))]
pub fn read_handle(place: u8, text: &mut Cursor) -> Result<Handle, Refused>
    ensures { Reads (λ handle. handle) (handle_at place text.old) text.old result text.new }
{
    let Ok(number) = text.u32() else {
        return Err(handle_refused(place, ResponseCode::Insufficient));
    };
    Ok(Handle { number })
}

/// Reads an authorization area.
#[tactic(auto, unfolding(crate::specs::Authorizing::entries_at))]
pub fn read_entries<'a>(text: &mut Cursor<'a>) -> Result<Entries<'a>, Refused>
    ensures { Reads (λ entries. map entry_of entries.items) (entries_at text.old) text.old
        result text.new }
{
    let mut entries = ArrayVec::new();
    match read_area(text, &mut entries) {
        Ok(()) => Ok(entries),
        Err(rc) => Err(Refused::by(Check::Entries, rc)),
    }
}

/// Whether an entry contains a password.
pub fn is_password(entry: &AuthEntry) -> bool
    ensures { result ≡ is_password (entry_of entry.now) }
{
    entry.session == Handle::PASSWORD
}

/// Whether an entry names an HMAC session.
fn names_hmac_session(entry: &AuthEntry) -> bool
    ensures { result ≡ names_hmac_session (entry_of entry.now) }
{
    entry.session.is_session() && !entry.session.is_policy_session()
}

/// Checks the entry with this number. `allowed` says whether its handle is allowed.
#[tactic(auto, unfolding(crate::specs::Authorizing::entry_passes))]
fn check_entry(number: u8, allowed: bool, entry: &AuthEntry) -> Result<(), Refused>
    ensures value { result ≡ entry_passes number allowed (entry_of entry.now) }
    ensures small { IfOk result (λ valid. (length entry.now.nonce.now ≤ 32)
        × (length entry.now.hmac.now ≤ 32)) }
{
    if entry.nonce.len() > 32 || entry.hmac.len() > 32 {
        return Err(entry_refused(number, ResponseCode::Size));
    }
    if !allowed {
        return Err(entry_refused(number, ResponseCode::Handle));
    }
    if entry.attributes.has_reserved_bits() {
        return Err(entry_refused(number, ResponseCode::ReservedBits));
    }
    if entry.attributes.audits() || entry.attributes.uses_cipher() {
        return Err(entry_refused(number, ResponseCode::Attributes));
    }
    Ok(())
}

/// Checks the first entry, which contains a password or names an HMAC session.
fn check_first(entry: &AuthEntry) -> Result<(), Refused>
    ensures value { result ≡ first_passes (entry_of entry.now) }
    ensures small { IfOk result (λ valid. (length entry.now.nonce.now ≤ 32)
        × (length entry.now.hmac.now ≤ 32)) }
{
    check_entry(1, is_password(entry) || names_hmac_session(entry), entry)
}

/// The only entry of a command with one handle.
#[tactic(auto, unfolding(crate::specs::Authorizing::only_entry))]
pub fn only_entry<'a>(entries: &[AuthEntry<'a>]) -> Result<AuthEntry<'a>, Refused>
    ensures value { Gives entry_of (only_entry (map entry_of entries.now)) result }
    ensures small { IfOk result (λ entry. (length entry.nonce.now ≤ 32)
        × (length entry.hmac.now ≤ 32)) }
{
    match entries {
        [] => Err(missing_refused()),
        [entry] => {
            check_first(entry)?;
            Ok(*entry)
        }
        [entry, ..] => {
            check_first(entry)?;
            Err(entry_refused(2, ResponseCode::Handle))
        }
    }
}

/// The two entries of a command with two handles. The second contains a password.
#[tactic(auto, unfolding(crate::specs::Authorizing::two_entries))]
pub fn two_entries<'a>(entries: &[AuthEntry<'a>]) -> Result<(AuthEntry<'a>, AuthEntry<'a>), Refused>
    ensures value { Gives (λ both. (entry_of both.0, entry_of both.1))
        (two_entries (map entry_of entries.now)) result }
    ensures small { IfOk result (λ both. (length both.0.nonce.now ≤ 32)
        × (length both.0.hmac.now ≤ 32)) }
{
    match entries {
        [] => Err(missing_refused()),
        [entry] => {
            check_first(entry)?;
            Err(missing_refused())
        }
        [first, second, more @ ..] => {
            check_first(first)?;
            check_entry(2, is_password(second), second)?;
            if !more.is_empty() {
                return Err(entry_refused(3, ResponseCode::Handle));
            }
            Ok((*first, *second))
        }
    }
}

impl Completion {
    /// The slot of the sequence object that the handle with this number names in a command.
    #[tactic(auto, unfolding(crate::specs::Authorizing::sequence_named))]
    pub(crate) fn sequence_named(
        &self,
        number: u8,
        reference: ResponseCode,
        handle: Handle,
    ) -> Result<u8, Refused>
        ensures { result ≡ sequence_named self.now number reference handle }
    {
        if !handle.is_transient() {
            return Err(handle_refused(number, ResponseCode::Value));
        }
        let Some(slot) = self.slot_of(handle) else {
            return Err(absent_refused(reference));
        };
        Ok(slot)
    }
}

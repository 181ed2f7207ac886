//! Checks the authorization of a whole command. The entries are checked in order, each for the
//! handle at its position. [`Grants`] lists what each entry authorizes.

ghost use Rattle.tpm_bytes.specs.Reading.{Gives};
ghost use Rattle.std.specs.Prelude.{◌≡◌, ◌+◌, ◌<◌, ◌≤◌, [], ◌∷◌, length, map, not, option_copied, option_map, slice_get, take};
ghost use Rattle.std.specs.Option.{ForSome};
ghost use Rattle.tpm_session.specs.FirstBuffer.{has_first_buffer};
ghost use Rattle.tpm_types_command.specs.AuthEntry.{entry_of};
ghost use Rattle.tpm_types_command.specs.Command.{whole_command, whole_of};
ghost use Rattle.tpm_types_common.specs.Handle.{session_kind};
ghost use Rattle.tpm_types_common.specs.Locality.{locality_number};
ghost use Rattle.tpm_types_common.specs.declared.handle.SessionKind.TheVariants as kind;
ghost use Rattle.tpm_record.specs.Entity.{name_of};
ghost use Rattle.tpm_record.specs.Resolved.{AreFound, IsFound};
ghost use Rattle.tpm_auth.specs.Grant.{authorize, authorized, grant, granted_by, grants_pass, password_grant};
ghost use Rattle.tpm_auth.specs.SessionGrant.{hashed_command};
ghost use Rattle.tpm_auth.specs.Entries.{session_of};
ghost use Rattle.tpm_auth.specs.Used.{AreSessions, IsResolved, IsUsed, used_handle};

use crate::cache::{Cache, LatestName};
use crate::comparison::{failure, is_locked_out, is_password_of, lockout_refusal};
use crate::entries::{any_decrypts, check_entries, reference_of};
use crate::session_grant::{Grant, check_session};
use crate::used::{Sent, SentEntry, SessionEntry, used_at};
use arrayvec::ArrayVec;
use tpm_commands::CommandCode;
use tpm_policy::Demand;
use tpm_record::{Keep, Means, Resolved, resolve};
use tpm_session::{HashedParameters, ParameterHashes, Protection, Session, first_size};
use tpm_types_command::{AuthEntry, Command};
use tpm_types_common::{Check, Handle, Locality, Refused, ResponseCode, SessionKind};
use tpm_types_name::Name;

/// The grants of a command's entries. Each entry authorizes one handle or nothing.
#[derive(Drop)]
pub struct Grants {
    pub grants: ArrayVec<Option<Grant>, 3>,
}

/// Checks whether the password in the entry with this number authorizes a handle.
#[tactic(auto, unfolding(crate::specs::Grant::password_grant, tpm_record::specs::Entity::auth_value_of, tpm_record::specs::Entity::is_available, tpm_record::specs::Entity::protection_of))]
fn check_value<K: Keep>(
    keep: &K,
    code: CommandCode,
    number: u8,
    resolved: &Resolved,
    entry: &AuthEntry,
) -> Result<Option<Grant>, Refused>
    requires number { 1 ≤ number }
    requires found { IsFound (K.record_of keep.now) resolved.now }
    ensures { result ≡ password_grant (K.record_of keep.now) code number
        (Some resolved.now.handle) (entry_of entry.now) }
{
    let nv_use = code.nv_use_at(usize::from(number) - 1);
    if !resolved.is_available(Means::AuthValue, nv_use) {
        let rc = ResponseCode::AuthUnavailable.anywhere();
        return Err(Refused::by(Check::Authorization, rc));
    }
    let grant = Some(Grant {
        handle: resolved.handle,
        demand: Demand::None,
    });
    let protection = resolved.protection();
    if is_locked_out(&keep.fixed().lockout, protection) {
        return Err(lockout_refusal(grant));
    }
    if is_password_of(resolved.auth_value(keep), entry.hmac) {
        Ok(grant)
    } else {
        Err(failure(Check::Authorization, number, protection))
    }
}

/// Checks the password in the entry with this number. If there is a handle at the entry's position,
/// the password has to authorize it; otherwise, the password must be empty.
#[tactic(auto, unfolding(crate::specs::Grant::password_grant))]
fn check_password<K: Keep>(
    keep: &K,
    code: CommandCode,
    number: u8,
    used: Option<Resolved>,
    entry: &AuthEntry,
) -> Result<Option<Grant>, Refused>
    requires number { 1 ≤ number }
    requires used { ForSome used (IsUsed (K.record_of keep.now)) }
    ensures { result ≡ password_grant (K.record_of keep.now) code number
        (option_map used_handle used.entry) (entry_of entry.now) }
{
    match used {
        Some(used) => check_value(keep, code, number, &used, entry),
        None if is_password_of(&[], entry.hmac) => Ok(None),
        None => Err(failure(Check::Others, number, Protection::None)),
    }
}

/// Checks an entry. If there is a handle to authorize at the entry's position, the entry has to
/// authorize it. Returns what the entry authorizes.
#[tactic(auto, unfolding(crate::specs::Grant::grant))]
fn check_grant<K: Keep>(
    keep: &K,
    sent: &Sent,
    by: &SentEntry,
    hashes: &mut ParameterHashes,
    cache: &mut Cache,
) -> Result<Option<Grant>, Refused>
    requires few { by.now.place ≤ 2 }
    requires session { option_copied by.now.session
        ≡ session_of (K.record_of keep.now) (entry_of by.now.entry.now) }
    requires hashed { hashes.old
        ≡ hashed_command (K.record_of keep.now) (whole_of sent.now.command.now) }
    requires resolved { IsResolved (K.record_of keep.now) sent.now }
    ensures value { result ≡ grant (K.record_of keep.now) (whole_of sent.now.command.now)
        (locality_number sent.now.locality) (by.now.place + 1)
        (slice_get (authorized (whole_of sent.now.command.now)) by.now.place)
        (entry_of by.now.entry.now) }
    ensures same { hashes.new ≡ hashes.old }
{
    let (number, entry) = (by.place as u8 + 1, by.entry);
    let used = used_at(sent, by.place);
    match entry.session.session_kind() {
        SessionKind::Password => check_password(keep, sent.command.code, number, used, entry),
        SessionKind::Session => match by.session {
            Some(session) => {
                let by = &SessionEntry {
                    number,
                    entry,
                    session,
                };
                check_session(keep, sent, by, used, hashes, cache)
            }
            None => Err(Refused::by(Check::Entries, reference_of(number))),
        },
        SessionKind::Other => {
            let rc = ResponseCode::Value.anywhere().at_session(number);
            Err(Refused::by(Check::Entries, rc))
        }
    }
}

/// Whether the first parameter, which has to be a sized buffer, is incomplete.
fn is_cut(parameters: &[u8]) -> bool
    ensures { result ≡ not (has_first_buffer parameters.now) }
{
    first_size(parameters).is_none()
}

/// The handle at a position, with its entity.
#[tactic(auto, using(std::proofs::lemmas::Option::slice_get_read))]
fn resolved_at<'a>(resolved: &[Resolved<'a>], place: usize) -> Resolved<'a>
    requires { place < length resolved.now }
    ensures { slice_get resolved.now place ≡ Some result }
{
    resolved[place]
}

/// The Name of the next handle. `names` contains the Names of the handles before it. If the handle
/// equals the first handle, the first Name is copied.
fn next_name<K: Keep>(keep: &K, sent: &Sent, names: &[Name], latest: &mut LatestName) -> Name
    requires resolved { IsResolved (K.record_of keep.now) sent.now }
    requires named { names.now ≡ map (name_of (K.record_of keep.now))
        (take (length names.now) (whole_of sent.now.command.now).handles) }
    requires more { length names.now < length sent.now.entities.now }
    ensures { Some result ≡ option_map (name_of (K.record_of keep.now))
        (slice_get (whole_of sent.now.command.now).handles (length names.now)) }
{
    let resolved = resolved_at(sent.entities, names.len());
    let first = resolved_at(sent.entities, 0);
    match names.first() {
        Some(name) if first.handle == resolved.handle => name.copy(),
        _ => latest.name_of(&resolved),
    }
}

/// Computes the Names of a command's handles.
#[tactic(auto, using(crate::proofs::Resolving::one_more_named, crate::proofs::Resolving::as_many))]
fn make_names<K: Keep>(
    keep: &K,
    sent: &Sent,
    latest: &mut LatestName,
    names: &mut ArrayVec<Name, 3>,
)
    requires resolved { IsResolved (K.record_of keep.now) sent.now }
    requires empty { names.old.items ≡ [] }
    ensures { names.new.items
        ≡ map (name_of (K.record_of keep.now)) (whole_of sent.now.command.now).handles }
{
    for _ in sent.command.handles.as_slice() {
        let name = next_name(keep, sent, names.as_slice(), latest);
        names.push(name);
    }
}

/// Checks the entries in order. The entry at each position has to authorize the handle at the same
/// position, if that handle needs authorization. Returns what each entry authorizes.
#[tactic(auto, using(crate::proofs::Resolving::sessions_as_many, crate::proofs::Resolving::session_at_place))]
fn check_each<K: Keep>(
    keep: &K,
    sent: &Sent,
    sessions: &[Option<&Session>],
    cache: &mut Cache,
) -> Result<Grants, Refused>
    requires sessions { AreSessions (K.record_of keep.now) sessions.now
        (whole_of sent.now.command.now).entries }
    requires resolved { IsResolved (K.record_of keep.now) sent.now }
    ensures { Gives granted_by (grants_pass (K.record_of keep.now) (whole_of sent.now.command.now)
        (locality_number sent.now.locality) [] (whole_of sent.now.command.now).entries) result }
{
    let command = sent.command;
    let mut names = ArrayVec::new();
    make_names(keep, sent, &mut cache.name, &mut names);
    let code = command.code.number();
    let hashed = HashedParameters::Command(code, names.as_slice(), command.parameters);
    let mut hashes = ParameterHashes::new(hashed);
    let mut grants = ArrayVec::new();
    let entries = command.entries;
    for place in 0..entries.len() {
        let by = &SentEntry {
            place,
            entry: &entries[place],
            session: sessions[place],
        };
        grants.push(check_grant(keep, sent, by, &mut hashes, cache)?);
    }
    Ok(Grants { grants })
}

/// Checks a command whose only entry is a password.
#[tactic(auto, unfolding(crate::specs::Grant::grant))]
fn check_one_password<K: Keep>(keep: &K, sent: &Sent, entry: &AuthEntry) -> Result<Grants, Refused>
    requires kind { session_kind entry.now.session ≡ kind.Password }
    requires resolved { IsResolved (K.record_of keep.now) sent.now }
    ensures { Gives granted_by (grants_pass (K.record_of keep.now)
        (whole_of sent.now.command.now) (locality_number sent.now.locality) []
        (entry_of entry.now ∷ [])) result }
{
    let grant = check_password(keep, sent.command.code, 1, used_at(sent, 0), entry)?;
    let mut grants = ArrayVec::new();
    grants.push(grant);
    Ok(Grants { grants })
}

/// Checks all entries in order. Nothing is hashed if there is no entry, or only a password entry.
fn check_all<K: Keep>(
    keep: &K,
    sent: &Sent,
    sessions: &[Option<&Session>],
    cache: &mut Cache,
) -> Result<Grants, Refused>
    requires sessions { AreSessions (K.record_of keep.now) sessions.now
        (whole_of sent.now.command.now).entries }
    requires resolved { IsResolved (K.record_of keep.now) sent.now }
    ensures { Gives granted_by (grants_pass (K.record_of keep.now) (whole_of sent.now.command.now)
        (locality_number sent.now.locality) [] (whole_of sent.now.command.now).entries) result }
{
    match sent.command.entries {
        [] => Ok(Grants {
            grants: ArrayVec::new(),
        }),
        [entry] if entry.session.session_kind() == SessionKind::Password => {
            check_one_password(keep, sent, entry)
        }
        _ => check_each(keep, sent, sessions, cache),
    }
}

/// Looks up the entities of a command's handles.
fn resolve_all<'a, K: Keep>(keep: &'a K, handles: &[Handle], all: &mut ArrayVec<Resolved<'a>, 3>)
    requires few { length handles.now ≤ 3 }
    requires empty { all.old.items ≡ [] }
    ensures { AreFound (K.record_of keep.now) all.new.items handles.now }
{
    for handle in handles {
        all.push(resolve(keep, *handle));
    }
}

/// Checks the entries of a command, and whether they authorize the handles that need
/// authorization. It checks in this order: each entry on its own; the number of entries; each
/// handle; each remaining entry; and whether the parameter that a session decrypts is complete.
pub fn authorize<K: Keep>(
    keep: &K,
    command: &Command,
    locality: Locality,
) -> Result<Grants, Refused>
    ensures { Gives granted_by (authorize (K.record_of keep.now) (whole_command command.now)
        (locality_number locality)) result }
{
    let command = command.borrowed();
    let mut entities = ArrayVec::new();
    resolve_all(keep, command.handles.as_slice(), &mut entities);
    let sent = &Sent {
        command: &command,
        entities: entities.as_slice(),
        locality,
    };
    authorize_sent(keep, sent, &mut Cache::new())
}

/// Checks the entries of a command as [`authorize`] does. The entities of the command's handles
/// have already been looked up. Caches what the response and the next command may need again.
#[tactic(auto, unfolding(crate::specs::Grant::authorize))]
pub fn authorize_sent<K: Keep>(keep: &K, sent: &Sent, cache: &mut Cache) -> Result<Grants, Refused>
    requires { IsResolved (K.record_of keep.now) sent.now }
    ensures { Gives granted_by (authorize (K.record_of keep.now) (whole_of sent.now.command.now)
        (locality_number sent.now.locality)) result }
{
    let command = sent.command;
    let entries = command.entries;
    let mut sessions = ArrayVec::new();
    check_entries(keep, command.code, entries, &mut sessions).map_err(|rc| Refused::by(
        Check::Entries,
        rc,
    ))?;
    if entries.len() < command.code.authorized_handles() {
        let rc = ResponseCode::AuthMissing.anywhere();
        return Err(Refused::by(Check::Entries, rc));
    }
    let grants = check_all(keep, sent, sessions.as_slice(), cache)?;
    if any_decrypts(entries) && is_cut(command.parameters) {
        let rc = ResponseCode::Insufficient.anywhere().at_parameter(1);
        return Err(Refused::by(Check::Others, rc));
    }
    Ok(grants)
}

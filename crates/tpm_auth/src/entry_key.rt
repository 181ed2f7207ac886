//! Checks the HMAC of a session's entry. Determines the authorization value in the HMAC's key and
//! the nonces that the HMAC covers.

ghost use Rattle.std.specs.Prelude.{◌≡◌, ◌≤◌, length, map, option_map};
ghost use Rattle.std.specs.Option.{ForSome};
ghost use Rattle.tpm_types_command.specs.AuthEntry.{entry_of};
ghost use Rattle.tpm_types_command.specs.Command.{whole_of};
ghost use Rattle.tpm_record.specs.Resolved.{IsFound};
ghost use Rattle.tpm_auth.specs.Entries.{decrypts};
ghost use Rattle.tpm_auth.specs.SessionGrant.{comparison_holds, entry_nonce, hashed_command, is_bound_to, nonce_where, only_encrypts, other_entries, takes_value, used_auth_value};
ghost use Rattle.tpm_auth.specs.Used.{IsToGrant, grant_by};

use crate::cache::LatestName;
use crate::comparison::is_password_of;
use crate::entries::{decrypts, encrypts};
use crate::session_grant::Grant;
use crate::used::{Granted, SessionEntry};
use tpm_bytes::is_equal;
use tpm_mac::KeyedMac;
use tpm_policy::Demand;
use tpm_record::{Keep, Resolved, resolve};
use tpm_session::{CommandText, ParameterHashes, Session};
use tpm_types_command::{AuthEntry, CommandRef};
use tpm_types_common::SessionType;

/// Whether a session is bound to an entity that still has the Name and the authorization value from
/// the session's start. If the authorization value has changed, the Name is not looked up.
#[tactic(auto, unfolding(crate::specs::SessionGrant::is_bound_to, tpm_record::specs::Entity::auth_value_of, tpm_record::specs::Entity::name_of))]
fn is_bound_to<K: Keep>(
    keep: &K,
    session: &Session,
    used: &Resolved,
    latest: &mut LatestName,
) -> bool
    requires { IsFound (K.record_of keep.now) used.now }
    ensures { result ≡ is_bound_to (K.record_of keep.now) session.now used.now.handle }
{
    match session.binding() {
        Some(binding) => {
            binding.auth_value.is_same(used.auth_value(keep))
                && latest.is_name_of(&binding.name, used)
        }
        None => false,
    }
}

/// Whether the HMAC key of an entry includes the authorization value of the entity that the entry
/// authorizes. `demand` is what the session's policy requires in the entry.
#[tactic(auto, unfolding(crate::specs::SessionGrant::takes_value))]
pub fn takes_value<K: Keep>(
    keep: &K,
    session: &Session,
    used: &Resolved,
    demand: Demand,
    latest: &mut LatestName,
) -> bool
    requires { IsFound (K.record_of keep.now) used.now }
    ensures { result ≡ takes_value (K.record_of keep.now) session.now
        (record { handle = used.now.handle; demand = demand }) }
{
    match session.kind() {
        SessionType::Hmac => !is_bound_to(keep, session, used, latest),
        SessionType::Policy | SessionType::Trial => demand == Demand::AuthValue,
    }
}

/// The authorization value in the HMAC key of an entry that authorizes this handle. An empty
/// value leaves the key unchanged.
#[tactic(auto, unfolding(crate::specs::SessionGrant::used_auth_value, tpm_record::specs::Entity::auth_value_of))]
fn key_value<'a, K: Keep>(
    keep: &'a K,
    session: &Session,
    used: &Resolved<'a>,
    demand: Demand,
    latest: &mut LatestName,
) -> &'a [u8]
    requires { IsFound (K.record_of keep.now) used.now }
    ensures value { result.now ≡ used_auth_value (K.record_of keep.now) session.now
        (Some (record { handle = used.now.handle; demand = demand })) }
    ensures fits { length result.now ≤ 32 }
{
    let value = used.auth_value(keep);
    if value.is_empty() || takes_value(keep, session, used, demand, latest) {
        value
    } else {
        &[]
    }
}

/// The authorization value in an entry's HMAC key. It is empty if the entry authorizes nothing.
#[tactic(auto, unfolding(crate::specs::SessionGrant::used_auth_value))]
pub fn used_auth_value<'a, K: Keep>(
    keep: &'a K,
    session: &Session,
    grant: Option<Grant>,
    latest: &mut LatestName,
) -> &'a [u8]
    ensures value { result.now ≡ used_auth_value (K.record_of keep.now) session.now grant }
    ensures fits { length result.now ≤ 32 }
{
    match grant {
        Some(grant) => {
            let used = resolve(keep, grant.handle);
            key_value(keep, session, &used, grant.demand, latest)
        }
        None => &[],
    }
}

/// The nonceTPM of an entry's session. It is empty if there is no session.
fn nonce_of<'a, K: Keep>(keep: &'a K, entry: &AuthEntry) -> &'a [u8]
    ensures { result.now ≡ entry_nonce (K.record_of keep.now) (entry_of entry.now) }
{
    match keep.sessions().get(entry.session) {
        Some(session) => session.nonce_tpm().as_slice(),
        None => &[],
    }
}

/// The nonceTPM of the first entry whose session decrypts the command, or empty if there is no such
/// entry.
#[tactic(auto, unfolding(crate::specs::SessionGrant::nonce_where))]
fn decrypting_nonce<'a, K: Keep>(keep: &'a K, entries: &[AuthEntry]) -> &'a [u8]
    ensures { result.now ≡ nonce_where (K.record_of keep.now) decrypts (map entry_of entries.now) }
{
    match entries {
        [first, ..] if decrypts(first) => nonce_of(keep, first),
        [_, others @ ..] => decrypting_nonce(keep, others),
        [] => &[],
    }
}

/// The nonceTPM of the first entry whose session encrypts the response, but does not decrypt the
/// command. It is empty if there is no such entry.
#[tactic(auto, unfolding(crate::specs::SessionGrant::nonce_where))]
fn encrypting_nonce<'a, K: Keep>(keep: &'a K, entries: &[AuthEntry]) -> &'a [u8]
    ensures { result.now
        ≡ nonce_where (K.record_of keep.now) only_encrypts (map entry_of entries.now) }
{
    match entries {
        [first, ..] if encrypts(first) && !decrypts(first) => nonce_of(keep, first),
        [_, others @ ..] => encrypting_nonce(keep, others),
        [] => &[],
    }
}

/// The other entries whose session nonces are covered by an entry's HMAC: if the entry is the first
/// one and authorizes a handle, all later entries; otherwise no entries.
fn other_entries<'a, 'b>(command: &CommandRef<'a, 'b>, number: u8) -> &'a [AuthEntry<'b>]
    ensures { map entry_of result.now ≡ other_entries (whole_of command.now) number }
{
    let entries = command.entries;
    let authorizes = number == 1 && command.code.authorized_handles() > 0;
    let first = if authorizes {
        entries.len().min(1)
    } else {
        entries.len()
    };
    &entries[first..]
}

/// The authorization value in the HMAC key of an entry that has to authorize a handle.
#[tactic(auto, unfolding(crate::specs::SessionGrant::used_auth_value, tpm_record::specs::Entity::auth_value_of))]
fn granted_key_value<'a, K: Keep>(keep: &'a K, session: &Session, granted: &Granted<'a>) -> &'a [u8]
    requires { IsToGrant (K.record_of keep.now) session.now granted.now }
    ensures value { result.now ≡ used_auth_value (K.record_of keep.now) session.now
        (Some (grant_by granted.now)) }
    ensures fits { length result.now ≤ 32 }
{
    if granted.takes_value {
        granted.used.auth_value(keep)
    } else {
        &[]
    }
}

/// The authorization value in the HMAC key of an entry. It is empty if the entry has no handle to
/// authorize.
#[tactic(auto, unfolding(crate::specs::SessionGrant::used_auth_value))]
fn value_in_key<'a, K: Keep>(
    keep: &'a K,
    session: &Session,
    granted: Option<Granted<'a>>,
) -> &'a [u8]
    requires { ForSome granted (IsToGrant (K.record_of keep.now) session.now) }
    ensures value { result.now ≡ used_auth_value (K.record_of keep.now) session.now
        (option_map grant_by granted.entry) }
    ensures fits { length result.now ≤ 32 }
{
    match granted {
        Some(granted) => granted_key_value(keep, session, &granted),
        None => &[],
    }
}

/// Whether the HMAC field of an entry is correct. If the session's policy requires a password, the
/// field must contain the password; otherwise, it must contain the HMAC. `granted` is the handle
/// that the entry has to authorize, if any.
#[tactic(auto, unfolding(crate::specs::SessionGrant::comparison_holds, crate::specs::SessionGrant::is_authentic, crate::specs::SessionGrant::entry_parts, tpm_record::specs::Entity::auth_value_of))]
pub fn comparison_holds<K: Keep>(
    keep: &K,
    command: &CommandRef,
    by: &SessionEntry,
    granted: Option<Granted>,
    hashes: &mut ParameterHashes,
    keyed: &mut KeyedMac,
) -> bool
    requires hashed { hashes.old ≡ hashed_command (K.record_of keep.now) (whole_of command.now) }
    requires used { ForSome granted (IsToGrant (K.record_of keep.now) by.now.session.now) }
    ensures value { result ≡ comparison_holds (K.record_of keep.now) (whole_of command.now)
        by.now.number (option_map grant_by granted.entry) (entry_of by.now.entry.now)
        by.now.session.now }
    ensures same { hashes.new ≡ hashes.old }
{
    let (entry, session) = (by.entry, by.session);
    match granted {
        Some(granted) if granted.demand == Demand::Password => {
            return is_password_of(granted.used.auth_value(keep), entry.hmac);
        }
        _ => {}
    }
    let value = value_in_key(keep, session, granted);
    if session.key().as_slice().is_empty() && value.is_empty() && entry.hmac.is_empty() {
        return true;
    }
    let others = other_entries(command, by.number);
    let hash = hashes.by(session.hash());
    let text = CommandText {
        hash: hash.as_slice(),
        nonce_caller: entry.nonce,
        decrypt_nonce: decrypting_nonce(keep, others),
        encrypt_nonce: encrypting_nonce(keep, others),
        attributes: entry.attributes,
    };
    let mac = session.command_mac(value, &text, keyed);
    is_equal(entry.hmac, mac.as_slice())
}

//! Decides what a session's entry authorizes, by its HMAC or by its policy. Checks whether the
//! session may authorize the handle, whether the entity whose authorization value the entry uses is
//! locked out, and whether the password or HMAC is correct.

ghost use Rattle.std.specs.Prelude.{◌≡◌, ◌≤◌, IfOk, length, option_map};
ghost use Rattle.tpm_bytes.specs.Reading.{Gives};
ghost use Rattle.std.specs.Option.{ForSome};
ghost use Rattle.tpm_types_command.specs.AuthEntry.{entry_of};
ghost use Rattle.tpm_types_command.specs.Command.{whole_of};
ghost use Rattle.tpm_types_common.specs.Locality.{locality_number};
ghost use Rattle.tpm_policy.specs.Use.{entity_parts, parts_of};
ghost use Rattle.tpm_record.specs.Entity.{entity_policy, entity_seen};
ghost use Rattle.tpm_session.specs.ParameterHash.{parameter_hash_of};
ghost use Rattle.tpm_auth.specs.Comparison.{is_locked_out};
ghost use Rattle.tpm_auth.specs.EmptyHmac.{EmptyHmacHasNoKey};
ghost use Rattle.tpm_auth.specs.SessionGrant.{binding_protection, by_policy, demand_of_session, entry_protection, granted_value, hashed_command, or_protection, session_grant, takes_value, use_of};
ghost use Rattle.tpm_record.specs.Resolved.{IsFound};
ghost use Rattle.tpm_auth.specs.Used.{IsToGrant, IsUsed, asked_grant, grant_by, grant_if_any, used_handle};

use crate::cache::{Cache, LatestName};
use crate::comparison::{check_of, failure, is_locked_out, lockout_refusal};
use crate::entry_key::{comparison_holds, takes_value};
use crate::used::{Granted, Sent, SessionEntry};
use tpm_policy::{Demand, EntityPolicy, Use};
use tpm_record::{Keep, Means, Resolved, auth_value_of};
use tpm_session::{ParameterHashes, Protection, Session};
use tpm_types_common::{Check, Handle, Refused, ResponseCode, SessionType};

/// A handle that an entry authorizes, and what the policy requires in that entry.
#[derive(Clone, Copy, PartialEq, Eq)]
pub struct Grant {
    pub handle: Handle,
    pub demand: Demand,
}

fn binding_protection(session: &Session) -> Protection
    ensures { result ≡ binding_protection session.now }
{
    match session.binding() {
        Some(binding) => binding.protection,
        None => Protection::None,
    }
}

fn or_protection(protection: Protection, other: Protection) -> Protection
    ensures { result ≡ or_protection protection other }
{
    match protection {
        Protection::None => other,
        Protection::Tries => Protection::Tries,
        Protection::Lockout => Protection::Lockout,
    }
}

/// The dictionary-attack protection for a session's entry that has to authorize this handle. If the
/// entry uses the authorization value of a protected entity, this is that entity's protection;
/// otherwise, it is the protection of the entity to which the session was bound.
#[tactic(auto, unfolding(crate::specs::SessionGrant::entry_protection, tpm_record::specs::Entity::protection_of))]
fn granted_protection<K: Keep>(keep: &K, session: &Session, granted: &Granted) -> Protection
    requires { IsToGrant (K.record_of keep.now) session.now granted.now }
    ensures { result ≡ entry_protection (K.record_of keep.now) session.now
        (Some (grant_by granted.now)) }
{
    let bound = binding_protection(session);
    if granted.takes_value || granted.demand == Demand::Password {
        or_protection(granted.used.protection(), bound)
    } else {
        bound
    }
}

/// The dictionary-attack protection for a session's entry. If the entry uses the authorization
/// value of a protected entity, this is that entity's protection; otherwise, it is the protection
/// of the entity to which the session was bound.
#[tactic(auto, unfolding(crate::specs::SessionGrant::entry_protection))]
fn entry_protection<K: Keep>(keep: &K, session: &Session, granted: Option<Granted>) -> Protection
    requires { ForSome granted (IsToGrant (K.record_of keep.now) session.now) }
    ensures { result ≡ entry_protection (K.record_of keep.now) session.now
        (option_map grant_by granted.entry) }
{
    match granted {
        Some(granted) => granted_protection(keep, session, &granted),
        None => binding_protection(session),
    }
}

/// Whether a session's entry uses the authorization value of an entity that is locked out. The
/// entity's protection is looked up only if the device is in lockout or lockoutAuth is disabled.
fn is_barred<K: Keep>(keep: &K, session: &Session, granted: Option<Granted>) -> bool
    requires { ForSome granted (IsToGrant (K.record_of keep.now) session.now) }
    ensures { result ≡ is_locked_out (K.record_of keep.now).fixed.lockout
        (entry_protection (K.record_of keep.now) session.now (option_map grant_by granted.entry)) }
{
    let lockout = &keep.fixed().lockout;
    (lockout.is_locked() || lockout.lockout_closed())
        && is_locked_out(lockout, entry_protection(keep, session, granted))
}

/// The policy of a handle's entity, if it has one. The result borrows from the entity.
fn policy_of<'a>(resolved: &'a Resolved) -> Option<EntityPolicy<'a>>
    ensures { option_map entity_parts result
        ≡ entity_policy (entity_seen resolved.now.entity) }
{
    let policy = resolved.policy()?;
    Some(EntityPolicy {
        hash: policy.hash,
        digest: policy.digest,
    })
}

/// Describes the command's use of a handle, which a policy session's entry has to authorize.
#[tactic(auto, unfolding(crate::specs::SessionGrant::use_of, tpm_record::specs::Entity::is_available, tpm_record::specs::Entity::written_of, tpm_record::specs::Entity::policy_of))]
fn use_of<'a, K: Keep>(
    keep: &K,
    sent: &Sent,
    by: &SessionEntry,
    resolved: &'a Resolved,
    cp_hash: &'a [u8],
) -> Use<'a>
    requires number { 1 ≤ by.now.number }
    requires hashed { cp_hash.now ≡ parameter_hash_of by.now.session.now.hash
        (hashed_command (K.record_of keep.now) (whole_of sent.now.command.now)) }
    requires found { IsFound (K.record_of keep.now) resolved.now }
    ensures { parts_of result ≡ use_of (K.record_of keep.now) (whole_of sent.now.command.now)
        (locality_number sent.now.locality) by.now.number resolved.now.handle
        by.now.session.now }
{
    let code = sent.command.code;
    let place = usize::from(by.number) - 1;
    Use {
        entry: by.number,
        kind: by.session.kind(),
        hash: by.session.hash(),
        available: resolved.is_available(Means::Policy, code.nv_use_at(place)),
        update_count: keep.fixed().banks.update_count(),
        command: code.number(),
        role: code.role_at(place),
        cp_hash,
        written: resolved.written(),
        locality: sent.locality,
        entity: policy_of(resolved),
    }
}

/// Returns what the session's policy requires in its entry, if the policy authorizes the command to
/// use this handle.
fn policy_demand<K: Keep>(
    keep: &K,
    sent: &Sent,
    by: &SessionEntry,
    resolved: &Resolved,
    hashes: &mut ParameterHashes,
) -> Result<Demand, Refused>
    requires number { 1 ≤ by.now.number }
    requires hashed { hashes.old
        ≡ hashed_command (K.record_of keep.now) (whole_of sent.now.command.now) }
    requires found { IsFound (K.record_of keep.now) resolved.now }
    ensures value { result ≡ by_policy (K.record_of keep.now) (whole_of sent.now.command.now)
        (locality_number sent.now.locality) by.now.number resolved.now.handle
        by.now.session.now }
    ensures same { hashes.new ≡ hashes.old }
{
    let cp_hash = hashes.by(by.session.hash());
    let asked = use_of(keep, sent, by, resolved, cp_hash.as_slice());
    match by.session.policy().check_use(&asked) {
        Ok(demand) => Ok(demand),
        Err(rc) => Err(Refused::by(Check::Authorization, rc)),
    }
}

/// If the session can authorize this handle, returns what its policy requires in the entry. An HMAC
/// session requires nothing in addition to its HMAC.
#[tactic(auto, unfolding(crate::specs::SessionGrant::demand_of_session, tpm_record::specs::Entity::is_available))]
fn demand_of<K: Keep>(
    keep: &K,
    sent: &Sent,
    by: &SessionEntry,
    resolved: &Resolved,
    hashes: &mut ParameterHashes,
) -> Result<Demand, Refused>
    requires number { 1 ≤ by.now.number }
    requires hashed { hashes.old
        ≡ hashed_command (K.record_of keep.now) (whole_of sent.now.command.now) }
    requires found { IsFound (K.record_of keep.now) resolved.now }
    ensures value { result ≡ demand_of_session (K.record_of keep.now)
        (whole_of sent.now.command.now)
        (locality_number sent.now.locality) by.now.number resolved.now.handle
        by.now.session.now }
    ensures same { hashes.new ≡ hashes.old }
{
    let nv_use = sent.command.code.nv_use_at(usize::from(by.number) - 1);
    match by.session.kind() {
        SessionType::Hmac if resolved.is_available(Means::AuthValue, nv_use) => Ok(Demand::None),
        SessionType::Hmac => {
            let rc = ResponseCode::AuthUnavailable.anywhere();
            Err(Refused::by(Check::Authorization, rc))
        }
        SessionType::Policy | SessionType::Trial => policy_demand(keep, sent, by, resolved, hashes),
    }
}

/// The authorization value of the entity that an entry authorizes; empty if the entry authorizes
/// nothing.
pub fn granted_value<'a, K: Keep>(keep: &'a K, grant: Option<Grant>) -> &'a [u8]
    ensures value { result.now ≡ granted_value (K.record_of keep.now) grant }
    ensures fits { length result.now ≤ 32 }
{
    match grant {
        Some(grant) => auth_value_of(keep, grant.handle),
        None => &[],
    }
}

/// Returns the grant: the handle and what the policy requires, without the handle's entity.
fn grant_of(granted: Option<Granted>) -> Option<Grant>
    ensures { result ≡ option_map grant_by granted.entry }
{
    match granted {
        Some(granted) => Some(granted.grant()),
        None => None,
    }
}

/// If a session's entry has a handle to authorize, checks whether the session can authorize it.
/// Returns the handle with what the session's policy requires in the entry.
fn granted_to<'a, K: Keep>(
    keep: &K,
    sent: &Sent,
    by: &SessionEntry,
    used: Option<Resolved<'a>>,
    hashes: &mut ParameterHashes,
    latest: &mut LatestName,
) -> Result<Option<Granted<'a>>, Refused>
    requires number { 1 ≤ by.now.number }
    requires hashed { hashes.old
        ≡ hashed_command (K.record_of keep.now) (whole_of sent.now.command.now) }
    requires used { ForSome used (IsUsed (K.record_of keep.now)) }
    ensures value { Gives grant_if_any (asked_grant (K.record_of keep.now)
        (whole_of sent.now.command.now) (locality_number sent.now.locality) by.now.number
        (option_map used_handle used.entry) by.now.session.now) result }
    ensures found { IfOk result (λ granted.
        ForSome granted (IsToGrant (K.record_of keep.now) by.now.session.now)) }
    ensures same { hashes.new ≡ hashes.old }
{
    let Some(used) = used else {
        return Ok(None);
    };
    let demand = demand_of(keep, sent, by, &used, hashes)?;
    let takes_value = takes_value(keep, by.session, &used, demand, latest);
    Ok(Some(Granted {
        used,
        demand,
        takes_value,
    }))
}

/// Checks whether a session can authorize the entry's handle, if the entry has one to authorize,
/// and whether the password or HMAC in the entry is correct. Nothing is compared if the entity whose
/// authorization value the entry uses is locked out. Returns the entry's grant, if any.
#[tactic(auto, using(crate::proofs::Asking::asked_first))]
pub fn check_session<K: Keep>(
    keep: &K,
    sent: &Sent,
    by: &SessionEntry,
    used: Option<Resolved>,
    hashes: &mut ParameterHashes,
    cache: &mut Cache,
) -> Result<Option<Grant>, Refused>
    requires number { 1 ≤ by.now.number }
    requires hashed { hashes.old
        ≡ hashed_command (K.record_of keep.now) (whole_of sent.now.command.now) }
    requires used { ForSome used (IsUsed (K.record_of keep.now)) }
    ensures value { result ≡ session_grant (K.record_of keep.now) (whole_of sent.now.command.now)
        (locality_number sent.now.locality) by.now.number (option_map used_handle used.entry)
        (entry_of by.now.entry.now) by.now.session.now }
    ensures same { hashes.new ≡ hashes.old }
{
    let granted = granted_to(keep, sent, by, used, hashes, &mut cache.name)?;
    let grant = grant_of(granted);
    if is_barred(keep, by.session, granted) {
        return Err(lockout_refusal(grant));
    }
    if comparison_holds(keep, sent.command, by, granted, hashes, &mut cache.keyed) {
        return Ok(grant);
    }
    let protection = entry_protection(keep, by.session, granted);
    Err(failure(check_of(grant), by.number, protection))
}

/// If a session's entry is accepted with an empty HMAC, then the HMAC key was empty or a policy
/// required a password. This function is only a proof: it has no effect at run time.
#[inline(always)]
#[tactic(auto, using(crate::proofs::EmptyHmac::no_key))]
pub fn empty_hmac_laws()
    ensures { EmptyHmacHasNoKey }
{}

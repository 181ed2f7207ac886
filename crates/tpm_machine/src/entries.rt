//! Session processing after a successful command: draws new nonces, answers each entry, and ends
//! the sessions that do not continue.

ghost use Rattle.std.specs.Prelude.{◌≡◌, ◌+◌, ◌*◌, ◌≤◌, ◌++◌, IfSome, length, map};
ghost use Rattle.std.specs.List.{zip};
ghost use Rattle.tpm_session.specs.Sessions.{session_at, sessions_after_roll};
ghost use Rattle.tpm_types_command.specs.AuthEntry.{entry_of};
ghost use Rattle.tpm_auth.specs.SessionGrant.{demands_password};
ghost use Rattle.tpm_step.specs.step.Entries.{answer_mac, draw_of, entries_answer, entries_ended, entries_rolled, entry_answer, entry_ended, entry_restarted, entry_rolled};

use crate::draws::Draws;
use tpm_auth::{Cache, Grant, used_auth_value};
use tpm_bytes::Sink;
use tpm_mac::Digest;
use tpm_policy::{Demand, PolicyState};
use tpm_record::Keep;
use tpm_session::{Nonce, ParameterHashes, Session};
use tpm_types_command::AuthEntry;
use tpm_types_common::{Handle, SessionType};

/// The answer to a password entry: an empty nonce, continueSession, and an empty HMAC
/// (TPMS_AUTH_RESPONSE, TPM 2.0 Library, Part 2, section 10.13.3).
const PASSWORD_ANSWER: [u8; 5] = [0, 0, 1, 0, 0];

/// The maximum total size of the answers to a command's entries: three answers of 69 bytes.
pub const ENTRY_ANSWERS_LIMIT: usize = 207;

/// The size of the next nonce of an entry's session.
#[tactic(auto, unfolding(tpm_step::specs::step::Entries::draw_of))]
fn draw_of<K: Keep>(keep: &K, entry: &AuthEntry) -> usize
    ensures value { result ≡ draw_of (K.record_of keep.now) (entry_of entry.now) }
    ensures small { result ≤ 32 }
{
    match keep.sessions().get(entry.session) {
        Some(session) => session.nonce_tpm().len(),
        None => 0,
    }
}

/// Replaces the nonceTPM of a session by one of the same size.
fn roll_session<K: Keep>(keep: &mut K, handle: Handle, nonce: Nonce)
    requires { IfSome (session_at (K.record_of keep.old).sessions handle)
        (λ session. length nonce ≡ length session.nonce_tpm) }
    ensures { K.record_of keep.new ≡ record (K.record_of keep.old) {
      sessions = sessions_after_roll (K.record_of keep.old).sessions handle nonce;
    } }
{
    keep.sessions_mut().roll(handle, nonce);
}

#[tactic(auto, unfolding(tpm_step::specs::step::Entries::entry_rolled))]
fn roll_entry<K: Keep>(keep: &mut K, entry: &AuthEntry, draws: &mut Draws)
    requires { 32 ≤ length draws.old }
    ensures rolled { entry_rolled (K.record_of keep.old) (entry_of entry.now) draws.old
        ≡ record { after = K.record_of keep.new; left = draws.new } }
    ensures drawn { length draws.old ≤ length draws.new + 32 }
    ensures left { length draws.new ≤ length draws.old }
{
    let nonce = draws.nonce(draw_of(keep, entry));
    roll_session(keep, entry.session, nonce);
}

/// Draws new nonces for the sessions of the entries, in order.
pub fn roll_entries<K: Keep>(keep: &mut K, entries: &[AuthEntry], draws: &mut Draws)
    requires few { length entries.now ≤ 3 }
    requires random { 3 * 32 ≤ length draws.old }
    ensures rolled { entries_rolled (K.record_of keep.old) (map entry_of entries.now) draws.old
        ≡ record { after = K.record_of keep.new; left = draws.new } }
    ensures drawn { length draws.old ≤ length draws.new + 3 * 32 }
    ensures left { length draws.new ≤ length draws.old }
{
    for entry in entries {
        roll_entry(keep, entry, draws);
    }
}

fn demands_password(grant: Option<Grant>) -> bool
    ensures { result ≡ demands_password grant }
{
    match grant {
        Some(grant) => grant.demand == Demand::Password,
        None => false,
    }
}

/// The HMAC of the answer to an entry.
#[tactic(auto, unfolding(tpm_step::specs::step::Entries::answer_mac))]
fn answer_mac<K: Keep>(
    keep: &K,
    hashes: &mut ParameterHashes,
    cache: &mut Cache,
    grant: Option<Grant>,
    entry: &AuthEntry,
    session: &Session,
) -> Digest
    ensures value { result.items
        ≡ answer_mac (K.record_of keep.now) hashes.old grant (entry_of entry.now) session.now }
    ensures same { hashes.new ≡ hashes.old }
{
    if entry.hmac.is_empty() || demands_password(grant) {
        return Digest::new();
    }
    let value = used_auth_value(keep, session, grant, &mut cache.name);
    let hash = hashes.by(session.hash());
    let nonce = entry.nonce;
    session.response_mac(
        value,
        hash.as_slice(),
        nonce,
        entry.attributes,
        &mut cache.keyed,
    )
}

/// Appends the answer to an entry: the new nonceTPM, the attributes, and the HMAC.
#[tactic(auto, unfolding(tpm_step::specs::step::Entries::entry_answer, tpm_step::specs::step::Entries::session_answer))]
fn answer_entry<K: Keep>(
    keep: &K,
    hashes: &mut ParameterHashes,
    cache: &mut Cache,
    grant: Option<Grant>,
    entry: &AuthEntry,
    area: &mut Sink<ENTRY_ANSWERS_LIMIT>,
)
    requires room { length area.old + 69 ≤ ENTRY_ANSWERS_LIMIT }
    ensures text { area.new ≡ area.old ++ entry_answer (K.record_of keep.now) hashes.old grant
        (entry_of entry.now) }
    ensures grown { length area.new ≤ length area.old + 69 }
    ensures same { hashes.new ≡ hashes.old }
{
    match keep.sessions().get(entry.session) {
        Some(session) => {
            let mac = answer_mac(keep, hashes, cache, grant, entry, session);
            area.append_sized(session.nonce_tpm().as_slice());
            area.append_u8(entry.attributes.octet);
            area.append_sized(mac.as_slice());
        }
        None => area.append(&PASSWORD_ANSWER),
    }
}

/// Appends the answer to each entry of a command, in order. `grants` says which handle each entry
/// authorized, if any.
pub fn answer_entries<K: Keep>(
    keep: &K,
    hashes: &mut ParameterHashes,
    cache: &mut Cache,
    entries: &[AuthEntry],
    grants: &[Option<Grant>],
    area: &mut Sink<ENTRY_ANSWERS_LIMIT>,
)
    requires room { length area.old + 69 * length entries.now ≤ ENTRY_ANSWERS_LIMIT }
    ensures { area.new ≡ area.old ++ entries_answer (K.record_of keep.now) hashes.old
        (zip (map entry_of entries.now) grants.now) }
{
    let [entry, entries @ ..] = entries else {
        return;
    };
    let [grant, grants @ ..] = grants else {
        return;
    };
    answer_entry(keep, hashes, cache, *grant, entry, area);
    answer_entries(keep, hashes, cache, entries, grants, area);
}

/// Resets the policy of an entry's session to its initial state, if it is a policy session.
#[tactic(auto, unfolding(tpm_step::specs::step::Entries::entry_restarted), using(tpm_policy::proofs::Sizes::starting_sized))]
fn restart_entry<K: Keep>(keep: &mut K, entry: &AuthEntry)
    ensures { K.record_of keep.new ≡ entry_restarted (K.record_of keep.old) (entry_of entry.now) }
{
    let policy = match keep.sessions().get(entry.session) {
        Some(session) if session.kind() == SessionType::Policy => PolicyState::new(session.hash()),
        _ => return,
    };
    keep.sessions_mut().set_policy(entry.session, policy);
}

#[tactic(auto, unfolding(tpm_step::specs::step::Entries::entry_ended))]
fn end_entry<K: Keep>(keep: &mut K, entry: &AuthEntry, grant: Option<Grant>)
    ensures { K.record_of keep.new
        ≡ entry_ended (K.record_of keep.old) (entry_of entry.now) grant }
{
    if !entry.attributes.continues_session() {
        keep.sessions_mut().flush(entry.session);
    } else if grant.is_some() {
        restart_entry(keep, entry);
    }
}

/// Ends the sessions that do not continue. Resets the policy of each other policy session that
/// authorized a handle.
pub fn end_entries<K: Keep>(keep: &mut K, entries: &[AuthEntry], grants: &[Option<Grant>])
    ensures { K.record_of keep.new
        ≡ entries_ended (K.record_of keep.old) (zip (map entry_of entries.now) grants.now) }
{
    let [entry, entries @ ..] = entries else {
        return;
    };
    let [grant, grants @ ..] = grants else {
        return;
    };
    end_entry(keep, entry, *grant);
    end_entries(keep, entries, grants);
}

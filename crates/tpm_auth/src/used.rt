//! A command's handles and entries, together with their entities and sessions, each of which is
//! looked up only once; and what an entry has to authorize.

ghost use Rattle.std.specs.Prelude.{◌≡◌, length, slice_get, take};
ghost use Rattle.tpm_types_command.specs.Command.{whole_of};
ghost use Rattle.tpm_commands.specs.CommandCode.{authorized_handles};
ghost use Rattle.tpm_record.specs.Record.{Record};
ghost use Rattle.tpm_auth.specs.Grant.{authorized};
ghost use Rattle.tpm_auth.specs.Used.{IsResolved, IsUsedFor, grant_by};

use crate::session_grant::Grant;
use tpm_policy::Demand;
use tpm_record::Resolved;
use tpm_session::Session;
use tpm_types_command::{AuthEntry, CommandRef};
use tpm_types_common::Locality;

/// A command with its locality and the entities of its handles.
#[derive(Clone, Copy)]
pub struct Sent<'a, 'b, 'c> {
    pub command: &'a CommandRef<'b, 'c>,
    /// The entity of each handle, as found in the device's state.
    pub entities: &'a [Resolved<'a>],
    pub locality: Locality,
}

/// An entry of a command, with its position, counted from 0, and the session that it names, if
/// there is one.
#[derive(Clone, Copy)]
pub struct SentEntry<'a, 'b> {
    pub place: usize,
    pub entry: &'a AuthEntry<'b>,
    pub session: Option<&'a Session>,
}

/// An entry that names a session, with its number and this session.
#[derive(Clone, Copy)]
pub struct SessionEntry<'a, 'b> {
    pub number: u8,
    pub entry: &'a AuthEntry<'b>,
    pub session: &'a Session,
}

/// What an entry of a session authorizes: a handle with its entity, and what the policy requires in
/// the entry (`Demand`).
#[derive(Clone, Copy)]
pub struct Granted<'a> {
    pub used: Resolved<'a>,
    pub demand: Demand,
    /// Whether the HMAC key includes the entity's authorization value.
    pub takes_value: bool,
}

impl Granted<'_> {
    /// Returns the grant: the handle and what the policy requires, without the handle's entity.
    pub fn grant(&self) -> Grant
        ensures { result ≡ grant_by self.now }
    {
        Grant {
            handle: self.used.handle,
            demand: self.demand,
        }
    }
}

/// The handles of a command that need authorization, with their entities.
fn authorized<'a>(sent: &Sent<'a, '_, '_>) -> &'a [Resolved<'a>]
    requires { length sent.now.entities.now ≡ length (whole_of sent.now.command.now).handles }
    ensures { result.now ≡ take (authorized_handles (whole_of sent.now.command.now).code)
        sent.now.entities.now }
{
    &sent.entities[..sent.command.code.authorized_handles()]
}

/// The handle that the entry at a position has to authorize, or None if that entry has nothing to
/// authorize.
#[tactic(auto, using(crate::proofs::Resolving::used_in, crate::proofs::Resolving::nothing_in))]
pub fn used_at<'a>(sent: &Sent<'a, '_, '_>, place: usize) -> Option<Resolved<'a>>
    requires { length sent.now.entities.now ≡ length (whole_of sent.now.command.now).handles }
    ensures { (r : Record) → IsResolved r sent.now
        → IsUsedFor r (slice_get (authorized (whole_of sent.now.command.now)) place) result }
{
    match authorized(sent).get(place) {
        Some(resolved) => Some(*resolved),
        None => None,
    }
}

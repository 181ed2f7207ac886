//! The slots of the sessions, in a state text.

ghost use Rattle.std.specs.Prelude.{◌≡◌, ◌<◌, ◌≤◌, ◌+◌, ◌++◌, length};
ghost use Rattle.tpm_containers.specs.Slots.{free};
ghost use Rattle.tpm_image_text.specs.Filling.{Fills};
ghost use Rattle.tpm_image_text.specs.Sizes.{text_size};
ghost use Rattle.tpm_session.specs.Sessions.{places_of};
ghost use Rattle.tpm_state_text.specs.Filling.{FillsPlace};
ghost use Rattle.tpm_state_text.specs.Places.{optional_in};
ghost use Rattle.tpm_state_text.specs.Sessions.{session_in, sessions_in, sessions_text};
ghost use Rattle.tpm_state_text.specs.Sizes.{sessions_size};
ghost use Rattle.tpm_types_common.specs.Limits.{session_limit};

use crate::session::{read_optional_session, write_optional_session};
use tpm_bytes::Cursor;
use tpm_containers::Slots;
use tpm_image_text::{FillFault, Text};
use tpm_session::{Session, Sessions};
use tpm_types_common::SESSION_LIMIT;

/// Reads a slot. If it contains a session, stores the session in the same slot of the device,
/// which is still free.
fn read_place<S: Slots<Session, SESSION_LIMIT>>(
    sessions: &mut Sessions<S>,
    place: usize,
    text: &mut Cursor,
) -> Result<(), FillFault>
    requires { place < session_limit }
    ensures { FillsPlace S.can_refuse (optional_in session_in text.old)
        (places_of S.places sessions.old) place result (places_of S.places sessions.new) text.new }
{
    let Ok(value) = read_optional_session(text) else {
        return Err(FillFault::Malformed);
    };
    let Some(session) = value else {
        return Ok(());
    };
    sessions
        .put(place, session)
        .map_err(|_| FillFault::NoMemory)
}

/// Reads the sessions into the slots of a device. All of these slots must be free.
#[tactic(auto, unfolding(crate::specs::Sessions::sessions_in))]
pub fn read_sessions<S: Slots<Session, SESSION_LIMIT>>(
    sessions: &mut Sessions<S>,
    text: &mut Cursor,
) -> Result<(), FillFault>
    requires { places_of S.places sessions.old ≡ free session_limit }
    ensures { Fills S.can_refuse (sessions_in text.old) (places_of S.places sessions.new)
        result text.new }
{
    for place in 0..SESSION_LIMIT {
        read_place(sessions, place, text)?;
    }
    Ok(())
}

/// Writes the sessions, slot by slot.
#[tactic(auto, unfolding(crate::specs::Sessions::sessions_text))]
pub fn write_sessions<S: Slots<Session, SESSION_LIMIT>>(sessions: &Sessions<S>, text: &mut Text)
    requires { length text.old + sessions_size ≤ text_size }
    ensures written { text.new ≡ text.old ++ sessions_text (places_of S.places sessions.now) }
    ensures small { length text.new ≤ length text.old + sessions_size }
{
    sessions.read_sizes();
    for place in 0..SESSION_LIMIT {
        write_optional_session(sessions.in_place(place), text);
    }
}

//! The handles of sessions that the layer lists, and of the transient objects that it counts.

ghost use Rattle.std.specs.Prelude.{◌≡◌, ◌≤◌, ◌<◌, ◌+◌, ◌++◌, [], length};
ghost use Rattle.tpm_types_common.specs.Limits.{object_limit, session_limit};
ghost use Rattle.tpm_actions_capability.specs.Elements.{object_element, object_elements};
ghost use Rattle.tpm_completion.specs.Handles.{is_in_state, session_shown, sessions_shown};

use crate::completion::Completion;
use crate::listing::{Elements, element};
use tpm_containers::numbered;
use tpm_record::Keep;
use tpm_session::handle_of;
use tpm_types_common::{Handle, OBJECT_LIMIT, SESSION_LIMIT};

/// Lists the transient object in a slot, if there is one.
fn object<K: Keep>(keep: &K, place: u32, elements: &mut Elements)
    requires place { place < object_limit }
    requires room { length elements.old.items < 64 }
    ensures added { elements.new.items
        ≡ elements.old.items ++ object_element (K.record_of keep.now) place }
    ensures few { length elements.new.items ≤ length elements.old.items + 1 }
{
    let handle = Handle {
        number: numbered::number_of(0x80, place as usize),
    };
    if keep.objects().get(handle).is_some() {
        elements.push(element(handle.number, handle.number));
    }
}

/// Lists the transient objects.
#[tactic(auto, using(tpm_actions_capability::proofs::Listing::one_more))]
pub fn objects<K: Keep>(keep: &K, elements: &mut Elements)
    requires { elements.old.items ≡ [] }
    ensures value { elements.new.items ≡ object_elements (K.record_of keep.now) }
    ensures few { length elements.new.items ≤ object_limit }
{
    for place in 0..OBJECT_LIMIT as u32 {
        object(keep, place, elements);
    }
}

/// Whether a session with this context number is in the given state: saved if `saved` is true,
/// otherwise loaded. The number 0 means loaded.
fn is_in_state(saved: bool, context: u64) -> bool
    ensures { result ≡ is_in_state saved context }
{
    if saved { context != 0 } else { context == 0 }
}

/// Lists the session in a slot if it is saved (for `saved` true) or loaded (for `saved` false).
#[tactic(auto, unfolding(crate::specs::Handles::session_shown))]
fn session<K: Keep>(layer: &Completion, keep: &K, saved: bool, place: u32, elements: &mut Elements)
    requires place { place < session_limit }
    requires room { length elements.old.items < 64 }
    ensures added { elements.new.items
        ≡ elements.old.items ++ session_shown (K.record_of keep.now) layer.now saved place }
    ensures few { length elements.new.items ≤ length elements.old.items + 1 }
{
    if !is_in_state(saved, layer.session(place as usize)) {
        return;
    }
    if let Some(session) = keep.sessions().in_place(place as usize) {
        let handle = handle_of(session.kind(), place as usize);
        elements.push(element(place, handle.number));
    }
}

/// Lists the saved sessions if `saved` is true, otherwise the loaded sessions.
#[tactic(auto, using(tpm_actions_capability::proofs::Listing::one_more))]
pub fn sessions<K: Keep>(layer: &Completion, keep: &K, saved: bool, elements: &mut Elements)
    requires { elements.old.items ≡ [] }
    ensures { elements.new.items ≡ sessions_shown (K.record_of keep.now) layer.now saved }
{
    for place in 0..SESSION_LIMIT as u32 {
        session(layer, keep, saved, place, elements);
    }
}

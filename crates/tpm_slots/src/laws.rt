//! A device with its state in fixed slots never runs out of memory.

ghost use Rattle.std.specs.Prelude.{◌≡◌, false};

use crate::keep::SlotKeep;
use tpm_containers::Slots;
use tpm_nv::Indices;
use tpm_object::Object;
use tpm_record::{Keep, PersistentObjects};
use tpm_session::Session;
use tpm_types_common::{OBJECT_LIMIT, SESSION_LIMIT};

/// With the state in fixed slots, neither creating the state nor adding a value to it ever runs out
/// of memory. The same holds for each container of the state. This function is only a proof: it has
/// no effect at run time.
#[inline(always)]
pub fn fixed_laws()
    ensures never_refused { ⟦<SlotKeep as Keep>⟧.can_refuse ≡ false }
    ensures made { ⟦<SlotKeep as Keep>⟧.empty_can_refuse ≡ false }
    ensures sessions { ⟦<<SlotKeep as Keep>::Se as Slots<Session, SESSION_LIMIT>>⟧.can_refuse ≡ false }
    ensures objects { ⟦<<SlotKeep as Keep>::ObjectSlots as Slots<Object, OBJECT_LIMIT>>⟧.can_refuse ≡ false }
    ensures persistent { ⟦<<SlotKeep as Keep>::PersistentMap as PersistentObjects>⟧.can_refuse ≡ false }
    ensures nv { ⟦<<SlotKeep as Keep>::Nv as Indices>⟧.can_refuse ≡ false }
{}

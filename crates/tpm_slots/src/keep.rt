//! The device's state in fixed slots.

use crate::indices::IndexPlaces;
use crate::objects::ObjectPlaces;
use crate::persistent::PersistentPlaces;
use crate::sessions::SessionPlaces;
use std::alloc::Global;
use tpm_bytes::NoMemory;
use tpm_nv::Indices;
use tpm_record::objects::Objects;
use tpm_record::{Fixed, Keep, PersistentObjects};
use tpm_session::Sessions;

/// The device's state in fixed slots, one for each session, object and index that a device can
/// have. A value takes about 40,300 bytes. Therefore it is created once, and then passed by
/// reference.
#[derive(Drop)]
pub struct SlotKeep {
    fixed: Fixed,
    sessions: Sessions<SessionPlaces>,
    objects: Objects<ObjectPlaces>,
    persistent: PersistentPlaces,
    nv: IndexPlaces,
}

impl Keep for SlotKeep {
    ghost use Rattle.std.specs.Prelude.{false, refl};
    ghost use Rattle.tpm_slots.specs.SlotRecord.{slot_record};

    type Se = SessionPlaces;

    type ObjectSlots = ObjectPlaces;

    type PersistentMap = PersistentPlaces;

    type Nv = IndexPlaces;

    ghost record_of = { slot_record };

    ghost with_fixed = { λ keep fixed. record keep { fixed = fixed } };

    ghost with_sessions = { λ keep sessions. record keep { sessions = sessions } };

    ghost with_objects = { λ keep objects. record keep { objects = objects } };

    ghost with_persistent = { λ keep persistent. record keep { persistent = persistent } };

    ghost with_nv = { λ keep nv. record keep { nv = nv } };

    ghost can_refuse = { false };

    ghost empty_can_refuse = { false };

    // This function is inlined, because a separate call would create the value on the stack and
    // then move it.
    #[inline(always)]
    fn empty(alloc: Global) -> Result<SlotKeep, NoMemory> {
        Ok(SlotKeep {
            fixed: Fixed::manufactured(&[0; 256]),
            sessions: Sessions::new(alloc),
            objects: Objects::new(alloc),
            persistent: PersistentPlaces::new(alloc),
            nv: IndexPlaces::new(alloc),
        })
    }

    fn fixed(&self) -> &Fixed {
        &self.fixed
    }

    fn fixed_mut(&mut self) -> &mut Fixed {
        &mut self.fixed
    }

    fn sessions(&self) -> &Sessions<SessionPlaces> {
        &self.sessions
    }

    fn sessions_mut(&mut self) -> &mut Sessions<SessionPlaces> {
        &mut self.sessions
    }

    fn objects(&self) -> &Objects<ObjectPlaces> {
        &self.objects
    }

    fn objects_mut(&mut self) -> &mut Objects<ObjectPlaces> {
        &mut self.objects
    }

    fn persistent(&self) -> &PersistentPlaces {
        &self.persistent
    }

    fn persistent_mut(&mut self) -> &mut PersistentPlaces {
        &mut self.persistent
    }

    fn nv(&self) -> &IndexPlaces {
        &self.nv
    }

    fn nv_mut(&mut self) -> &mut IndexPlaces {
        &mut self.nv
    }

    ghost fixed_written = { λ keep fixed. refl };

    ghost sessions_written = { λ keep sessions. refl };

    ghost objects_written = { λ keep objects. refl };

    ghost persistent_written = { λ keep persistent. refl };

    ghost nv_written = { λ keep nv. refl };

    ghost sessions_can_refuse = { λ e. e };

    ghost objects_can_refuse = { λ e. e };

    ghost persistent_can_refuse = { λ e. e };

    ghost nv_can_refuse = { λ e. e };
}

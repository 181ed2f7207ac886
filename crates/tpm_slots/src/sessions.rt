//! The slots of the sessions.

use std::alloc::Global;
use tpm_containers::{FixedSlots, SlotFault, Slots};
use tpm_session::Session;
use tpm_types_common::SESSION_LIMIT;

/// A slot for each session that a device can have.
#[derive(Drop)]
pub struct SessionPlaces {
    slots: FixedSlots<Session, SESSION_LIMIT>,
}

impl Slots<Session, SESSION_LIMIT> for SessionPlaces {
    ghost use Rattle.std.specs.Prelude.{Some, false, refl, slice_set};

    ghost places = { λ all. all.slots };

    ghost with_place = { λ all place value.
        record all { slots = slice_set all.slots place (Some value) } };

    ghost can_refuse = { false };

    #[inline(always)]
    fn new(alloc: Global) -> SessionPlaces {
        SessionPlaces {
            slots: FixedSlots::new(alloc),
        }
    }

    fn get(&self, place: usize) -> Option<&Session> {
        self.slots.get(place)
    }

    fn get_mut(&mut self, place: usize) -> Option<&mut Session> {
        self.slots.get_mut(place)
    }

    fn free(&self) -> Option<usize> {
        self.slots.free()
    }

    fn insert(&mut self, value: Session) -> Result<usize, SlotFault> {
        self.slots.insert(value)
    }

    fn put(&mut self, place: usize, value: Session) -> Result<(), SlotFault> {
        self.slots.put(place, value)
    }

    fn remove(&mut self, place: usize) {
        self.slots.remove(place);
    }

    fn clear(&mut self) {
        self.slots.clear();
    }

    ghost written = { λ all place value. refl };
}

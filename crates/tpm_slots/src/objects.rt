//! The slots of the transient objects.

use std::alloc::Global;
use tpm_containers::{FixedSlots, SlotFault, Slots};
use tpm_object::Object;
use tpm_types_common::OBJECT_LIMIT;

/// A slot for each transient object that a device can have.
#[derive(Drop)]
pub struct ObjectPlaces {
    slots: FixedSlots<Object, OBJECT_LIMIT>,
}

impl Slots<Object, OBJECT_LIMIT> for ObjectPlaces {
    ghost use Rattle.std.specs.Prelude.{Some, false, refl, slice_set};

    ghost places = { λ all. all.slots };

    ghost with_place = { λ all place value.
        record all { slots = slice_set all.slots place (Some value) } };

    ghost can_refuse = { false };

    #[inline(always)]
    fn new(alloc: Global) -> ObjectPlaces {
        ObjectPlaces {
            slots: FixedSlots::new(alloc),
        }
    }

    fn get(&self, place: usize) -> Option<&Object> {
        self.slots.get(place)
    }

    fn get_mut(&mut self, place: usize) -> Option<&mut Object> {
        self.slots.get_mut(place)
    }

    fn free(&self) -> Option<usize> {
        self.slots.free()
    }

    fn insert(&mut self, value: Object) -> Result<usize, SlotFault> {
        self.slots.insert(value)
    }

    fn put(&mut self, place: usize, value: Object) -> Result<(), SlotFault> {
        self.slots.put(place, value)
    }

    fn remove(&mut self, place: usize) {
        self.slots.remove(place);
    }

    fn clear(&mut self) {
        self.slots.clear();
    }

    ghost written = { λ all place value. refl };
}

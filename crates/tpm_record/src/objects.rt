//! The transient objects of a device as a map keyed by handle, and laws about this map.

ghost use Rattle.tpm_types_common.specs.Limits.{object_limit};
ghost use Rattle.std.specs.Prelude.{◌≡◌, ◌<◌, is_some, length, option_copied};
ghost use Rattle.tpm_object.specs.Object.{IsObject, transient_byte};
ghost use Rattle.tpm_containers.specs.Numbered.{MapLaws};
ghost use Rattle.tpm_containers.specs.Slots.{AreAll, Puts, at_place};
ghost use Rattle.tpm_record.specs.AnyObject.{next_transient};
ghost use Rattle.tpm_record.specs.Clear.{ClearingLaws, cleared_objects};
ghost use Rattle.tpm_record.specs.Objects.{Adds, next_handle, object_at, object_handle, objects_of, without_object};
ghost use Rattle.tpm_record.specs.Record.{no_objects};

use crate::clear::clear_places;
use std::alloc::Global;
use tpm_containers::{SlotFault, Slots, numbered};
use tpm_object::{Object, TRANSIENT_BYTE};
use tpm_types_common::{Handle, OBJECT_LIMIT};

/// The transient objects of a device, at most [`OBJECT_LIMIT`], keyed by handle. `O` contains
/// their slots.
#[derive(Drop)]
pub struct Objects<O: Slots<Object, OBJECT_LIMIT>> {
    places: O,
}

/// The handle of the object in this slot.
fn handle_of(place: usize) -> Handle
    requires { place < object_limit }
    ensures { result ≡ object_handle place }
{
    Handle {
        number: numbered::number_of(TRANSIENT_BYTE, place),
    }
}

impl<O: Slots<Object, OBJECT_LIMIT>> Objects<O> {
    /// An empty set of objects; nothing is allocated.
    pub fn new(alloc: Global) -> Objects<O>
        ensures { objects_of O.places result ≡ no_objects }
    {
        Objects {
            places: O::new(alloc),
        }
    }

    /// The object with this handle.
    #[tactic(auto, unfolding(crate::specs::Objects::object_at))]
    pub fn get(&self, handle: Handle) -> Option<&Object>
        ensures object { option_copied result ≡ object_at (objects_of O.places self.now) handle }
        // The number of slots is always `object_limit`.
        ensures all { length (objects_of O.places self.now) ≡ object_limit }
    {
        numbered::get(&self.places, handle.number)
    }

    /// The handle that the next object will get when it is added, or None if no slot is free.
    pub fn free(&self) -> Option<Handle>
        ensures { result ≡ next_handle (objects_of O.places self.now) }
    {
        Some(handle_of(self.places.free()?))
    }

    /// The sizes of each object's fields, and the number of slots, follow from their types. This
    /// function is only a proof: it has no effect at run time.
    #[inline(always)]
    pub fn read_sizes(&self)
        ensures each { AreAll IsObject (objects_of O.places self.now) }
        // The number of slots is always `object_limit`.
        ensures all { length (objects_of O.places self.now) ≡ object_limit }
    {
        numbered::read_sizes(&self.places);
    }

    /// Puts an object into the lowest free slot and returns its handle.
    pub fn add(&mut self, object: Object) -> Result<Handle, SlotFault>
        ensures { Adds O.can_refuse (objects_of O.places self.old) object result
            (objects_of O.places self.new) }
    {
        Ok(handle_of(self.places.insert(object)?))
    }

    /// The object in this slot.
    pub fn in_place(&self, place: usize) -> Option<&Object>
        ensures { option_copied result ≡ at_place (objects_of O.places self.now) place }
    {
        self.places.get(place)
    }

    /// The lowest handle, at or above this handle, that belongs to an object.
    #[tactic(auto, using(crate::proofs::Searching::none_more, crate::proofs::Searching::found_least))]
    pub fn next(&self, from: Handle) -> Option<u32>
        ensures { result ≡ next_transient (objects_of O.places self.now) from.number }
    {
        for place in 0..OBJECT_LIMIT {
            let handle = Handle {
                number: numbered::number_of(TRANSIENT_BYTE, place),
            };
            let is_there = self.get(handle).is_some();
            if from.number <= handle.number && is_there {
                return Some(handle.number);
            }
        }
        None
    }

    /// Puts an object into this slot, replacing any object already there.
    pub fn put(&mut self, place: usize, object: Object) -> Result<(), SlotFault>
        requires { place < object_limit }
        ensures { Puts O.can_refuse (objects_of O.places self.old) place object result
            (objects_of O.places self.new) }
    {
        self.places.put(place, object)
    }

    /// Removes the object with this handle. Returns whether the object existed.
    #[tactic(auto, unfolding(crate::specs::Objects::object_at, crate::specs::Objects::without_object))]
    pub fn remove(&mut self, handle: Handle) -> bool
        ensures there { result ≡ is_some (object_at (objects_of O.places self.old) handle) }
        ensures after { objects_of O.places self.new
            ≡ without_object (objects_of O.places self.old) handle }
    {
        numbered::remove(&mut self.places, handle.number)
    }

    /// Applies the effect of TPM2_Clear: removes the objects in the owner and endorsement
    /// hierarchies.
    pub fn clear_hierarchies(&mut self)
        ensures { objects_of O.places self.new ≡ cleared_objects (objects_of O.places self.old) }
    {
        clear_places(&mut self.places);
    }

    /// Removes all objects.
    pub fn clear(&mut self)
        ensures { objects_of O.places self.new ≡ no_objects }
    {
        self.places.clear();
    }
}

/// The transient objects of a device form a map keyed by handle: after an object is added or
/// removed, a lookup by handle returns the object that then has the handle, or None. This function
/// is only a proof: it has no effect at run time.
pub fn object_laws()
    ensures { MapLaws transient_byte }
{
    numbered::numbered_laws::<Object>()
}

/// TPM2_Clear removes the transient objects in the owner and endorsement hierarchies, and does not
/// change the other transient objects. This function is only a proof: it has no effect at run time.
#[tactic(auto, using(crate::proofs::ClearLaws::are_cleared))]
pub fn clearing_laws()
    ensures { ClearingLaws }
{}

//! The slots of the persistent objects.

use std::alloc::Global;
use tpm_containers::KeyFault;
use tpm_object::Object;
use tpm_record::PersistentObjects;
use tpm_record::persistent::SlotObjects;
use tpm_types_common::Handle;

/// A slot for each persistent object that a device can have.
#[derive(Drop)]
pub struct PersistentPlaces {
    stored: SlotObjects,
}

impl PersistentObjects for PersistentPlaces {
    ghost use Rattle.std.specs.Prelude.{false};

    ghost entries = { λ all. all.stored };

    ghost can_refuse = { false };

    #[inline(always)]
    fn new(alloc: Global) -> PersistentPlaces {
        PersistentPlaces {
            stored: SlotObjects::new(alloc),
        }
    }

    fn len(&self) -> usize {
        self.stored.len()
    }

    fn as_slice(&self) -> &[(u32, Object)] {
        self.stored.as_slice()
    }

    fn get(&self, handle: Handle) -> Option<&Object> {
        self.stored.get(handle)
    }

    fn next(&self, handle: Handle) -> Option<u32> {
        self.stored.next(handle)
    }

    fn add(&mut self, handle: Handle, object: Object) -> Result<(), KeyFault> {
        self.stored.add(handle, object)
    }

    fn remove(&mut self, handle: Handle) -> bool {
        self.stored.remove(handle)
    }

    fn clear_hierarchies(&mut self) {
        self.stored.clear_hierarchies();
    }

    fn read_sizes(&self) {
        self.stored.read_sizes();
    }
}

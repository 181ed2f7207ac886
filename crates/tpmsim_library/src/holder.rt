//! The pointer through which C refers to a device.

ghost use Rattle.std.specs.Prelude.{◌≡◌};
ghost use Rattle.std.specs.Option.{MatchOption};
ghost use Rattle.std.specs.declared.option.Option.{Option};
ghost use Rattle.std.specs.declared.option.Option.TheVariants.{None, Some};
ghost use Rattle.tpmsim_library.specs.Held.{held_memory};
ghost use Rattle.tpmsim_library.specs.contracts.device.Device.{the_row as device_row};
ghost use Rattle.tpmsim_library.specs.declared.device.Device.{Device};

use crate::device::Device;
use crate::owner::Owner;
use std::alloc::Global;
use std::marker::Model;
use std::mem;

/// The pointer through which C refers to a device. It points to the device's box, which the holder
/// owns, or is null if there is no device. C sees only a pointer, because the allocator occupies no
/// bytes.
#[repr(C)]
#[derive(Drop)]
pub struct Holder {
    at: *mut u8,
    alloc: Global,
    ghost device: { Option Device },
}

impl Model for Holder {
    ghost also_owns = { λ h. held_memory device_row h.alloc h.at h.device };
}

impl Holder {
    /// Converts an owner to a holder with the same pointer.
    pub fn of(owner: Owner<Device>) -> Holder
        ensures { result.device ≡ owner.value }
    {
        let Owner { at, alloc } = owner;
        Holder {
            at: at as *mut u8,
            alloc,
        }
    }

    /// Converts the holder to an owner with the same pointer.
    pub fn into_owner(self) -> Owner<Device>
        ensures { result.value ≡ self.device }
    {
        let Holder { at, alloc } = self;
        Owner {
            at: at as *mut Device,
            alloc,
        }
    }

    /// Takes out the device, if any, and leaves the holder empty.
    pub fn take(&mut self, alloc: Global) -> Option<Box<Device>>
        ensures taken { MatchOption result (self.old.device ≡ None)
            (λ b. self.old.device ≡ Some b.value) }
        ensures left { self.new.device ≡ None }
    {
        let empty = Holder::of(Owner::empty(alloc));
        mem::replace(self, empty).into_owner().into_box()
    }

    /// Puts a device in, and frees the device that the holder had.
    pub fn put(&mut self, device: Box<Device>)
        ensures { self.new.device ≡ Some device.value }
    {
        let full = Holder::of(Owner::of(device));
        let _before = mem::replace(self, full).into_owner().into_box();
    }
}

/// The device may be used and freed by a thread other than the one that created it.
unsafe impl Send for Holder {}

//! The pointer through which a page refers to a device.

ghost use Rattle.std.specs.Prelude.{◌≡◌};
ghost use Rattle.std.specs.Option.{MatchOption};
ghost use Rattle.std.specs.declared.option.Option.{Option};
ghost use Rattle.std.specs.declared.option.Option.TheVariants.{None, Some};
ghost use Rattle.tpmsim_web.specs.Held.{held_memory, place_held};
ghost use Rattle.tpmsim_web.specs.contracts.device.Device.{the_row as device_row};
ghost use Rattle.tpmsim_web.specs.declared.device.Device.{Device};

use crate::device::Device;
use crate::lent::Lent;
use std::marker::Model;
use std::mem;

/// The pointer through which a page refers to a device. It points to the device's memory, which the
/// holder owns, or is null if there is no device. The page sees only a pointer, because the
/// allocator occupies no bytes.
#[repr(C)]
#[derive(Drop)]
pub struct Holder {
    at: *mut u8,
    alloc: Lent,
    ghost device: { Option Device },
}

impl Model for Holder {
    ghost also_owns = { λ h. held_memory device_row h.alloc h.at h.device };
}

/// The memory for one device, provided by the page. It is unused, and its address may be compared
/// with null.
#[repr(C)]
#[derive(Drop)]
pub struct Place {
    at: *mut u8,
}

impl Model for Place {
    ghost also_owns = { λ place. place_held device_row place.at };
}

impl Holder {
    /// Writes the device to the place, and returns a holder of the device.
    pub fn new(place: Place, device: Device) -> Holder
        ensures { result.device ≡ Some device }
    {
        let at = place.at as *mut Device;
        unsafe { std::ptr::write(at, device) };
        Holder {
            at: place.at,
            alloc: Lent,
        }
    }

    /// Returns an empty holder.
    pub fn empty(alloc: Lent) -> Holder
        ensures { result.device ≡ None }
    {
        Holder {
            at: std::ptr::null_mut(),
            alloc,
        }
    }

    /// Returns a holder of this device. The device stays at its address.
    pub fn of(device: Box<Device, Lent>) -> Holder
        ensures { result.device ≡ Some device.value }
    {
        let (at, alloc) = Box::into_raw_with_allocator(device);
        Holder {
            at: at as *mut u8,
            alloc,
        }
    }

    /// Returns the holder's device, if any.
    pub fn into_box(self) -> Option<Box<Device, Lent>>
        ensures { MatchOption result (self.device ≡ None) (λ b. self.device ≡ Some b.value) }
    {
        let Holder { at, alloc } = self;
        if at.is_null() {
            return None;
        }
        Some(unsafe { Box::from_raw(alloc, at as *mut Device) })
    }

    /// Takes out the device, if any, and leaves the holder empty.
    pub fn take(&mut self) -> Option<Box<Device, Lent>>
        ensures taken { MatchOption result (self.old.device ≡ None)
            (λ b. self.old.device ≡ Some b.value) }
        ensures left { self.new.device ≡ None }
    {
        mem::replace(self, Holder::empty(Lent)).into_box()
    }

    /// Puts a device into the holder.
    pub fn put(&mut self, device: Box<Device, Lent>)
        ensures { self.new.device ≡ Some device.value }
    {
        let _before = mem::replace(self, Holder::of(device)).into_box();
    }
}

//! The pointer through which C refers to a keeper.

ghost use Rattle.std.specs.Prelude.{◌≡◌};
ghost use Rattle.std.specs.Option.{MatchOption};
ghost use Rattle.std.specs.declared.option.Option.{Option};
ghost use Rattle.std.specs.declared.option.Option.TheVariants.{None, Some};
ghost use Rattle.tpmsim_library.specs.Held.{held_memory};
ghost use Rattle.tpmsim_library.specs.contracts.keeper.DeviceKeeper.{the_row as keeper_row};
ghost use Rattle.tpmsim_library.specs.declared.keeper.DeviceKeeper.{DeviceKeeper};

use crate::keeper::DeviceKeeper;
use crate::owner::Owner;
use std::alloc::Global;
use std::marker::Model;
use std::mem;

/// The pointer through which C refers to a keeper. It points to the keeper's box, which the holder
/// owns, or is null if there is no keeper. C sees only a pointer, because the allocator occupies no
/// bytes.
#[repr(C)]
#[derive(Drop)]
pub struct KeeperHolder {
    at: *mut u8,
    alloc: Global,
    ghost keeper: { Option DeviceKeeper },
}

impl Model for KeeperHolder {
    ghost also_owns = { λ h. held_memory keeper_row h.alloc h.at h.keeper };
}

impl KeeperHolder {
    /// Converts an owner to a holder with the same pointer.
    pub fn of(owner: Owner<DeviceKeeper>) -> KeeperHolder
        ensures { result.keeper ≡ owner.value }
    {
        let Owner { at, alloc } = owner;
        KeeperHolder {
            at: at as *mut u8,
            alloc,
        }
    }

    /// Converts the holder to an owner with the same pointer.
    pub fn into_owner(self) -> Owner<DeviceKeeper>
        ensures { result.value ≡ self.keeper }
    {
        let KeeperHolder { at, alloc } = self;
        Owner {
            at: at as *mut DeviceKeeper,
            alloc,
        }
    }

    /// Takes out the keeper, if any, and leaves the holder empty.
    pub fn take(&mut self, alloc: Global) -> Option<Box<DeviceKeeper>>
        ensures taken { MatchOption result (self.old.keeper ≡ None)
            (λ b. self.old.keeper ≡ Some b.value) }
        ensures left { self.new.keeper ≡ None }
    {
        let empty = KeeperHolder::of(Owner::empty(alloc));
        mem::replace(self, empty).into_owner().into_box()
    }

    /// Puts a keeper in, and frees the keeper that the holder had.
    pub fn put(&mut self, keeper: Box<DeviceKeeper>)
        ensures { self.new.keeper ≡ Some keeper.value }
    {
        let full = KeeperHolder::of(Owner::of(keeper));
        let _before = mem::replace(self, full).into_owner().into_box();
    }
}

/// The keeper may be used and freed by a thread other than the one that created it.
unsafe impl Send for KeeperHolder {}

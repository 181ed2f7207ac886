//! The pointer to a box, which may be null.

ghost use Rattle.std.specs.Prelude.{◌≡◌};
ghost use Rattle.std.specs.Option.{MatchOption};
ghost use Rattle.std.specs.declared.option.Option.{Option};
ghost use Rattle.std.specs.declared.option.Option.TheVariants.{None, Some};
ghost use Rattle.tpmsim_library.specs.Held.{held_memory};

use std::alloc::Global;
use std::marker::Model;

/// A pointer to a box, which the owner owns, or null. A holder consists of an owner, and C sees
/// only the holder.
#[derive(Drop)]
pub struct Owner<T> {
    pub(crate) at: *mut T,
    pub(crate) alloc: Global,
    pub(crate) ghost value: { Option T },
}

impl<T> Model for Owner<T> {
    ghost also_owns = { λ h. held_memory T.row h.alloc h.at h.value };
}

impl<T: Drop> Owner<T> {
    /// Returns an owner with a null pointer.
    pub fn empty(alloc: Global) -> Owner<T>
        ensures { result.value ≡ None }
    {
        Owner {
            at: std::ptr::null_mut(),
            alloc,
        }
    }

    /// Returns the owner of this box.
    pub fn of(value: Box<T>) -> Owner<T>
        ensures { result.value ≡ Some value.value }
    {
        let (at, alloc) = Box::into_raw_with_allocator(value);
        Owner { at, alloc }
    }

    /// Returns the box, or None if the pointer is null.
    pub fn into_box(self) -> Option<Box<T>>
        ensures { MatchOption result (self.value ≡ None) (λ b. self.value ≡ Some b.value) }
    {
        let Owner { at, alloc } = self;
        if at.is_null() {
            return None;
        }
        Some(unsafe { Box::from_raw(alloc, at) })
    }
}

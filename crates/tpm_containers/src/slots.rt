//! The trait of slots: a fixed number of places, each of which is free or contains a value. A new
//! value is put into the lowest free slot, or into a slot that the caller chooses.

ghost use Rattle.std.specs.Prelude.{◌≡◌, ◌<◌, ℕ, Bool, IfSome, List, None, Option, Some, length, option_copied, slice_set};
ghost use Rattle.std.specs.Borrow.{LendsIf, sem};
ghost use Rattle.std.specs.Option.{option_copied_mut};
ghost use Rattle.tpm_containers.specs.Slots.{Inserts, Puts, at_place, free, lowest_free};

use std::alloc::Global;

/// The reason why a value could not be put into a slot.
#[derive(Clone, Copy, PartialEq, Eq)]
pub enum SlotFault {
    /// All slots are taken.
    Full,
    /// An allocation failed.
    NoMemory,
}

/// `N` slots for values, numbered from 0. Contracts represent them by a list of the slots, each of
/// which is free or contains a value.
pub trait Slots<T: Drop, const N: usize>: Drop + Sized {
    /// The slots.
    ghost places: { Self → List (Option T) };

    /// The slots, with a value put into one of them.
    ghost with_place: { Self → ℕ → T → Self };

    /// Whether an allocation can fail.
    ghost can_refuse: { Bool };

    /// `N` free slots, for which nothing is allocated.
    fn new(alloc: Global) -> Self
        ensures { places result ≡ free N };

    /// The value in this slot, or None if the slot is free.
    fn get(&self, place: usize) -> Option<&T>
        ensures value { option_copied result ≡ at_place (places self.now) place }
        // There are always `N` slots.
        ensures all { length (places self.now) ≡ N };

    /// A mutable reference to the value in this slot, or None if the slot is free.
    fn get_mut(&mut self, place: usize) -> Option<&mut T>
        ensures* writes_back { sem 𝓛 (LendsIf Self.row T.row self.entry result
            (with_place self.entry.now place) self.entry.now) }
        ensures value { option_copied_mut result ≡ at_place (places self.old) place };

    /// The lowest free slot.
    fn free(&self) -> Option<usize>
        ensures value { result ≡ lowest_free (places self.now) }
        ensures within { IfSome result (λ place. place < N) };

    /// Puts a value into the lowest free slot.
    fn insert(&mut self, value: T) -> Result<usize, SlotFault>
        ensures { Inserts N can_refuse (places self.old) value result (places self.new) };

    /// Puts a value into this slot, replacing any value already there.
    fn put(&mut self, place: usize, value: T) -> Result<(), SlotFault>
        requires { place < N }
        ensures { Puts can_refuse (places self.old) place value result (places self.new) };

    /// Frees this slot.
    fn remove(&mut self, place: usize)
        ensures { places self.new ≡ slice_set (places self.old) place None };

    /// Frees all slots.
    fn clear(&mut self)
        ensures { places self.new ≡ free N };

    /// After a value is written through a mutable reference to its slot, it is in that slot.
    ghost written: { (all : Self) (place : ℕ) (value : T)
        → places (with_place all place value) ≡ slice_set (places all) place (Some value) };
}

//! The trait of a map whose keys are numbers in ascending order, and the reasons why it refuses a
//! value.

ghost use Rattle.std.specs.Prelude.{◌≡◌, ◌≤◌, ℕ, [], Bool, List, is_some, length, option_copied};
ghost use Rattle.std.specs.Borrow.{LendsIf, sem};
ghost use Rattle.std.specs.Option.{option_copied_mut};
ghost use Rattle.tpm_containers.specs.SortedMap.{Ascends, PutsKey, at_key, changed_key, kept_entries, key_from, without_key};

use crate::Choice;
use std::alloc::Global;

/// The reason why a value could not be inserted under a key.
#[derive(Clone, Copy, PartialEq, Eq)]
pub enum KeyFault {
    /// The key already has a value.
    Taken,
    /// The map is full.
    Full,
    /// An allocation failed.
    NoMemory,
}

/// At most `N` values, each with its own key. Contracts represent them by a list of keys and
/// values, in ascending order of key.
pub trait SortedMap<T: Drop, const N: usize>: Drop + Sized {
    /// The keys in ascending order, each with its value.
    ghost entries: { Self → List (ℕ × T) };

    /// The map, with the value of an existing key replaced.
    ghost with_value: { Self → ℕ → T → Self };

    /// Whether an allocation can fail.
    ghost can_refuse: { Bool };

    /// An empty map, for which nothing is allocated.
    fn new(alloc: Global) -> Self
        ensures { entries result ≡ [] };

    /// The number of values.
    fn len(&self) -> usize
        ensures { result ≡ length (entries self.now) };

    /// The keys in ascending order, each with its value.
    fn as_slice(&self) -> &[(u32, T)]
        ensures { result.now ≡ entries self.now };

    /// The value of a key, or None.
    fn get(&self, key: u32) -> Option<&T>
        ensures value { option_copied result ≡ at_key (entries self.now) key }
        // The keys always ascend, and there are at most `N` of them.
        ensures ascends { Ascends (entries self.now) }
        ensures few { length (entries self.now) ≤ N };

    /// A mutable reference to the value of a key, or None.
    fn get_mut(&mut self, key: u32) -> Option<&mut T>
        ensures* writes_back { sem 𝓛 (LendsIf Self.row T.row self.entry result
            (with_value self.entry.now key) self.entry.now) }
        ensures value { option_copied_mut result ≡ at_key (entries self.old) key };

    /// The lowest key in the map that is at least `key`.
    fn next(&self, key: u32) -> Option<u32>
        ensures { result ≡ key_from (entries self.now) key };

    /// Inserts a value under a key. Fails if the key has a value, the map is full, or an allocation
    /// fails.
    fn insert(&mut self, key: u32, value: T) -> Result<(), KeyFault>
        ensures { PutsKey N can_refuse (entries self.old) key value result (entries self.new) };

    /// Removes a key and its value. Returns whether the key existed.
    fn remove(&mut self, key: u32) -> bool
        ensures there { result ≡ is_some (at_key (entries self.old) key) }
        ensures after { entries self.new ≡ without_key (entries self.old) key };

    /// Removes each value that the choice does not keep, in one pass.
    fn retain<C: Choice<T>>(&mut self)
        ensures { entries self.new ≡ kept_entries C.stays (entries self.old) };

    /// Removes all values.
    fn clear(&mut self)
        ensures { entries self.new ≡ [] };

    /// After a value is written through the mutable reference for a key, it is the value of that
    /// key.
    ghost written: { (map : Self) (key : ℕ) (value : T)
        → entries (with_value map key value) ≡ changed_key (entries map) key value };
}

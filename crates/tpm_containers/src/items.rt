//! Defines two traits: an ordered sequence with a limited number of items, and a choice of the
//! items to keep when the other items are removed.

ghost use Rattle.std.specs.Prelude.{◌≡◌, ◌<◌, ◌≤◌, ℕ, [], Bool, IfNone, IfSome, List, OnErr, OnOk, filter, insert, length, remove, slice_index_or, slice_set, take, true};
ghost use Rattle.std.specs.Borrow.{Array, Lends, LendsIf, sem};

use std::alloc::{AllocError, Global};

/// A choice of the items to keep when the other items are removed.
pub trait Choice<T> {
    ghost stays: { T → Bool };

    /// Whether to keep an item.
    fn stays(item: &T) -> bool
        ensures { result ≡ stays item.now };
}

/// An ordered sequence of items, with room for `N` of them.
pub trait Items<const N: usize>: Drop + Sized {
    /// The type of an item.
    type Item;

    /// The items.
    ghost items: { Self → List Self.Item };

    /// The sequence, with one of its items replaced.
    ghost with_item: { Self → ℕ → Self.Item → Self };

    /// The sequence, with all of its items overwritten.
    ghost with_items: { Self → List Self.Item → Self };

    /// Whether an allocation can fail.
    ghost can_refuse: { Bool };

    /// An empty sequence, for which nothing is allocated.
    fn new(alloc: Global) -> Self
        ensures { items result ≡ [] };

    /// All items, as a slice.
    fn as_slice(&self) -> &[Self::Item]
        ensures { result.now ≡ items self.now };

    /// A mutable reference to the item at this position, or None.
    fn item_mut(&mut self, place: usize) -> Option<&mut Self::Item>
        ensures* writes_back { sem 𝓛 (LendsIf Self.row Self.Item.row self.entry result
            (with_item self.entry.now place) self.entry.now) }
        ensures there { IfSome result (λ item. (place < length (items self.old))
            × (item.now ≡ slice_index_or (items self.old) place item.now)) }
        ensures absent { IfNone result (length (items self.old) ≤ place) };

    /// All items, as a mutable slice.
    fn slice_mut(&mut self) -> &mut [Self::Item]
        ensures* writes_back { sem 𝓛 (Lends Self.row (Array Self.Item.row 0) self.entry result
            (with_items self.entry.now)) }
        ensures value { result.now ≡ items self.old };

    /// Inserts an item at this position, if there is room for it, and moves the later items up.
    fn insert(&mut self, place: usize, item: Self::Item) -> Result<(), AllocError>
        requires inside { place ≤ length (items self.old) }
        requires room { length (items self.old) < N }
        ensures inserted { OnOk result (items self.new ≡ insert (items self.old) place item) }
        ensures unchanged { OnErr result (items self.new ≡ items self.old) }
        ensures refused { OnErr result (can_refuse ≡ true) };

    /// Removes the item at this position, and moves the later items down.
    fn remove(&mut self, place: usize)
        requires { place < length (items self.old) }
        ensures { items self.new ≡ remove (items self.old) place };

    /// Removes each item that the choice does not keep, in one pass.
    fn retain<C: Choice<Self::Item>>(&mut self)
        ensures { items self.new ≡ filter C.stays (items self.old) };

    /// Truncates the sequence to its first `count` items.
    fn truncate(&mut self, count: usize)
        ensures { items self.new ≡ take count (items self.old) };

    /// After an item is written through the mutable reference to a position, it is at that
    /// position.
    ghost written: { (all : Self) (place : ℕ) (item : Self.Item)
        → items (with_item all place item) ≡ slice_set (items all) place item };

    /// After all items are overwritten through a mutable reference, with the same number of items,
    /// the sequence consists of the new items.
    ghost written_all: { (all : Self) (new : List Self.Item) → length new ≡ length (items all)
        → items (with_items all new) ≡ new };
}

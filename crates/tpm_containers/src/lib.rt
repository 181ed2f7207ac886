#![tactic(auto)]

//! Containers for the state of a device, which store values in a list that grows or in one area of
//! fixed size. The code is the same for both, and nothing in it is specific to TPMs.
//!
//! - **Items** are an ordered sequence with a fixed maximum size: the trait [`items::Items`].
//! - **Slots** are a fixed number of places, each of which is free or contains a value: the trait
//!   [`slots::Slots`], stored in cells ([`cell_slots`]). A value is put into the lowest free slot
//!   or into a slot that the caller chooses. If that fails, nothing changes. [`numbered`] finds
//!   values by numbers that consist of a slot and a kind, and states once that this is a map.
//! - **Sorted maps** contain values with ascending keys, up to a fixed number of values, and can
//!   find the lowest key at or above any number: the trait [`sorted_map::SortedMap`], stored as
//!   entries ([`entry_map`]). A value can only be inserted under a free key. If that fails, nothing
//!   changes. An [`items::Choice`] decides which values to keep. [`laws::sorted_map_laws`] states
//!   once that this is a map.
//!
//! Contracts represent slots by a list of all slots, and a map by a list of its keys and values in
//! ascending order of key, no matter which type stores them. The crate uses only `arrayvec`. Only
//! adding a value to a list may allocate memory.

pub mod cell_slots;
mod cells;
pub mod entry_map;
mod fixed;
pub mod items;
pub mod laws;
mod list;
mod lookup;
pub mod numbered;
pub mod slots;
pub mod sorted_map;

pub use cell_slots::{CellSlots, FixedSlots, ListSlots};
pub use entry_map::{EntryMap, ListMap, SlotMap};
pub use items::{Choice, Items};
pub use numbered::{Kinded, Sizes, numbered_laws};
pub use slots::{SlotFault, Slots};
pub use sorted_map::{KeyFault, SortedMap};

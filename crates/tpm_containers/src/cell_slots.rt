//! Slots that are stored in cells; the slots past the last cell are free. If the cells are a list,
//! the list grows as slots are taken, and an allocation can fail. Fixed-size storage never
//! allocates memory.

use crate::Items;
use crate::cells::{free_place, reach};
use crate::slots::{SlotFault, Slots};
use arrayvec::ArrayVec;
use std::alloc::Global;
use std::marker::{Model, PhantomData};

/// `N` slots, numbered from 0. Only the slots up to the highest slot used since the last `clear`
/// have cells. Contracts represent the slots by a list of all `N`, each of which is free or
/// contains a value.
#[derive(Drop)]
pub struct CellSlots<T: Drop, C: Items<N, Item = Option<T>>, const N: usize> {
    cells: C,
    of: PhantomData<T>,
}

/// Slots in a list that grows as they are taken.
pub type ListSlots<T, const N: usize> = CellSlots<T, Vec<Option<T>>, N>;

/// Slots in fixed-size storage, which has space for all of them and never allocates memory.
pub type FixedSlots<T, const N: usize> = CellSlots<T, ArrayVec<Option<T>, N>, N>;

impl<T: Drop, C: Items<N, Item = Option<T>>, const N: usize> Model for CellSlots<T, C, N> {
    ghost use Rattle.std.specs.Prelude.{List, Option, ◌≤◌, length};
    ghost use Rattle.tpm_containers.specs.Slots.{padded_to};

    ghost Value = { List (Option T) };

    ghost view = { λ p. padded_to N (C.items p.cells) };

    ghost invariant = { λ p. length (C.items p.cells) ≤ N };
}

impl<T: Drop, C: Items<N, Item = Option<T>>, const N: usize> Slots<T, N> for CellSlots<T, C, N> {
    ghost use Rattle.std.specs.Prelude.{Some, refl, slice_set};

    ghost places = { λ p. p };

    ghost with_place = { λ p place value. slice_set p place (Some value) };

    ghost can_refuse = { C.can_refuse };

    fn new(alloc: Global) -> CellSlots<T, C, N> {
        CellSlots {
            cells: C::new(alloc),
            of: PhantomData,
        }
    }

    fn get(&self, place: usize) -> Option<&T> {
        match self.cells.as_slice().get(place) {
            Some(Some(value)) => Some(value),
            _ => None,
        }
    }

    fn get_mut(&mut self, place: usize) -> Option<&mut T> {
        self.cells.item_mut(place)?.as_mut()
    }

    fn free(&self) -> Option<usize> {
        free_place(self.cells.as_slice(), N)
    }

    fn insert(&mut self, value: T) -> Result<usize, SlotFault> {
        let Some(place) = self.free() else {
            return Err(SlotFault::Full);
        };
        if let Some(cell) = self.cells.item_mut(place) {
            *cell = Some(value);
            return Ok(place);
        }
        match self.cells.insert(place, Some(value)) {
            Ok(()) => Ok(place),
            Err(_) => Err(SlotFault::NoMemory),
        }
    }

    fn put(&mut self, place: usize, value: T) -> Result<(), SlotFault> {
        let Ok(()) = reach(&mut self.cells, place) else {
            return Err(SlotFault::NoMemory);
        };
        let Some(cell) = self.cells.item_mut(place) else {
            return Err(SlotFault::NoMemory);
        };
        *cell = Some(value);
        Ok(())
    }

    fn remove(&mut self, place: usize) {
        let Some(cell) = self.cells.item_mut(place) else {
            return;
        };
        *cell = None;
    }

    fn clear(&mut self) {
        self.cells.truncate(0);
    }

    ghost written = { λ p place value. refl };
}

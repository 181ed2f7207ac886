//! A map that is stored as entries: either in a list that grows, so that an allocation can fail, or
//! in fixed-size storage, which never allocates memory.

use crate::lookup::{index_for, index_of, key_at, value_at};
use crate::sorted_map::{KeyFault, SortedMap};
use crate::{Choice, Items};
use arrayvec::ArrayVec;
use std::alloc::Global;
use std::marker::{Model, PhantomData};

/// A map from keys to values. The items `E` are its entries, each of which is a key with its value.
#[derive(Drop)]
pub struct EntryMap<T: Drop, E: Items<N, Item = (u32, T)>, const N: usize> {
    entries: E,
    of: PhantomData<T>,
}

/// A map in a list that grows.
pub type ListMap<T, const N: usize> = EntryMap<T, Vec<(u32, T)>, N>;

/// A map in fixed-size storage, which never allocates memory. Its free slots contain default
/// values.
pub type SlotMap<T, const N: usize> = EntryMap<T, ArrayVec<(u32, T), N>, N>;

impl<T: Drop, E: Items<N, Item = (u32, T)>, const N: usize> Model for EntryMap<T, E, N> {
    ghost use Rattle.std.specs.Prelude.{◌≤◌, ℕ, List, length};
    ghost use Rattle.tpm_containers.specs.SortedMap.{Ascends};

    ghost Value = { List (ℕ × T) };

    ghost view = { λ map. E.items map.entries };

    ghost invariant = { λ map. Ascends (E.items map.entries) × (length (E.items map.entries) ≤ N) };
}

/// A choice among entries that depends only on their values.
struct ByValue<C> {
    of: PhantomData<C>,
}

impl<T, C: Choice<T>> Choice<(u32, T)> for ByValue<C> {
    ghost stays = { λ entry. C.stays entry.1 };

    fn stays(entry: &(u32, T)) -> bool {
        C::stays(&entry.1)
    }
}

impl<T: Drop, E: Items<N, Item = (u32, T)>, const N: usize> SortedMap<T, N> for EntryMap<T, E, N> {
    ghost use Rattle.std.specs.Prelude.{refl};
    ghost use Rattle.tpm_containers.specs.SortedMap.{changed_key};

    ghost entries = { λ map. map };

    ghost with_value = { λ map key value. changed_key map key value };

    ghost can_refuse = { E.can_refuse };

    fn new(alloc: Global) -> EntryMap<T, E, N> {
        EntryMap {
            entries: E::new(alloc),
            of: PhantomData,
        }
    }

    fn len(&self) -> usize {
        self.entries.as_slice().len()
    }

    fn as_slice(&self) -> &[(u32, T)] {
        self.entries.as_slice()
    }

    fn get(&self, key: u32) -> Option<&T> {
        value_at(self.entries.as_slice(), key)
    }

    fn get_mut(&mut self, key: u32) -> Option<&mut T> {
        let index = index_of(self.entries.as_slice(), key)?;
        let entry = self.entries.item_mut(index)?;
        Some(&mut entry.1)
    }

    fn next(&self, key: u32) -> Option<u32> {
        key_at(self.entries.as_slice(), key)
    }

    #[tactic(auto, using(crate::proofs::SortedMapLaws::put_ascends, crate::proofs::SortedMapLaws::put_length))]
    fn insert(&mut self, key: u32, value: T) -> Result<(), KeyFault> {
        if index_of(self.entries.as_slice(), key).is_some() {
            return Err(KeyFault::Taken);
        }
        if self.entries.as_slice().len() >= N {
            return Err(KeyFault::Full);
        }
        let index = index_for(self.entries.as_slice(), key);
        self.entries
            .insert(index, (key, value))
            .map_err(|_| KeyFault::NoMemory)
    }

    #[tactic(auto, using(crate::proofs::SortedMapLaws::removed_ascends, crate::proofs::SortedMapLaws::removed_few))]
    fn remove(&mut self, key: u32) -> bool {
        let Some(index) = index_of(self.entries.as_slice(), key) else {
            return false;
        };
        self.entries.remove(index);
        true
    }

    fn retain<C: Choice<T>>(&mut self) {
        self.entries.retain::<ByValue<C>>();
    }

    fn clear(&mut self) {
        self.entries.truncate(0);
    }

    ghost written = { λ map key value. refl };
}

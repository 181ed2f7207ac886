//! Items in a list that grows, so that an allocation can fail.

use crate::items::{Choice, Items};
use std::alloc::{AllocError, Global};

impl<T: Drop, const N: usize> Items<N> for Vec<T> {
    type Item = T;

    ghost use Rattle.std.specs.Prelude.{refl, true};
    ghost use Rattle.std.specs.Vec as vec;
    ghost use Rattle.std.proofs.Common.{sym, ◌∙◌};
    ghost use Rattle.std.proofs.lemmas.List.{take_at};

    ghost items = { λ list. list.items };

    ghost with_item = { λ list place item. vec.with_item list place item };

    ghost with_items = { λ list new. vec.with_items list new };

    ghost can_refuse = { true };

    fn new(alloc: Global) -> Vec<T> {
        Vec::new(alloc)
    }

    fn as_slice(&self) -> &[T] {
        self.as_slice()
    }

    fn item_mut(&mut self, place: usize) -> Option<&mut T> {
        self.get_mut(place)
    }

    fn slice_mut(&mut self) -> &mut [T] {
        self.as_mut_slice()
    }

    fn insert(&mut self, place: usize, item: T) -> Result<(), AllocError> {
        self.insert(place, item)?;
        Ok(())
    }

    fn remove(&mut self, place: usize) {
        let _ = self.remove(place);
    }

    fn retain<C: Choice<T>>(&mut self) {
        self.retain(|item| C::stays(item));
    }

    fn truncate(&mut self, count: usize) {
        self.truncate(count);
    }

    ghost written = { λ all place item. refl };

    ghost written_all = { λ all new same. take_at new _ all.len (same ∙ sym all.ok.0) };
}

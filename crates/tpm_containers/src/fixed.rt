//! Items in fixed-size storage, which never allocates memory.

use crate::items::{Choice, Items};
use arrayvec::ArrayVec;
use std::alloc::{AllocError, Global};

impl<T: Drop + Default, const N: usize> Items<N> for ArrayVec<T, N> {
    type Item = T;

    ghost use Rattle.std.specs.Prelude.{false, refl};
    ghost use Rattle.arrayvec.specs.ArrayVec as array;
    ghost use Rattle.std.proofs.lemmas.List.{take_at};

    ghost items = { λ area. area.items };

    ghost with_item = { λ area place item. array.with_item area place item };

    ghost with_items = { λ area new. array.with_items area new };

    ghost can_refuse = { false };

    fn new(_alloc: Global) -> ArrayVec<T, N> {
        ArrayVec::new()
    }

    fn as_slice(&self) -> &[T] {
        self.as_slice()
    }

    fn item_mut(&mut self, place: usize) -> Option<&mut T> {
        self.get_mut(place)
    }

    fn slice_mut(&mut self) -> &mut [T] {
        self.as_mut_slice()
    }

    fn insert(&mut self, place: usize, item: T) -> Result<(), AllocError> {
        self.insert(place, item);
        Ok(())
    }

    fn remove(&mut self, place: usize) {
        let _ = self.remove(place);
    }

    fn retain<C: Choice<T>>(&mut self) {
        self.retain(|item| C::stays(item));
    }

    fn truncate(&mut self, count: usize) {
        self.truncate(count);
    }

    ghost written = { λ all place item. refl };

    ghost written_all = { λ all new same. take_at new _ _ same };
}

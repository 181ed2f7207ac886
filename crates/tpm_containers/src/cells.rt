//! Cells, each of which is free or contains a value. These functions find the lowest free slot, and
//! append cells until the cell of a slot exists. All kinds of slots share this code.

ghost use Rattle.std.specs.Prelude.{◌≡◌, ◌<◌, ◌≤◌, IfSome, OnErr, OnOk, is_none, length, position, true};
ghost use Rattle.tpm_containers.specs.Slots.{lowest_free, padded_to};

use crate::Items;
use std::alloc::AllocError;

/// The index of the first cell without a value.
fn free_cell<T>(cells: &[Option<T>]) -> Option<usize>
    ensures value { result ≡ position is_none cells.now }
    ensures within { IfSome result (λ cell. cell < length cells.now) }
{
    cells.iter().position(|cell| cell.is_none())
}

/// The lowest free slot among `most` slots. The cells are the first of these slots, and the slots
/// without a cell are free.
#[tactic(auto, using(crate::proofs::Padding::free_among, crate::proofs::Padding::free_behind))]
pub(crate) fn free_place<T>(cells: &[Option<T>], most: usize) -> Option<usize>
    requires { length cells.now ≤ most }
    ensures value { result ≡ lowest_free (padded_to most cells.now) }
    ensures within { IfSome result (λ place. place < most) }
{
    if let Some(place) = free_cell(cells) {
        return Some(place);
    }
    let place = cells.len();
    if place == most { None } else { Some(place) }
}

/// Appends free cells until the cell of this slot exists. The content of the slots does not change.
pub(crate) fn reach<T: Drop, C: Items<N, Item = Option<T>>, const N: usize>(
    cells: &mut C,
    place: usize,
) -> Result<(), AllocError>
    requires below { place < N }
    requires few { length (C.items cells.old) ≤ N }
    ensures same { padded_to N (C.items cells.new) ≡ padded_to N (C.items cells.old) }
    ensures within { length (C.items cells.new) ≤ N }
    ensures reached { OnOk result (place < length (C.items cells.new)) }
    ensures refused { OnErr result (C.can_refuse ≡ true) }
{
    for count in cells.as_slice().len()..place + 1 {
        cells.insert(count, None)?;
    }
    Ok(())
}

//! NV indices form a map keyed by handle, and indices in fixed-size storage need no allocation.

ghost use Rattle.std.specs.Prelude.{◌≡◌, false};
ghost use Rattle.tpm_containers.specs.IsSortedMap.{IsSortedMap};
ghost use Rattle.tpm_nv.specs.Index.{NvIndex};

use crate::indices::Indices;
use crate::stored_indices::SlotIndices;

/// NV indices form a map keyed by handle. The laws say what a lookup returns after an index was
/// defined, changed or removed, that the handles still ascend, how many indices exist then, and
/// which handle is the next one. With fixed-size storage, an allocation never fails. This function
/// is only a proof: it has no effect at run time.
#[inline(always)]
#[tactic(auto, using(tpm_containers::proofs::SortedMapLaws::is_map))]
pub fn index_laws()
    ensures map { IsSortedMap NvIndex }
    ensures never_refused { ⟦<SlotIndices as Indices>⟧.can_refuse ≡ false }
{}

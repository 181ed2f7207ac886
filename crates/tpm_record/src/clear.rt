//! The effect of TPM2_Clear on transient and persistent objects.

ghost use Rattle.std.specs.Prelude.{◌≡◌, None, if◌then◌else◌, length, option_copied, slice_set};
ghost use Rattle.tpm_containers.specs.Slots.{at_place};
ghost use Rattle.tpm_types_common.specs.Limits.{object_limit};
ghost use Rattle.tpm_record.specs.Clear.{cleared_objects, is_cleared, is_place_cleared};

use tpm_containers::{Choice, Slots};
use tpm_object::Object;
use tpm_types_common::{HierarchyHandle, OBJECT_LIMIT};

/// Whether TPM2_Clear removes the objects in a hierarchy.
fn is_cleared(hierarchy: HierarchyHandle) -> bool
    ensures { result ≡ is_cleared hierarchy }
{
    match hierarchy {
        HierarchyHandle::Owner | HierarchyHandle::Endorsement => true,
        HierarchyHandle::Platform | HierarchyHandle::Null => false,
    }
}

/// Whether a slot contains an object that TPM2_Clear removes.
fn is_place_cleared(object: Option<&Object>) -> bool
    ensures { result ≡ is_place_cleared (option_copied object.entry) }
{
    match object {
        Some(object) => is_cleared(object.hierarchy),
        None => false,
    }
}

/// Frees a slot if TPM2_Clear removes its object.
fn clear_place<O: Slots<Object, OBJECT_LIMIT>>(places: &mut O, place: usize)
    ensures cleared { O.places places.new
        ≡ (if is_place_cleared (at_place (O.places places.old) place)
        then slice_set (O.places places.old) place None
        else O.places places.old) }
    // The number of slots is always `object_limit`.
    ensures all { length (O.places places.old) ≡ object_limit }
{
    if is_place_cleared(places.get(place)) {
        places.remove(place);
    }
}

/// Selects the persistent objects that TPM2_Clear does not remove: the objects outside the owner
/// and endorsement hierarchies.
pub(crate) enum Outlasting {}

impl Choice<Object> for Outlasting {
    ghost use Rattle.tpm_record.specs.Clear.{outlasts};

    ghost stays = { outlasts };

    fn stays(object: &Object) -> bool {
        !is_cleared(object.hierarchy)
    }
}

/// Frees each slot that contains an object that TPM2_Clear removes.
#[tactic(auto, unfolding(crate::specs::Clear::cleared_objects), using(crate::proofs::ClearLaws::all_cleared))]
pub(crate) fn clear_places<O: Slots<Object, OBJECT_LIMIT>>(places: &mut O)
    ensures { O.places places.new ≡ cleared_objects (O.places places.old) }
{
    for place in 0..OBJECT_LIMIT {
        clear_place(places, place);
    }
}

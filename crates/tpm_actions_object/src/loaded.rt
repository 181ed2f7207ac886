//! The common part of the commands on objects: the object that a handle names, whether it can be a
//! parent, and how a new object is loaded.

ghost use Rattle.tpm_bytes.specs.Reading.{Gives};
ghost use Rattle.std.specs.Prelude.{◌≡◌};
ghost use Rattle.tpm_actions_object.specs.Loaded.{Loads, is_fixed, loaded_at, no_place, parent_passes, place_for};

use tpm_containers::SlotFault;
use tpm_object::{Object, is_storage_parent};
use tpm_record::rows::refusals::{action_refusal, handle_refusal, memory_refusal};
use tpm_record::{Keep, object_of};
use tpm_types_common::{ActionCheck, Handle, Refused, ResponseCode};
use tpm_types_object::ObjectAttribute;

/// The object with this handle, transient or persistent.
pub fn loaded<K: Keep>(keep: &K, handle: Handle) -> Result<&Object, Refused>
    ensures { Gives (λ object. object.now) (loaded_at (K.record_of keep.now) handle) result }
{
    match object_of(keep, handle) {
        Some(object) => Ok(object),
        None => Err(handle_refusal()),
    }
}

/// Refuses the first handle if its object is not a storage parent.
pub fn check_parent(parent: &Object) -> Result<(), Refused>
    ensures { result ≡ parent_passes parent.now }
{
    if is_storage_parent(&parent.public) {
        Ok(())
    } else {
        Err(action_refusal(
            ActionCheck::First,
            ResponseCode::Type.anywhere().at_handle(1),
        ))
    }
}

/// Whether an object has the attribute fixedTPM.
pub fn is_fixed(parent: &Object) -> bool
    ensures { result ≡ is_fixed parent.now }
{
    parent.public.attributes.has(ObjectAttribute::FixedTpm)
}

/// The refusal by this check, one of the command's own checks, if all object slots are taken.
fn no_place(check: ActionCheck) -> Refused
    ensures { result ≡ no_place check }
{
    action_refusal(check, ResponseCode::ObjectMemory.anywhere())
}

/// Loads a new object. If all slots are taken, `check` refuses the command.
pub fn load_object<K: Keep>(
    keep: &mut K,
    object: Object,
    check: ActionCheck,
) -> Result<Handle, Refused>
    ensures { Loads K.can_refuse (place_for check (K.record_of keep.old)) (K.record_of keep.old)
        object result (K.record_of keep.new) }
{
    match keep.objects_mut().add(object) {
        Ok(handle) => Ok(handle),
        Err(SlotFault::Full) => Err(no_place(check)),
        Err(SlotFault::NoMemory) => Err(memory_refusal()),
    }
}

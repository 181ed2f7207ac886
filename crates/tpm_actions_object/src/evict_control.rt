//! TPM2_EvictControl: makes a transient object persistent or removes a persistent object (specified
//! in `specs/EvictControl`).

ghost use Rattle.std.specs.Prelude.{◌≡◌, IfOk, OnOk, false, true};
ghost use Rattle.tpm_record.specs.Persistent.{can_persist};
ghost use Rattle.tpm_types_common.specs.Handle.{is_persistent};
ghost use Rattle.tpm_types_common.specs.PersistentHandle.{persistent_handle_at};
ghost use Rattle.tpm_record.specs.rows.Request.{request_of, second_handle};
ghost use Rattle.tpm_record.specs.rows.Rows.{Acts, ActsIfRoom, only};
ghost use Rattle.tpm_actions_object.specs.EvictControl.{Evicts, evict_control_row, eviction_passes, is_of, is_of_platform, may_evict, may_name, objects_with_copy, remaining_objects};

use crate::loaded::loaded;
use tpm_bytes::Cursor;
use tpm_containers::KeyFault;
use tpm_object::Object;
use tpm_record::rows::answer::Answer;
use tpm_record::rows::call::Call;
use tpm_record::rows::reading::{end, parameter};
use tpm_record::rows::refusals::{action_refusal, memory_refusal, parameter_refusal};
use tpm_record::{Keep, PersistentObjects};
use tpm_types_common::{
    ActionCheck, Handle, HierarchyHandle, Refused, ResponseCode, read_persistent_handle,
};
use tpm_types_object::ObjectAttribute;

/// The lowest persistent handle of the platform.
const PLATFORM_PERSISTENT: u32 = 0x8180_0000;

#[tactic(auto, unfolding(tpm_types_common::specs::PersistentHandle::persistent_handle_at))]
fn read_parameters(parameters: &[u8]) -> Result<Handle, Refused>
    ensures read { result ≡ only (persistent_handle_at parameters.now) }
    ensures named { IfOk result (λ handle. is_persistent handle ≡ true) }
{
    let mut text = Cursor::new(parameters);
    let wanted = parameter(1, read_persistent_handle(&mut text))?;
    end(&text)?;
    Ok(wanted)
}

fn is_of(by_platform: bool, hierarchy: HierarchyHandle) -> bool
    ensures value { result ≡ is_of by_platform hierarchy }
    ensures kept { result ≡ true → can_persist hierarchy ≡ true }
{
    match hierarchy {
        HierarchyHandle::Owner | HierarchyHandle::Endorsement => !by_platform,
        HierarchyHandle::Platform => by_platform,
        HierarchyHandle::Null => false,
    }
}

fn may_evict(by_platform: bool, removes: bool, hierarchy: HierarchyHandle) -> bool
    ensures value { result ≡ may_evict by_platform removes hierarchy }
    ensures kept { result ≡ true → removes ≡ false → can_persist hierarchy ≡ true }
{
    (by_platform && removes) || is_of(by_platform, hierarchy)
}

fn is_of_platform(handle: Handle) -> bool
    ensures { result ≡ is_of_platform handle }
{
    handle.number >= PLATFORM_PERSISTENT
}

fn may_name(by_platform: bool, removes: bool, wanted: Handle) -> bool
    ensures { result ≡ may_name by_platform removes wanted }
{
    if by_platform {
        removes || is_of_platform(wanted)
    } else {
        !is_of_platform(wanted)
    }
}

/// Refuses an object that the platform (if `by_platform`) or the owner may not evict, an object
/// with stClear, or a handle that this hierarchy may not use.
fn check_eviction(
    by_platform: bool,
    removes: bool,
    object: &Object,
    wanted: Handle,
) -> Result<(), Refused>
    ensures value { result ≡ eviction_passes by_platform removes object.now wanted }
    ensures kept { OnOk result (removes ≡ false → can_persist object.now.hierarchy ≡ true) }
{
    if !may_evict(by_platform, removes, object.hierarchy) {
        return Err(action_refusal(
            ActionCheck::First,
            ResponseCode::Hierarchy.anywhere().at_handle(2),
        ));
    }
    if object.public.attributes.has(ObjectAttribute::StClear) {
        return Err(action_refusal(
            ActionCheck::Second,
            ResponseCode::Attributes.anywhere().at_handle(2),
        ));
    }
    if !may_name(by_platform, removes, wanted) {
        return Err(parameter_refusal(ActionCheck::Third, 1, ResponseCode::Range));
    }
    Ok(())
}

/// Removes a persistent object. The parameter persistentHandle must equal the object's handle.
fn remove<K: Keep>(keep: &mut K, handle: Handle, wanted: Handle) -> Result<(), Refused>
    ensures { Evicts false (remaining_objects (K.record_of keep.old).persistent handle wanted)
        (K.record_of keep.old) result (K.record_of keep.new) }
{
    if wanted != handle {
        return Err(action_refusal(
            ActionCheck::Fourth,
            ResponseCode::Handle.anywhere().at_handle(2),
        ));
    }
    keep.persistent_mut().remove(handle);
    Ok(())
}

/// Stores an object with a persistent handle.
fn put<K: Keep>(keep: &mut K, object: Object, wanted: Handle) -> Result<(), Refused>
    requires named { is_persistent wanted ≡ true }
    requires owned { can_persist object.hierarchy ≡ true }
    ensures { Evicts K.can_refuse
        (objects_with_copy (K.record_of keep.old).persistent object wanted)
        (K.record_of keep.old) result (K.record_of keep.new) }
{
    match keep.persistent_mut().add(wanted, object) {
        Ok(()) => Ok(()),
        Err(KeyFault::Taken) => Err(action_refusal(
            ActionCheck::Fifth,
            ResponseCode::NvDefined.anywhere(),
        )),
        Err(KeyFault::Full) => Err(action_refusal(
            ActionCheck::Sixth,
            ResponseCode::NvSpace.anywhere(),
        )),
        Err(KeyFault::NoMemory) => Err(memory_refusal()),
    }
}

/// TPM2_EvictControl: makes a copy of a transient object persistent, or removes a persistent
/// object.
#[tactic(auto, unfolding(crate::specs::EvictControl::evict_control_row))]
pub fn evict_control<K: Keep>(keep: &mut K, call: &Call, answer: &mut Answer) -> Result<(), Refused>
    ensures acts { ActsIfRoom K.can_refuse
        (evict_control_row (K.record_of keep.old) (request_of call.now))
        (K.record_of keep.old) result answer.new (K.record_of keep.new) }
    // Removing a persistent object never runs out of memory.
    ensures removes { IfOk (second_handle (request_of call.now).handles) (λ handle.
        is_persistent handle ≡ true
        → Acts (evict_control_row (K.record_of keep.old) (request_of call.now))
        (K.record_of keep.old) result answer.new (K.record_of keep.new)) }
{
    answer.clear();
    let by_platform = call.first_handle()? == Handle::PLATFORM;
    let handle = call.second_handle()?;
    let object = loaded(keep, handle)?;
    let wanted = read_parameters(call.parameters)?;
    let removes = handle.is_persistent();
    check_eviction(by_platform, removes, object, wanted)?;
    if removes {
        return remove(keep, handle, wanted);
    }
    let copy = object.copy();
    put(keep, copy, wanted)
}

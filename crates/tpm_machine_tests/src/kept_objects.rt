//! Tests the calls of a `Keep` on transient and persistent objects, with numbers as handles.

ghost use Rattle.std.specs.Prelude.{◌≡◌};

use super::comparison::check;
use super::keeps::{Trial, run_over_both};
use std::alloc::Global;
use std::process::Abort;
use std::test::Fail;
use tpm_object::Object;
use tpm_record::{AddFault, Keep};
use tpm_types_common::HierarchyHandle;

/// The handle of the persistent object.
const PERSISTENT: u32 = 0x8100_0001;

/// An object of the owner's hierarchy.
fn owned() -> Object
    ensures { result.hierarchy ≡ HierarchyHandle.Owner }
{
    let mut object = Object::default();
    object.hierarchy = HierarchyHandle::Owner;
    object
}

/// Fills all eight slots; a ninth object has no slot.
fn add_transient<K: Keep, R: Abort>(rt: &R, keep: &mut K) {
    for number in 0x8000_0000..0x8000_0008u32 {
        check(rt, keep.add_object(owned()), Ok(number));
    }
    check(rt, keep.add_object(owned()), Err(AddFault::Full));
}

/// A handle can be taken only once.
fn add_persistent<K: Keep, R: Abort>(rt: &R, keep: &mut K) {
    check(rt, keep.add_persistent(PERSISTENT, owned()), Ok(()));
    let taken = keep.add_persistent(PERSISTENT, owned());
    check(rt, taken, Err(AddFault::Taken));
}

/// Looks objects up, and finds the next handle.
fn find<K: Keep, R: Abort>(rt: &R, keep: &K) {
    for (number, there) in [
        (0x8000_0000, true),
        (0x8000_0008, false),
        (PERSISTENT, true),
        (0x8100_0002, false),
    ] {
        check(rt, (number, keep.object(number).is_some()), (number, there));
    }
    for (from, next) in [
        (0, Some(0x8000_0000)),
        (0x8000_0003, Some(0x8000_0003)),
        (0x8000_0008, Some(PERSISTENT)),
        (0x8100_0002, None),
    ] {
        check(rt, (from, keep.next_object(from)), (from, next));
    }
}

/// Removes objects. The next object gets the handle that became free.
fn remove<K: Keep, R: Abort>(rt: &R, keep: &mut K) {
    for (number, removed) in [
        (0x8000_0003, true),
        (0x8000_0003, false),
        (PERSISTENT, true),
        (PERSISTENT, false),
    ] {
        check(rt, (number, keep.remove_object(number)), (number, removed));
    }
    check(rt, keep.next_object(0x8000_0003), Some(0x8000_0004));
    check(rt, keep.add_object(owned()), Ok(0x8000_0003));
}

#[derive(Drop)]
struct KeptObjects;

impl Trial for KeptObjects {
    fn run<K: Keep, R: Abort>(rt: &R, alloc: Global) -> Result<(), Fail> {
        let mut keep = K::empty(alloc)?;
        add_transient(rt, &mut keep);
        add_persistent(rt, &mut keep);
        find(rt, &keep);
        remove(rt, &mut keep);
        Ok(())
    }
}

#[test]
fn objects_have_numbers(rt: HostRuntime) -> Result<(), Fail> {
    run_over_both(KeptObjects, &rt, rt.alloc())
}

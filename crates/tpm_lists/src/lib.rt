#![tactic(auto)]

//! Runs tasks on a device whose state is stored in growable lists.
//!
//! The type of that state consists of nested containers. The prover resolves the impls of all these
//! containers at each call, which takes longer the deeper they are nested. Therefore, each function
//! here names one layer of containers, and no crate that depends on this one names the whole type.

ghost use Rattle.std.specs.Prelude.{Result};

use tpm_containers::{ListMap, ListSlots, Slots, SortedMap};
use tpm_nv::{Area, Head, Indices, ListArea, StoredIndices};
use tpm_object::Object;
use tpm_record::kept::Kept;
use tpm_record::persistent::StoredObjects;
use tpm_record::{Keep, PersistentObjects};
use tpm_session::Session;
use tpm_types_common::{NV_INDEX_LIMIT, OBJECT_LIMIT, PERSISTENT_LIMIT, SESSION_LIMIT};

/// A computation on the device's state that works for every type that implements `Keep`.
pub trait Task<Fault> {
    /// Whether the task may return this result.
    ghost may_give: { Self → Result (Unit {0}) Fault → Type 0 };

    fn run<K: Keep>(self) -> Result<(), Fault>
        ensures { may_give self result };
}

/// Runs a task with the state in containers of these kinds.
fn run_over_containers<
    Fault,
    T: Task<Fault>,
    S: Slots<Session, SESSION_LIMIT>,
    O: Slots<Object, OBJECT_LIMIT>,
    P: PersistentObjects,
    N: Indices,
>(task: T) -> Result<(), Fault>
    ensures { T.may_give task result }
{
    task.run::<Kept<S, O, P, N>>()
}

/// Runs a task with persistent objects and NV indices in maps of these kinds.
fn run_over_maps<
    Fault,
    T: Task<Fault>,
    S: Slots<Session, SESSION_LIMIT>,
    O: Slots<Object, OBJECT_LIMIT>,
    P: SortedMap<Object, PERSISTENT_LIMIT>,
    H: SortedMap<Head, NV_INDEX_LIMIT>,
    A: Area,
>(task: T) -> Result<(), Fault>
    ensures { T.may_give task result }
{
    run_over_containers::<Fault, T, S, O, StoredObjects<P>, StoredIndices<H, A>>(task)
}

/// Runs a task with the state in lists; the type of that state is `ListKeep`.
pub fn run_over_lists<Fault, T: Task<Fault>>(task: T) -> Result<(), Fault>
    ensures { T.may_give task result }
{
    run_over_maps::<
        Fault,
        T,
        ListSlots<Session, SESSION_LIMIT>,
        ListSlots<Object, OBJECT_LIMIT>,
        ListMap<Object, PERSISTENT_LIMIT>,
        ListMap<Head, NV_INDEX_LIMIT>,
        ListArea,
    >(task)
}

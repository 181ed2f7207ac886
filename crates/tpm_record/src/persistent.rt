//! The persistent objects of a device, keyed by handle: the trait, and the types that implement
//! it.

ghost use Rattle.tpm_types_common.specs.Limits.{persistent_limit};
ghost use Rattle.std.specs.Prelude.{◌≡◌, Bool, is_some, length, option_copied, true};
ghost use Rattle.tpm_containers.specs.SortedMap.{Entries, PutsKey};
ghost use Rattle.tpm_object.specs.declared.object.Object.{Object as ObjectParts};
ghost use Rattle.tpm_record.specs.Clear.{cleared_persistent};
ghost use Rattle.tpm_record.specs.Persistent.{ArePersistent, can_persist, next_persistent, no_persistent, persistent_at, without_persistent};
ghost use Rattle.tpm_types_common.specs.Handle.{is_persistent};

use crate::clear::Outlasting;
use std::alloc::Global;
use std::marker::Model;
use tpm_containers::{KeyFault, ListMap, Sizes, SlotMap, SortedMap};
use tpm_object::Object;
use tpm_types_common::{Handle, PERSISTENT_LIMIT};

/// The persistent objects of a device, at most [`PERSISTENT_LIMIT`], keyed by handle. The functions
/// do not check whether the caller may make an object persistent or remove it.
pub trait PersistentObjects: Drop + Sized {
    /// The handles in ascending order, each with its object.
    ghost entries: { Self → Entries ObjectParts };

    /// Whether an allocation can fail when an object is added.
    ghost can_refuse: { Bool };

    /// An empty set of objects; nothing is allocated.
    fn new(alloc: Global) -> Self
        ensures { entries result ≡ no_persistent };

    /// The number of persistent objects.
    fn len(&self) -> usize
        ensures { result ≡ length (entries self.now) };

    /// The handles in ascending order, each with its object.
    fn as_slice(&self) -> &[(u32, Object)]
        ensures { result.now ≡ entries self.now };

    /// The object with this handle.
    fn get(&self, handle: Handle) -> Option<&Object>
        ensures { option_copied result ≡ persistent_at (entries self.now) handle };

    /// The lowest handle, at or above this handle, that belongs to a persistent object.
    fn next(&self, handle: Handle) -> Option<u32>
        ensures { result ≡ next_persistent (entries self.now) handle.number };

    /// Adds an object with this handle. Returns an error if the handle is taken, if the number of
    /// objects is at its limit, or if an allocation fails.
    fn add(&mut self, handle: Handle, object: Object) -> Result<(), KeyFault>
        requires named { is_persistent handle ≡ true }
        requires owned { can_persist object.hierarchy ≡ true }
        ensures { PutsKey persistent_limit can_refuse (entries self.old) handle.number object result
            (entries self.new) };

    /// Removes the object with this handle. Returns whether the object existed.
    fn remove(&mut self, handle: Handle) -> bool
        ensures there { result ≡ is_some (persistent_at (entries self.old) handle) }
        ensures after { entries self.new ≡ without_persistent (entries self.old) handle };

    /// Applies the effect of TPM2_Clear: removes the objects in the owner and endorsement
    /// hierarchies.
    fn clear_hierarchies(&mut self)
        ensures { entries self.new ≡ cleared_persistent (entries self.old) };

    /// States the invariant of the persistent objects. This function is only a proof: it has no
    /// effect at run time.
    fn read_sizes(&self)
        ensures { ArePersistent (entries self.now) };
}

/// Persistent objects in a map keyed by handle.
#[derive(Drop)]
pub struct StoredObjects<P: SortedMap<Object, PERSISTENT_LIMIT>> {
    objects: P,
}

/// Persistent objects in a growable list. Adding an object can run out of memory.
pub type ListObjects = StoredObjects<ListMap<Object, PERSISTENT_LIMIT>>;

/// Persistent objects in fixed-size storage. Nothing is ever allocated, so no allocation can fail.
pub type SlotObjects = StoredObjects<SlotMap<Object, PERSISTENT_LIMIT>>;

impl<P: SortedMap<Object, PERSISTENT_LIMIT>> Model for StoredObjects<P> {
    ghost use Rattle.tpm_containers.specs.SortedMap.{AreEach, Entries};
    ghost use Rattle.tpm_object.specs.declared.object.Object.{Object as ObjectParts};
    ghost use Rattle.tpm_record.specs.Persistent.{IsPersistent};

    ghost Value = { Entries ObjectParts };

    ghost view = { λ stored. P.entries stored.objects };

    ghost invariant = { λ stored. AreEach IsPersistent (P.entries stored.objects) };
}

impl<P: SortedMap<Object, PERSISTENT_LIMIT>> PersistentObjects for StoredObjects<P> {
    ghost entries = { λ stored. stored };

    ghost can_refuse = { P.can_refuse };

    fn new(alloc: Global) -> StoredObjects<P> {
        StoredObjects {
            objects: P::new(alloc),
        }
    }

    fn len(&self) -> usize {
        self.objects.len()
    }

    fn as_slice(&self) -> &[(u32, Object)] {
        self.objects.as_slice()
    }

    fn get(&self, handle: Handle) -> Option<&Object> {
        self.objects.get(handle.number)
    }

    fn next(&self, handle: Handle) -> Option<u32> {
        self.objects.next(handle.number)
    }

    #[tactic(auto, using(tpm_containers::proofs::SortedMapLaws::put_each))]
    fn add(&mut self, handle: Handle, object: Object) -> Result<(), KeyFault> {
        object.read_sizes();
        self.objects.insert(handle.number, object)
    }

    #[tactic(auto, using(tpm_containers::proofs::SortedMapLaws::removed_each))]
    fn remove(&mut self, handle: Handle) -> bool {
        self.objects.remove(handle.number)
    }

    #[tactic(auto, using(tpm_containers::proofs::SortedMapLaws::kept_each))]
    fn clear_hierarchies(&mut self) {
        self.objects.retain::<Outlasting>();
    }

    fn read_sizes(&self) {
        let _ = self.objects.get(0);
    }
}

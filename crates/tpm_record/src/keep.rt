//! The trait `Keep`. Every type that stores the device's state implements this trait. It provides
//! read and write access to each part of the state.

ghost use Rattle.std.specs.Prelude.{◌≡◌, Bool, IfOk, OnErr, is_some, option_copied, replicate, true};
ghost use Rattle.std.specs.Borrow.{Lends, sem};
ghost use Rattle.tpm_record.specs.AddFault.{AddsTransient, AddsWithNumber};
ghost use Rattle.tpm_record.specs.AnyObject.{next_object, without_object_of};
ghost use Rattle.tpm_record.specs.Entity.{object_of};
ghost use Rattle.tpm_record.specs.Objects.{objects_of};
ghost use Rattle.tpm_record.specs.Persistent.{can_persist};
ghost use Rattle.tpm_record.specs.Record.{Record, manufactured};
ghost use Rattle.tpm_record.specs.contracts.fixed.Fixed.{the_row as fixed_row};
ghost use Rattle.tpm_record.specs.contracts.objects.Objects.{the_row as objects_row};
ghost use Rattle.tpm_record.specs.declared.fixed.Fixed.{Fixed as FixedParts};
ghost use Rattle.tpm_record.specs.declared.objects.Objects.{Objects as ObjectsParts};
ghost use Rattle.tpm_types_common.specs.Handle.{is_persistent};
ghost use Rattle.tpm_session.specs.Sessions.{places_of};
ghost use Rattle.tpm_session.specs.contracts.sessions.Sessions.{the_row as sessions_row};
ghost use Rattle.tpm_session.specs.declared.sessions.Sessions.{Sessions as SessionsParts};

use crate::add_fault::AddFault;
use crate::fixed::Fixed;
use crate::objects::Objects;
use crate::persistent::PersistentObjects;
use std::alloc::Global;
use tpm_bytes::NoMemory;
use tpm_containers::{KeyFault, SlotFault, Slots};
use tpm_nv::Indices;
use tpm_object::Object;
use tpm_session::{Session, Sessions};
use tpm_types_common::{Handle, OBJECT_LIMIT, SESSION_LIMIT};

/// A type that contains the device's state. In contracts, a value of this type is the record that
/// it represents.
pub trait Keep: Drop + Sized {
    /// The type of the slots for sessions.
    type Se: Slots<Session, SESSION_LIMIT>;

    /// The type of the slots for transient objects.
    type ObjectSlots: Slots<Object, OBJECT_LIMIT>;

    /// The type of the persistent objects.
    type PersistentMap: PersistentObjects;

    /// The type of the NV indices.
    type Nv: Indices;

    /// The record that a value represents.
    ghost record_of: { Self → Record };

    /// The same state with this fixed part.
    ghost with_fixed: { Self → FixedParts → Self };

    /// The same state with these sessions.
    ghost with_sessions: { Self → SessionsParts Self.Se → Self };

    /// The same state with these transient objects.
    ghost with_objects: { Self → ObjectsParts Self.ObjectSlots → Self };

    /// The same state with these persistent objects.
    ghost with_persistent: { Self → Self.PersistentMap → Self };

    /// The same state with these NV indices.
    ghost with_nv: { Self → Self.Nv → Self };

    /// Whether adding a session, an object or an NV index can fail for lack of memory.
    ghost can_refuse: { Bool };

    /// Whether creating a value of this type can fail for lack of memory.
    ghost empty_can_refuse: { Bool };

    /// The state of a device manufactured with random bytes that are all zero. Its memory is
    /// allocated from `alloc`.
    fn empty(alloc: Global) -> Result<Self, NoMemory>
        ensures state { IfOk result (λ keep. record_of keep ≡ manufactured (replicate 256 0)) }
        ensures refused { OnErr result (empty_can_refuse ≡ true) };

    /// Read access to the part of fixed size.
    fn fixed(&self) -> &Fixed
        ensures { result.now ≡ (record_of self.now).fixed };

    /// Write access to the part of fixed size.
    fn fixed_mut(&mut self) -> &mut Fixed
        ensures* writes_back { sem 𝓛 (Lends Self.row fixed_row self.entry result
            (with_fixed self.entry.now)) }
        ensures value { result.now ≡ (record_of self.old).fixed };

    /// Read access to the sessions.
    fn sessions(&self) -> &Sessions<Self::Se>
        ensures { places_of Self.Se.places result.now ≡ (record_of self.now).sessions };

    /// Write access to the sessions.
    fn sessions_mut(&mut self) -> &mut Sessions<Self::Se>
        ensures* writes_back { sem 𝓛 (Lends Self.row (sessions_row Self.Se.row)
            self.entry result (with_sessions self.entry.now)) }
        ensures value { places_of Self.Se.places result.now
            ≡ (record_of self.old).sessions };

    /// Read access to the transient objects.
    fn objects(&self) -> &Objects<Self::ObjectSlots>
        ensures { objects_of Self.ObjectSlots.places result.now ≡ (record_of self.now).objects };

    /// Write access to the transient objects.
    fn objects_mut(&mut self) -> &mut Objects<Self::ObjectSlots>
        ensures* writes_back { sem 𝓛 (Lends Self.row (objects_row Self.ObjectSlots.row)
            self.entry result (with_objects self.entry.now)) }
        ensures value { objects_of Self.ObjectSlots.places result.now
            ≡ (record_of self.old).objects };

    /// Read access to the persistent objects.
    fn persistent(&self) -> &Self::PersistentMap
        ensures { Self.PersistentMap.entries result.now ≡ (record_of self.now).persistent };

    /// Write access to the persistent objects.
    fn persistent_mut(&mut self) -> &mut Self::PersistentMap
        ensures* writes_back { sem 𝓛 (Lends Self.row Self.PersistentMap.row self.entry result
            (with_persistent self.entry.now)) }
        ensures value { Self.PersistentMap.entries result.now ≡ (record_of self.old).persistent };

    /// Read access to the NV indices.
    fn nv(&self) -> &Self::Nv
        ensures { Self.Nv.contents result.now ≡ (record_of self.now).nv };

    /// Write access to the NV indices.
    fn nv_mut(&mut self) -> &mut Self::Nv
        ensures* writes_back { sem 𝓛 (Lends Self.row Self.Nv.row self.entry result
            (with_nv self.entry.now)) }
        ensures value { Self.Nv.contents result.now ≡ (record_of self.old).nv };

    /// The transient or persistent object with this handle.
    #[tactic(auto, unfolding(crate::specs::Entity::object_of))]
    fn object(&self, number: u32) -> Option<&Object>
        ensures { option_copied result
            ≡ object_of (record_of self.now) (record { number = number }) }
    {
        let handle = Handle { number };
        if handle.is_persistent() {
            self.persistent().get(handle)
        } else {
            self.objects().get(handle)
        }
    }

    /// Adds a transient object with the lowest free handle, and returns the handle. Fails if all
    /// slots are taken, or if an allocation fails.
    fn add_object(&mut self, object: Object) -> Result<u32, AddFault>
        ensures { AddsTransient can_refuse (record_of self.old) object result (record_of self.new) }
    {
        match self.objects_mut().add(object) {
            Ok(handle) => Ok(handle.number),
            Err(SlotFault::Full) => Err(AddFault::Full),
            Err(SlotFault::NoMemory) => Err(AddFault::NoMemory),
        }
    }

    /// Adds a persistent object with this handle. Returns an error if the handle is taken, if the
    /// number of objects is at its limit, or if an allocation fails.
    fn add_persistent(&mut self, number: u32, object: Object) -> Result<(), AddFault>
        requires named { is_persistent (record { number = number }) ≡ true }
        requires owned { can_persist object.hierarchy ≡ true }
        ensures { AddsWithNumber can_refuse (record_of self.old) number object result
            (record_of self.new) }
    {
        match self.persistent_mut().add(Handle { number }, object) {
            Ok(()) => Ok(()),
            Err(KeyFault::Taken) => Err(AddFault::Taken),
            Err(KeyFault::Full) => Err(AddFault::Full),
            Err(KeyFault::NoMemory) => Err(AddFault::NoMemory),
        }
    }

    /// Removes the transient or persistent object with this handle. Returns whether the object
    /// existed.
    #[tactic(auto, unfolding(crate::specs::Entity::object_of))]
    fn remove_object(&mut self, number: u32) -> bool
        ensures there { result
            ≡ is_some (object_of (record_of self.old) (record { number = number })) }
        ensures after { record_of self.new
            ≡ without_object_of (record_of self.old) (record { number = number }) }
    {
        let handle = Handle { number };
        if handle.is_persistent() {
            self.persistent_mut().remove(handle)
        } else {
            self.objects_mut().remove(handle)
        }
    }

    /// The lowest handle, at or above this handle, that belongs to a transient or persistent
    /// object.
    fn next_object(&self, from: u32) -> Option<u32>
        ensures { result ≡ next_object (record_of self.now) from }
    {
        let from = Handle { number: from };
        match self.objects().next(from) {
            Some(number) => Some(number),
            None => self.persistent().next(from),
        }
    }

    /// A change through `fixed_mut` changes the record's fixed part, and nothing else.
    ghost fixed_written: { (keep : Self) (fixed : FixedParts)
        → record_of (with_fixed keep fixed) ≡ record (record_of keep) { fixed = fixed } };

    /// A change through `sessions_mut` changes the record's sessions, and nothing else.
    ghost sessions_written: { (keep : Self) (sessions : SessionsParts Self.Se)
        → record_of (with_sessions keep sessions)
        ≡ record (record_of keep) { sessions = places_of Self.Se.places sessions } };

    /// A change through `objects_mut` changes the record's transient objects, and nothing else.
    ghost objects_written: { (keep : Self) (objects : ObjectsParts Self.ObjectSlots)
        → record_of (with_objects keep objects)
        ≡ record (record_of keep) { objects = objects_of Self.ObjectSlots.places objects } };

    /// A change through `persistent_mut` changes the record's persistent objects, and nothing else.
    ghost persistent_written: { (keep : Self) (persistent : Self.PersistentMap)
        → record_of (with_persistent keep persistent)
        ≡ record (record_of keep) { persistent = Self.PersistentMap.entries persistent } };

    /// A change through `nv_mut` changes the record's NV indices, and nothing else.
    ghost nv_written: { (keep : Self) (nv : Self.Nv)
        → record_of (with_nv keep nv)
        ≡ record (record_of keep) { nv = Self.Nv.contents nv } };

    /// If allocations can fail for the sessions, the transient or persistent objects, or the NV
    /// indices, they can fail for the whole state.
    ghost sessions_can_refuse: { Self.Se.can_refuse ≡ true → can_refuse ≡ true };

    ghost objects_can_refuse: { Self.ObjectSlots.can_refuse ≡ true → can_refuse ≡ true };

    ghost persistent_can_refuse: { Self.PersistentMap.can_refuse ≡ true → can_refuse ≡ true };

    ghost nv_can_refuse: { Self.Nv.can_refuse ≡ true → can_refuse ≡ true };
}

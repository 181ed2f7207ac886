//! A type that implements `Keep` with any kind of containers, such as growable lists. The state
//! with fixed-size storage, which never allocates memory, is in tpm_slots.

ghost use Rattle.std.specs.Prelude.{◌≡◌};

use crate::fixed::Fixed;
use crate::keep::Keep;
use crate::objects::Objects;
use crate::persistent::{ListObjects, PersistentObjects};
use std::alloc::Global;
use tpm_bytes::NoMemory;
use tpm_containers::{ListSlots, Slots};
use tpm_nv::{Indices, ListIndices};
use tpm_object::Object;
use tpm_session::{Session, Sessions};
use tpm_types_common::{OBJECT_LIMIT, SESSION_LIMIT};

/// The device's state, with any kind of containers for its sessions, its transient and persistent
/// objects, and its NV indices.
#[derive(Drop)]
pub struct Kept<
    S: Slots<Session, SESSION_LIMIT>,
    O: Slots<Object, OBJECT_LIMIT>,
    P: PersistentObjects,
    N: Indices,
> {
    fixed: Fixed,
    sessions: Sessions<S>,
    objects: Objects<O>,
    persistent: P,
    nv: N,
}

/// The device's state in growable lists. Adding a session, object or NV index can run out of
/// memory.
pub type ListKeep = Kept<
    ListSlots<Session, SESSION_LIMIT>,
    ListSlots<Object, OBJECT_LIMIT>,
    ListObjects,
    ListIndices,
>;

impl<
    S: Slots<Session, SESSION_LIMIT>,
    O: Slots<Object, OBJECT_LIMIT>,
    P: PersistentObjects,
    N: Indices,
> Keep for Kept<S, O, P, N> {
    ghost use Rattle.std.specs.Prelude.{◌≡◌, ◌||◌, false, refl, true};
    ghost use Rattle.std.proofs.lemmas.Bool.{or_right};
    ghost use Rattle.tpm_record.specs.Kept.{kept_record};

    type Se = S;

    type ObjectSlots = O;

    type PersistentMap = P;

    type Nv = N;

    ghost record_of = { kept_record S.places O.places P.entries N.contents };

    ghost with_fixed = { λ keep fixed. record keep { fixed = fixed } };

    ghost with_sessions = { λ keep sessions. record keep { sessions = sessions } };

    ghost with_objects = { λ keep objects. record keep { objects = objects } };

    ghost with_persistent = { λ keep persistent. record keep { persistent = persistent } };

    ghost with_nv = { λ keep nv. record keep { nv = nv } };

    ghost can_refuse = { S.can_refuse || (O.can_refuse || (P.can_refuse || N.can_refuse)) };

    ghost empty_can_refuse = { false };

    fn empty(alloc: Global) -> Result<Kept<S, O, P, N>, NoMemory> {
        Ok(Kept {
            fixed: Fixed::manufactured(&[0; 256]),
            sessions: Sessions::new(alloc),
            objects: Objects::new(alloc),
            persistent: P::new(alloc),
            nv: N::new(alloc),
        })
    }

    fn fixed(&self) -> &Fixed {
        &self.fixed
    }

    fn fixed_mut(&mut self) -> &mut Fixed {
        &mut self.fixed
    }

    fn sessions(&self) -> &Sessions<S> {
        &self.sessions
    }

    fn sessions_mut(&mut self) -> &mut Sessions<S> {
        &mut self.sessions
    }

    fn objects(&self) -> &Objects<O> {
        &self.objects
    }

    fn objects_mut(&mut self) -> &mut Objects<O> {
        &mut self.objects
    }

    fn persistent(&self) -> &P {
        &self.persistent
    }

    fn persistent_mut(&mut self) -> &mut P {
        &mut self.persistent
    }

    fn nv(&self) -> &N {
        &self.nv
    }

    fn nv_mut(&mut self) -> &mut N {
        &mut self.nv
    }

    ghost fixed_written = { λ keep fixed. refl };

    ghost sessions_written = { λ keep sessions. refl };

    ghost objects_written = { λ keep objects. refl };

    ghost persistent_written = { λ keep persistent. refl };

    ghost nv_written = { λ keep nv. refl };

    ghost sessions_can_refuse = { λ e. rw e refl };

    ghost objects_can_refuse = { λ e.
        let may : (O.can_refuse || (P.can_refuse || N.can_refuse)) ≡ true = rw e refl in
        or_right _ _ may };

    ghost persistent_can_refuse = { λ e.
        let may : (P.can_refuse || N.can_refuse) ≡ true = rw e refl in
        or_right _ _ (or_right _ _ may) };

    ghost nv_can_refuse = { λ e.
        let may : (P.can_refuse || N.can_refuse) ≡ true = or_right _ _ e in
        or_right _ _ (or_right _ _ may) };
}

//! The sessions of a device, found by handle: how they start, change and end (TPM 2.0 Library, Part
//! 3, section 11.1).

ghost use Rattle.tpm_types_common.specs.Limits.{session_limit};
ghost use Rattle.std.specs.Prelude.{◌≡◌, ◌<◌, true, IfSome, is_some, length, option_copied};
ghost use Rattle.tpm_containers.specs.Slots.{AreAll, Puts, at_place, free};
ghost use Rattle.tpm_mac.specs.Digest.{digest_size};
ghost use Rattle.tpm_session.specs.Key.{is_nonce_size};
ghost use Rattle.tpm_session.specs.Session.{IsSession};
ghost use Rattle.tpm_session.specs.Sessions.{Starts, handle_of, has_nonce_sizes, places_of, session_at, sessions_after_resizing_roll, sessions_after_roll, slots_without_session, started_session, with_resized_session_policy, with_session_policy};

use crate::key::{SessionKey, is_nonce_size};
use crate::nonce::Nonce;
use crate::session::{Binding, Session};
use std::alloc::Global;
use tpm_containers::{SlotFault, Slots, numbered};
use tpm_mac::HashAlg;
use tpm_policy::PolicyState;
use tpm_types_common::{Handle, SESSION_LIMIT, SessionType, SymmetricDefinition};

/// The parameters for starting a session (TPM 2.0 Library, Part 3, section 11.1).
#[derive(Drop)]
pub struct Start<'a> {
    pub kind: SessionType,
    pub hash: HashAlg,
    pub symmetric: SymmetricDefinition,
    pub nonce_caller: &'a [u8],
    pub nonce_tpm: Nonce,
    pub binding: Option<Binding>,
}

/// The reason why a session did not start.
#[derive(Clone, Copy, PartialEq, Eq)]
pub enum StartFault {
    /// The caller's nonce is shorter than 16 bytes or longer than a digest, or the device's nonce
    /// has another size.
    Size,
    /// No slot is free.
    SessionMemory,
    /// An allocation failed.
    Memory,
}

/// The sessions of a device, found by handle. There are at most [`SESSION_LIMIT`]. `S` stores their
/// slots.
#[derive(Drop)]
pub struct Sessions<S: Slots<Session, SESSION_LIMIT>> {
    slots: S,
}

/// The handle of a session of this type in this slot.
pub fn handle_of(kind: SessionType, place: usize) -> Handle
    requires { place < session_limit }
    ensures { result ≡ handle_of kind place }
{
    Handle {
        number: numbered::number_of(kind.handle_byte(), place),
    }
}

/// Whether the caller's nonce has an allowed size, which is also the size of the device's nonce.
fn has_nonce_sizes(start: &Start) -> bool
    ensures { result ≡ has_nonce_sizes start.now }
{
    let size = start.nonce_caller.len();
    is_nonce_size(start.hash, size) && start.nonce_tpm.len() == size
}

/// Creates the session and derives its key.
fn started_session(start: Start) -> Session
    requires { is_nonce_size start.hash (length start.nonce_tpm) ≡ true }
    ensures { result ≡ started_session start.entry }
{
    let key = SessionKey::derived(
        start.hash,
        &start.binding,
        start.nonce_tpm.as_slice(),
        start.nonce_caller,
    );
    Session {
        kind: start.kind,
        hash: start.hash,
        symmetric: start.symmetric,
        nonce_tpm: start.nonce_tpm,
        key,
        binding: start.binding,
        policy: PolicyState::new(start.hash),
    }
}

impl<S: Slots<Session, SESSION_LIMIT>> Sessions<S> {
    /// An empty set of sessions; allocates no memory.
    pub fn new(alloc: Global) -> Sessions<S>
        ensures { places_of S.places result ≡ free session_limit }
    {
        Sessions {
            slots: S::new(alloc),
        }
    }

    /// Starts a session in the lowest free slot and returns its handle.
    pub fn start(&mut self, start: Start) -> Result<Handle, StartFault>
        ensures { Starts S.can_refuse (places_of S.places self.old) start.entry result
            (places_of S.places self.new) }
    {
        if !has_nonce_sizes(&start) {
            return Err(StartFault::Size);
        }
        let kind = start.kind;
        match self.slots.insert(started_session(start)) {
            Ok(place) => Ok(handle_of(kind, place)),
            Err(SlotFault::Full) => Err(StartFault::SessionMemory),
            Err(SlotFault::NoMemory) => Err(StartFault::Memory),
        }
    }

    /// The session with this handle.
    #[tactic(auto, unfolding(crate::specs::Sessions::session_at))]
    pub fn get(&self, handle: Handle) -> Option<&Session>
        ensures session { option_copied result ≡ session_at (places_of S.places self.now) handle }
        // The number of slots is always the maximum number of sessions.
        ensures all { length (places_of S.places self.now) ≡ session_limit }
    {
        numbered::get(&self.slots, handle.number)
    }

    /// The session in this slot.
    pub fn in_place(&self, place: usize) -> Option<&Session>
        ensures { option_copied result ≡ at_place (places_of S.places self.now) place }
    {
        self.slots.get(place)
    }

    /// Stores a session in a slot, replacing any session there.
    pub fn put(&mut self, place: usize, session: Session) -> Result<(), SlotFault>
        requires { place < session_limit }
        ensures { Puts S.can_refuse (places_of S.places self.old) place session result
            (places_of S.places self.new) }
    {
        self.slots.put(place, session)
    }

    /// Ends the session with this handle; returns whether it existed.
    #[tactic(auto, unfolding(crate::specs::Sessions::slots_without_session, crate::specs::Sessions::session_at))]
    pub fn flush(&mut self, handle: Handle) -> bool
        ensures there { result ≡ is_some (session_at (places_of S.places self.old) handle) }
        ensures after { places_of S.places self.new
            ≡ slots_without_session (places_of S.places self.old) handle }
    {
        numbered::remove(&mut self.slots, handle.number)
    }

    /// Ends all sessions.
    pub fn clear(&mut self)
        ensures { places_of S.places self.new ≡ free session_limit }
    {
        self.slots.clear();
    }

    /// Replaces the nonceTPM of the session with this handle; returns whether the session existed.
    /// A nonce of another size than the session's is cut to this size, or filled with zeros.
    #[tactic(auto, unfolding(crate::specs::Sessions::sessions_after_roll, crate::specs::Sessions::sessions_after_resizing_roll, crate::specs::Sessions::session_at))]
    pub fn roll(&mut self, handle: Handle, nonce: Nonce) -> bool
        ensures there { result ≡ is_some (session_at (places_of S.places self.old) handle) }
        ensures after { places_of S.places self.new
            ≡ sessions_after_resizing_roll (places_of S.places self.old) handle nonce }
        // A nonce of the session's size is stored as it is.
        ensures same_size { IfSome (session_at (places_of S.places self.old) handle)
            (λ session. length nonce ≡ length session.nonce_tpm)
            → places_of S.places self.new
            ≡ sessions_after_roll (places_of S.places self.old) handle nonce }
    {
        match numbered::get_mut(&mut self.slots, handle.number) {
            Some(session) => {
                let size = session.nonce_tpm.len();
                session.nonce_tpm = nonce.resized(size);
                true
            }
            None => false,
        }
    }

    /// Replaces the policy state of the session with this handle; returns whether the session
    /// existed. A policy digest of another size than a digest of the session's hash algorithm is
    /// cut to this size, or filled with zeros.
    #[tactic(auto, unfolding(crate::specs::Sessions::with_session_policy, crate::specs::Sessions::with_resized_session_policy, crate::specs::Sessions::session_at))]
    pub fn set_policy(&mut self, handle: Handle, policy: PolicyState) -> bool
        ensures there { result ≡ is_some (session_at (places_of S.places self.old) handle) }
        ensures after { places_of S.places self.new
            ≡ with_resized_session_policy (places_of S.places self.old) handle policy }
        // A policy whose digest has this size is stored as it is.
        ensures same_size { IfSome (session_at (places_of S.places self.old) handle)
            (λ session. length policy.digest ≡ digest_size session.hash)
            → places_of S.places self.new
            ≡ with_session_policy (places_of S.places self.old) handle policy }
    {
        match numbered::get_mut(&mut self.slots, handle.number) {
            Some(session) => {
                let hash = session.hash;
                session.policy = policy.resized(hash);
                true
            }
            None => false,
        }
    }
    /// States the number of slots, and the bounds that the types of each session's fields
    /// guarantee. This function is only a proof: it has no effect at run time.
    #[inline(always)]
    pub fn read_sizes(&self)
        ensures each { AreAll IsSession (places_of S.places self.now) }
        // The number of slots is always the maximum number of sessions.
        ensures all { length (places_of S.places self.now) ≡ session_limit }
    {
        numbered::read_sizes(&self.slots);
    }
}

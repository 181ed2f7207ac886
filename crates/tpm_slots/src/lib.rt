#![tactic(auto)]

//! The device's state in fixed slots, one for each session, object and index that a device can
//! have. This state allocates no memory, so the device never runs out of memory.
//!
//! [`SlotKeep`] contains the whole state; no operation on it can fail for lack of memory
//! ([`laws`]). Its containers ([`sessions`], [`objects`], [`persistent`], [`indices`]) wrap
//! containers of other crates in new types. Therefore, proofs about a device with this state do not
//! have to expand the containers' implementations.

pub mod indices;
pub mod keep;
pub mod laws;
pub mod objects;
pub mod persistent;
pub mod sessions;

pub use indices::IndexPlaces;
pub use keep::SlotKeep;
pub use objects::ObjectPlaces;
pub use persistent::PersistentPlaces;
pub use sessions::SessionPlaces;

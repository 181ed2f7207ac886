#![tactic(auto)]

//! The device's state: the record that contracts refer to, and the trait for types that store the
//! state.
//!
//! [`keep::Keep`] is the trait. [`kept::Kept`] implements it with any kind of containers; for
//! example, [`kept::ListKeep`] uses growable lists. tpm_slots contains the type with fixed-size
//! storage, which allocates no memory. [`fixed::Fixed`] is the part of fixed size, which includes
//! the state that a shutdown saved ([`saved::Saved`]). [`objects::Objects`] contains the transient
//! objects, and [`persistent::PersistentObjects`] the persistent objects; NV indices are in tpm_nv.
//! [`tick::tick`] and [`cycle::power_cycle`] change a record independently of commands, and
//! [`entity`] looks up the entity that a handle names. The crate uses `tpm_lockout`, `tpm_pcr`,
//! `tpm_session`, `tpm_object` and `tpm_nv`. It uses `tpm_containers` for the slots of sessions and
//! transient objects and for the map of persistent objects. For every type that implements the
//! trait, each call changes the record as the call's definition in `specs/` says. [`rows`] contains
//! what the rows of all commands have in common.

pub mod add_fault;
mod clear;
pub mod cycle;
pub mod entity;
pub mod fixed;
pub mod hierarchy;
pub mod keep;
pub mod kept;
pub mod objects;
pub mod of_handle;
pub mod persistent;
pub mod record;
pub mod rows;
pub mod saved;
pub mod tick;

pub use add_fault::AddFault;
pub use cycle::power_cycle;
pub use entity::{Entity, Means, Resolved, absence_rc, object_of, resolve};
pub use fixed::Fixed;
pub use hierarchy::{Hierarchies, Secrets};
pub use keep::Keep;
pub use kept::ListKeep;
pub use of_handle::{auth_value_of, copied_auth_value, is_present, name_of, protection_of};
pub use persistent::PersistentObjects;
pub use record::read_widths;
pub use saved::{Saved, SavedKind};

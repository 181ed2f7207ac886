#![tactic(auto)]

//! The NV indices of a device (TPM 2.0 Library, Part 1, section 37): small pieces of memory, each
//! with a handle, that survive power cycles. Depending on its type, an index is written,
//! incremented or extended, or its bits are set.
//!
//! The crate uses `tpm_types_nv` for public areas, `tpm_containers` for the map keyed by handle,
//! `tpm_mac` for the digest of an extend index, and `tpm_bytes` for the number in a counter. The
//! trait [`indices::Indices`] contains the calls on indices. Contracts treat the indices as a
//! finite map from handles to public areas, authorization values and data, together with the
//! largest value that any counter has ever had. One equation specifies each call.
//! [`stored_indices::StoredIndices`] stores the indices in growable lists or in fixed-size storage.
//! It has a map sorted by handle for the heads, which are the indices without their data, and one
//! area for the bytes of all indices. Only a definition may allocate memory; a call that fails
//! changes nothing. Other crates check who may read or write an index.

pub mod area;
mod clear;
pub mod definition;
pub mod fault;
pub mod head;
mod heads;
pub mod indices;
pub mod item_area;
pub mod laws;
mod pieces;
mod place;
mod startup;
pub mod stored_indices;
mod values;

pub use area::Area;
pub use definition::{DefinitionFault, check_definition, has_type_size};
pub use fault::{DefineFault, LockFault, ReadFault, RestoreFault, Undefined, WriteFault};
pub use head::Head;
pub use indices::Indices;
pub use item_area::{ByteItems, ItemArea, ListArea, SlotArea};
pub use laws::index_laws;
pub use stored_indices::{ListIndices, SlotIndices, StoredIndices};

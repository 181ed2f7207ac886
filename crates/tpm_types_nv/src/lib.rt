#![tactic(auto)]

//! The public areas of NV indices, with their attributes and types (TPM 2.0 Library, Part 2,
//! section 13).
//!
//! The crate uses `tpm_types_common` for the structures in these areas. A read returns the value,
//! or the standard's response code for the first fault. A read or write that fails changes nothing.
//! Each public area has exactly one encoding, and no other bytes decode to it. No function of this
//! crate allocates memory.

pub mod laws;
pub mod nv_attributes;
pub mod nv_public;
pub mod nv_type;

pub use laws::nv_attribute_laws;
pub use nv_attributes::{NvAttribute, NvAttributes};
pub use nv_public::NvPublic;
pub use nv_type::NvType;

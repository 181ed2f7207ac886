#![tactic(auto)]

//! The Names of entities (TPM 2.0 Library, Part 1, section 16); those of objects and of NV indices
//! are computed from their public areas.
//!
//! The crate uses `tpm_types_object` and `tpm_types_nv` for public areas, and re-exports the type
//! of a Name from `tpm_types_name`. [`of_handle`] and [`qualified`] compute the Names that need no
//! public area. No function of this crate allocates memory or fails.

mod handle_name;
mod nv_name;
mod object_name;

pub use handle_name::{of_handle, qualified};
pub use nv_name::of_nv;
pub use object_name::of_object;
pub use tpm_types_name::Name;

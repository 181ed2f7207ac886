#![tactic(auto)]

//! The Names of entities (TPM 2.0 Library, Part 1, section 16), which bind a command's parameters
//! to the entities that its handles name. This crate defines the type of a Name, the Name of a
//! handle, and qualified Names.
//!
//! The crate uses `tpm_types_common` for handles and `tpm_mac` for digests; `tpm_name` computes the
//! Names of objects and NV indices. No function of this crate allocates memory or fails.

mod name;

pub use name::Name;

#![tactic(auto)]

//! The areas of objects (TPM 2.0 Library, Part 2, section 12): public and sensitive areas, the
//! attributes of objects, the values that a caller provides for a new object, and creation data.
//!
//! The crate uses `tpm_types_common` for the structures in these areas. A read returns the value,
//! or the standard's response code for the first fault. A read or write that fails changes nothing.
//! Each value of a structure has exactly one encoding, and no other bytes decode to it. No function
//! of this crate allocates memory.

pub mod creation_data;
pub mod object_attributes;
pub mod public;
pub mod sensitive;
pub mod sensitive_create;

pub use creation_data::CreationData;
pub use object_attributes::{ObjectAttribute, ObjectAttributes};
pub use public::{KeyedHashScheme, Public, PublicParameters};
pub use sensitive::Sensitive;
pub use sensitive_create::SensitiveCreate;

#![tactic(auto)]

//! Objects (TPM 2.0 Library, Part 1, sections 22 to 28): the checks of a new object, how it is
//! made from a seed or from random bytes, and how its parent protects its sensitive area.
//!
//! The crate uses `tpm_types_object` for the areas of objects, `tpm_mac` and `tpm_aes` for digests,
//! keys and encryption, `tpm_types_name` for Names, and `tpm_types_common`. The result of each
//! function equals its definition in `specs/`. Unwrapping a private area returns the sensitive area
//! that was wrapped, if the public area has the same type. Only private areas that the parent
//! wrapped are accepted. The two areas of a new object always have the same type. No function here
//! allocates memory.

mod areas;
mod creation;
mod object;
mod primary;
mod private_area;
mod template;

pub use areas::{area_laws, create};
pub use creation::{CreationFault, check_creation, drawn_by};
pub use object::{Object, TRANSIENT_BYTE, is_keyed_hash, is_storage_parent};
pub use primary::derive_primary;
pub use private_area::{unwrap, unwrap_named, wrap, wrap_named};
pub use template::{TemplateFault, check_template};

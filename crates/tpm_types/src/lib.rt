#![tactic(auto)]

//! The structures of the standard (TPM 2.0 Library, Part 2) in one place: commands and their
//! entries, the areas of objects and of NV indices, creation data, and what these contain.
//!
//! The crate only re-exports them, from tpm_types_common, tpm_types_command, tpm_types_object and
//! tpm_types_nv. The device's crates use those four crates, so that after a change of one structure
//! the others need not be proved again.

pub use tpm_types_command::{AuthEntry, Command, CommandRef, Tag};
pub use tpm_types_common::{
    AuthValue, BankSelection, DigestList, DigestValue, DigestValues, Handle, HierarchyAuth,
    HierarchyHandle, Locality, Octets, PcrIndex, PcrSelect, PcrSelection, Rc, ResponseCode,
    SessionAttributes, SessionKind, SessionType, StartupType, SymmetricDefinition, algorithm,
    limits,
};
pub use tpm_types_nv::{NvAttribute, NvAttributes, NvPublic, NvType};
pub use tpm_types_object::{
    CreationData, KeyedHashScheme, ObjectAttribute, ObjectAttributes, Public, PublicParameters,
    Sensitive, SensitiveCreate,
};

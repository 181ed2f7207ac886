#![tactic(auto)]

//! The structures of TPM 2.0 Library, Part 2, that every part of the device uses: response codes,
//! handles, algorithms, PCR selections, digests, authorization values, types of sessions, and the
//! device's [`limits`]. Commands are in `tpm_types_command`, the areas of objects in
//! `tpm_types_object`, and the areas of NV indices in `tpm_types_nv`. Each structure has its own
//! type. Its values are read from a [`tpm_bytes::cursor::Cursor`] and written to a
//! [`tpm_bytes::sink::Sink`]. A [`refused::Refused`] is a refusal by any part of the device: the
//! response code, the check that failed ([`check`]), and how the refusal affects the protection
//! against dictionary attacks.
//!
//! The crate uses `tpm_bytes` for the bytes and `tpm_mac` for digests and hash algorithms. A read
//! returns the value, or the standard's response code for the first fault. A read or write that
//! fails changes nothing. Each PCR selection, each digest with its algorithm, each list of digests
//! and each symmetric definition has exactly one encoding, and no other bytes decode to it. No
//! function of this crate allocates memory.

pub mod action_check;
pub mod action_fault;
pub mod algorithm;
pub mod attribute_bits;
pub mod auth_value;
pub mod buffer;
pub mod check;
pub mod digest_list;
pub mod digest_values;
pub mod filled;
pub mod handle;
pub mod limits;
pub mod locality;
pub mod nv_use;
pub mod octets;
pub mod operation;
pub mod pcr;
pub mod pcr_selection;
pub mod persistent_handle;
pub mod rc;
pub mod refused;
pub mod role;
pub mod session_attributes;
pub mod session_type;
pub mod startup_type;
pub mod symmetric;
pub mod yes_no;

pub use action_check::ActionCheck;
pub use action_fault::ActionFault;
pub use algorithm::{
    hash_number, hash_or_null_number, is_policy_size, read_hash, read_hash_or_null,
};
pub use attribute_bits::read_attribute_bits;
pub use auth_value::{AuthValue, trimmed};
pub use buffer::{DIGEST_LIMIT, read_buffer};
pub use check::Check;
pub use digest_list::DigestList;
pub use digest_values::{DigestValue, DigestValues};
pub use filled::read_filled;
pub use handle::{Handle, HierarchyAuth, HierarchyHandle, SessionKind};
pub use limits::{
    ANSWER_LIMIT, BUFFER_LIMIT, DATA_LIMIT, NV_DATA_LIMIT, NV_INDEX_LIMIT, NV_SPACE_LIMIT,
    OBJECT_LIMIT, PERSISTENT_LIMIT, SENSITIVE_LIMIT, SESSION_LIMIT,
};
pub use locality::Locality;
pub use nv_use::NvUse;
pub use octets::Octets;
pub use operation::Operation;
pub use pcr::{PCR_COUNT, PcrIndex, PcrSelect};
pub use pcr_selection::{BankSelection, PcrSelection};
pub use persistent_handle::read_persistent_handle;
pub use rc::{Rc, ResponseCode};
pub use refused::{Counted, Refused};
pub use role::Role;
pub use session_attributes::SessionAttributes;
pub use session_type::SessionType;
pub use startup_type::StartupType;
pub use symmetric::SymmetricDefinition;
pub use yes_no::read_yes_no;

#![tactic(auto)]

//! Authorization sessions (TPM 2.0 Library, Part 1, sections 19.6 and 21): a device's sessions and
//! their handles, the HMACs of authorization entries, and parameter encryption.
//!
//! The crate uses `tpm_policy` for the state of a policy session, `tpm_mac` and `tpm_aes` for
//! HMACs, keys and encryption, and `tpm_types_name` for the Names that cpHash covers. It uses
//! `tpm_containers` for the slots of sessions, and `tpm_types_common`. Contracts treat
//! [`sessions::Sessions`] as a list of slots, each of which is free or contains a session, no
//! matter which container stores the slots (`tpm_containers::slots::Slots`). If a session cannot be
//! started, nothing changes. Only starting a session, or storing a session in a slot, may allocate
//! memory; with fixed slots, no call allocates memory.

pub mod by_handle;
pub mod encryption;
pub mod entry;
pub mod first_buffer;
pub mod key;
pub mod nonce;
pub mod parameter_hash;
pub mod parameter_hashes;
pub mod session;
pub mod sessions;

pub use by_handle::ParameterFault;
pub use encryption::SymmetricFault;
pub use entry::{CommandText, entry_text};
pub use first_buffer::first_size;
pub use key::{SessionKey, is_nonce_size};
pub use nonce::Nonce;
pub use parameter_hash::{HashedParameters, command_hash, response_hash};
pub use parameter_hashes::ParameterHashes;
pub use session::{Binding, Protection, Session};
pub use sessions::{Sessions, Start, StartFault, handle_of};
pub use tpm_containers::{FixedSlots, ListSlots, Slots};
pub use tpm_policy::EntityPolicy;

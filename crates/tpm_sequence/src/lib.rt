#![tactic(auto)]

//! Sequence objects (TPM 2.0 Library, Part 1, section 32): hash, event and HMAC sequences, which
//! receive their data in parts.
//!
//! A [`SequenceObject`] is a plain value, which is copied, compared and saved like any other value.
//! The crate uses `tpm_hash_state` for the states of hashes and HMACs, and `tpm_types_common` for
//! authorization values.
//!
//! The digest of a sequence is the hash or the HMAC of all its data, no matter how the data were
//! divided into parts. A hash sequence also records whether its data begin with
//! TPM_GENERATED_VALUE ([`laws`]). No function allocates memory or fails.

mod authorization;
mod beginning;
pub mod laws;
mod object;
mod sequence;

pub use authorization::padded;
pub use beginning::Beginning;
pub use object::SequenceObject;
pub use sequence::Sequence;

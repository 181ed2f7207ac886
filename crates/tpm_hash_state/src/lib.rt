#![tactic(auto)]

//! SHA-1 and SHA-256 (FIPS 180-4) and HMAC (FIPS 198-1), with a state that callers can read.
//!
//! A [`HashState`] is a plain value: it is copied, compared and saved like any other value. The
//! hash crates `sha1` and `sha2` hide their state. This crate uses only their definitions, and
//! `tpm_mac` for the algorithms and the definitions of HMAC.
//!
//! The digest of a state is the hash of all bytes that the state absorbed, no matter how these
//! bytes were divided into parts ([`laws`]). No function allocates memory or fails.

mod chaining;
mod digest;
mod hmac;
pub mod laws;
mod sha1_block;
mod sha256_block;
mod state;

pub use chaining::ChainingValue;
pub use hmac::HmacState;
pub use state::HashState;

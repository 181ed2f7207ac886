//! The digests of a TPM: the hash and the HMAC (FIPS 198-1) of concatenated parts or of a message
//! fed piece by piece, and the key derivation KDFa (SP 800-108 in counter mode; TCG TPM 2.0 Library
//! Part 1, 11.4.10.2).
//!
//! The crate uses the hash crates `sha1` and `sha2`. Its definitions are based on the definitions
//! of the hashes in these two crates (FIPS 180-4). It stores digests of either size in an
//! `arrayvec`. The result of each function equals its definition for the whole message, no matter
//! how the message is divided into parts. No function allocates memory or fails.

#![tactic(auto)]

mod algorithm;
mod derivation;
mod digests;
mod hasher;
mod keyed;
mod mac;

pub use algorithm::HashAlg;
pub use derivation::kdfa;
pub use digests::{Digest, digest_parts};
pub use hasher::Hasher;
pub use keyed::KeyedMac;
pub use mac::{Mac, hmac_parts};

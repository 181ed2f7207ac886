#![tactic(auto)]

//! Tests of hash states and HMAC states: the examples of FIPS 180-4 and RFC 4231, and a message of
//! 200 bytes whose digests Python's `hashlib` computed.
//!
//! The crate uses `tpm_hash_state`, and no crate uses it.

#[cfg(test)]
mod digests;

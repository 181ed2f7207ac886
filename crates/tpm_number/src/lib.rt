#![tactic(auto)]

//! Reads numbers that people write, in decimal or in hex, up to a given limit. Also reads
//! localities. A [`TokenFault`] says what is wrong with a token. The caller knows the whole line,
//! and adds the token's position.
//!
//! The crate uses `tpm_types_common` for localities. The result of each function equals its
//! definition in `specs/Number`.

pub mod fault;
pub mod number;

pub use fault::TokenFault;
pub use number::{decimal, is_word, locality, number_in};

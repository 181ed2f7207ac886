#![tactic(auto)]

//! What each command on objects does, one file per command (TPM 2.0 Library, Part 3, sections 12,
//! 15, 24 and 28).
//!
//! A command decodes its parameters, checks them, and calls `tpm_object` to compute the object
//! that it makes or unwraps. `checks`, `loaded` and `creation` contain what several commands have
//! in common.
//!
//! The crate uses `tpm_record::rows` and `tpm_object`. `specs/` contains a row for each command,
//! with the same name. Each call is proved to do what its row specifies, for every implementation
//! of the record. A refusal leaves the record unchanged. Only TPM2_CreatePrimary, TPM2_Load and
//! TPM2_EvictControl can run out of memory.

mod checks;
pub mod create;
pub mod create_primary;
mod creation;
pub mod evict_control;
pub mod hmac;
pub mod load;
mod loaded;
pub mod read_public;
pub mod unseal;

#![tactic(auto)]

//! What each policy command does, one file per command (TPM 2.0 Library, Part 3, section 23).
//!
//! Ten commands make an assertion. Each decodes its parameters, then `assertions::make_assertion`
//! makes the assertion on a copy of the session's policy. If the assertion is not refused, the
//! copy becomes the session's policy. `tpm_policy` defines the assertions.
//!
//! The crate uses `tpm_record::rows` and `tpm_policy`. `specs/` contains a row for each command,
//! with the same name. Each call is proved to do what its row specifies, for every implementation
//! of the record. A refusal leaves the record unchanged.

mod assertions;
mod compared_index;
pub mod policy_auth_value;
pub mod policy_command_code;
pub mod policy_cp_hash;
pub mod policy_get_digest;
pub mod policy_locality;
pub mod policy_nv;
pub mod policy_nv_written;
pub mod policy_or;
pub mod policy_password;
pub mod policy_pcr;
pub mod policy_restart;
pub mod policy_secret;

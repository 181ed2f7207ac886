#![tactic(auto)]

//! What each command on the device itself does: startup and shutdown, random bytes, the clock,
//! PCRs, sessions, hierarchies and lockout. Each file contains one command with one public call.
//! The call decodes the plaintext parameters, checks them, and changes the record last (TPM 2.0
//! Library, Part 3).
//!
//! The crate uses `tpm_record::rows`. `specs/` contains a row for each command, with the same
//! name. Each call is proved to do what its row specifies, for every implementation of the
//! record. A refusal leaves the record unchanged.

pub mod clear;
pub mod clear_control;
pub mod clock_rate_adjust;
pub mod clock_set;
pub mod dictionary_attack_lock_reset;
pub mod dictionary_attack_parameters;
pub mod flush_context;
pub mod get_random;
pub mod get_test_result;
pub mod hash;
pub mod hierarchy_change_auth;
pub mod incremental_self_test;
mod pcr_change;
pub mod pcr_event;
pub mod pcr_extend;
pub mod pcr_read;
pub mod pcr_reset;
pub mod read_clock;
pub mod self_test;
pub mod shutdown;
pub mod start_auth_session;
pub mod startup;
pub mod stir_random;
pub mod test_parms;

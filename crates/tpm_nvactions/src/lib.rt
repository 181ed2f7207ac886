#![tactic(auto)]

//! What each command on NV indices does. Each file implements one command as one public function,
//! which decodes the plaintext parameters, checks them, and finally changes the record (TPM 2.0
//! Library, Part 3, section 31). [`access`] contains what the commands have in common: the checks
//! of who may read and write an index, and the refusals. TPM2_PolicyNV, which reads an index, is an
//! assertion of tpm_actions_policy, and only re-exported.
//!
//! The crate uses `tpm_record::rows`, and `tpm_nv` for the indices. `specs/` contains a row for
//! each command, with the same name. Each call is proved to do what its row specifies, for every
//! implementation of the record. A refusal leaves the record unchanged. Only TPM2_NV_DefineSpace
//! can run out of memory.

mod access;
pub mod nv_change_auth;
pub mod nv_define_space;
pub mod nv_extend;
pub mod nv_increment;
pub mod nv_read;
pub mod nv_read_lock;
pub mod nv_read_public;
pub mod nv_set_bits;
pub mod nv_undefine_space;
pub mod nv_write;
pub mod nv_write_lock;

pub use tpm_actions_policy::policy_nv::policy_nv;

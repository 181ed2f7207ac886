#![tactic(auto)]

//! What each command does, except commands on NV indices: one call per command, with the
//! command's name.
//!
//! The crate only re-exports these calls from tpm_actions_device, tpm_actions_policy,
//! tpm_actions_object and tpm_actions_capability, which have one file per command. The commands
//! on NV indices are in tpm_nvactions. A call decodes the command's plaintext parameters, checks
//! them, and changes the record last. It writes the answer into the caller's buffer, and is
//! proved to do what the command's row specifies (TPM 2.0 Library, Part 3).

pub use tpm_actions_capability::get_capability::get_capability;
pub use tpm_actions_device::clear::clear;
pub use tpm_actions_device::clear_control::clear_control;
pub use tpm_actions_device::clock_rate_adjust::clock_rate_adjust;
pub use tpm_actions_device::clock_set::clock_set;
pub use tpm_actions_device::dictionary_attack_lock_reset::dictionary_attack_lock_reset;
pub use tpm_actions_device::dictionary_attack_parameters::dictionary_attack_parameters;
pub use tpm_actions_device::flush_context::flush_context;
pub use tpm_actions_device::get_random::get_random;
pub use tpm_actions_device::get_test_result::get_test_result;
pub use tpm_actions_device::hash::hash;
pub use tpm_actions_device::hierarchy_change_auth::hierarchy_change_auth;
pub use tpm_actions_device::incremental_self_test::incremental_self_test;
pub use tpm_actions_device::pcr_event::pcr_event;
pub use tpm_actions_device::pcr_extend::pcr_extend;
pub use tpm_actions_device::pcr_read::pcr_read;
pub use tpm_actions_device::pcr_reset::pcr_reset;
pub use tpm_actions_device::read_clock::read_clock;
pub use tpm_actions_device::self_test::self_test;
pub use tpm_actions_device::shutdown::shutdown;
pub use tpm_actions_device::start_auth_session::start_auth_session;
pub use tpm_actions_device::startup::startup;
pub use tpm_actions_device::stir_random::stir_random;
pub use tpm_actions_device::test_parms::test_parms;
pub use tpm_actions_object::create::create;
pub use tpm_actions_object::create_primary::create_primary;
pub use tpm_actions_object::evict_control::evict_control;
pub use tpm_actions_object::hmac::hmac;
pub use tpm_actions_object::load::load;
pub use tpm_actions_object::read_public::read_public;
pub use tpm_actions_object::unseal::unseal;
pub use tpm_actions_policy::policy_auth_value::policy_auth_value;
pub use tpm_actions_policy::policy_command_code::policy_command_code;
pub use tpm_actions_policy::policy_cp_hash::policy_cp_hash;
pub use tpm_actions_policy::policy_get_digest::policy_get_digest;
pub use tpm_actions_policy::policy_locality::policy_locality;
pub use tpm_actions_policy::policy_nv_written::policy_nv_written;
pub use tpm_actions_policy::policy_or::policy_or;
pub use tpm_actions_policy::policy_password::policy_password;
pub use tpm_actions_policy::policy_pcr::policy_pcr;
pub use tpm_actions_policy::policy_restart::policy_restart;
pub use tpm_actions_policy::policy_secret::policy_secret;
pub use tpm_record::rows::answer::Answer;

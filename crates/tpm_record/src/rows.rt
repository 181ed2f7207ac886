//! What the rows of all commands have in common (TPM 2.0 Library, Part 3): the input of a row
//! ([`call::Call`]), its answer ([`answer::Answer`]), the reading of parameters ([`reading`]), the
//! refusals ([`refusals`]), and the NV index that a command acts on ([`target`]).
//!
//! These crates use this module for their commands: tpm_actions_device, tpm_actions_policy,
//! tpm_actions_object, tpm_actions_capability and tpm_nvactions. The result of each function equals
//! its definition in `specs/`. `Acts`, also defined there, is the contract of every row: on
//! success, the command returns the row's answer and changes the record as the row says. A refusal
//! is the one that the row specifies, and does not change the record.

pub mod answer;
pub mod call;
pub mod reading;
pub mod refusals;
pub mod target;

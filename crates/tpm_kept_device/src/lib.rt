#![tactic(auto)]

//! A device that a keeper stores in a journal: [`KeptDevice`], which tpm_keeping controls.
//!
//! tpm_kept_journal defines the device's journal as functions of bytes, which satisfy what a keeper
//! requires. This crate computes these functions with the real device: each method has the contract
//! that `tpm_keeping::device::Device` states for that journal. Therefore, what tpm_keeping proves
//! about a kept device, through kills, failures and crashes, holds for this device. [`writing`]
//! encodes the commands and seeds that a keeper accepts, and [`answer`] decodes a keeper's response
//! to a TPM command.

pub mod answer;
mod command;
pub mod device;
mod front;
pub mod parts;
mod seed;
pub mod writing;

pub use device::KeptDevice;

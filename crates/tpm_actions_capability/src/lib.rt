#![tactic(auto)]

//! TPM2_GetCapability: what a device supports and contains (TPM 2.0 Library, Part 3, section
//! 30.2).
//!
//! [`get_capability`] is the command, [`elements`] and [`properties`] list the elements of each
//! capability, and [`element`] returns part of a list. [`laws`] states that a device of the
//! symmetric profile lists little, and that the listed properties of PCRs match the device. The
//! crate uses `tpm_record::rows`, and `tpm_commands` for the listed commands. The command only reads
//! the record. It is proved to do what its row in `specs/GetCapability` specifies, for every
//! implementation of the record.

pub mod element;
mod elements;
pub mod get_capability;
pub mod laws;
mod properties;

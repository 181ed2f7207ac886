#![tactic(auto)]

//! The PCR banks of the device: the values of 24 PCRs for each hash algorithm, and the update
//! counter (TPM 2.0 Library, Part 1, section 17).
//!
//! [`banks::Banks`] reads the values. [`changes`] changes the value of a PCR, if the PCR allows the
//! change from the command's locality. [`saved::SavedPcrs`] contains the values that a shutdown
//! saves. The crate uses `tpm_types_common` for selections and `tpm_mac` for digests. The result of
//! each function equals its definition in `specs/`. A change that is refused leaves the banks
//! unchanged, and no function here allocates memory.

pub mod banks;
pub mod changes;
pub mod laws;
pub mod saved;

pub use banks::{Banks, PcrReading};
pub use changes::{ChangeFault, event_digests};
pub use saved::SavedPcrs;

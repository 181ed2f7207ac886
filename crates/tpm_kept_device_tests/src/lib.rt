#![tactic(auto)]

//! Tests of a kept device, for behaviour that no contract covers: a keeper can store such a device,
//! each call can succeed, and a TPM responds through the keeper as expected.
//!
//! The crate uses `tpm_kept_device`, and no crate uses it.

#[cfg(test)]
mod folder;
#[cfg(test)]
mod keeping;
#[cfg(test)]
mod words;

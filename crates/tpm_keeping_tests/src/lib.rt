#![tactic(auto)]

//! Tests of the keeper of a device, for behaviour that no contract covers: each call can succeed,
//! and requests the expected tasks.
//!
//! The crate uses `tpm_keeping`, and no crate uses it.

#[cfg(test)]
mod calls;
mod echo;
#[cfg(test)]
mod folder;

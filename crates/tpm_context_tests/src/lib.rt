#![tactic(auto)]

//! Tests of contexts, for behaviour that no contract covers: two contexts that Python computed,
//! each fault, and the counts to which a context is bound. In another test, a device with the
//! completing layer saves a key and loads it again.
//!
//! The crate uses `tpm_context` and `tpm_completion`, and no crate uses it.

#[cfg(test)]
mod contexts;
#[cfg(test)]
mod loading;
#[cfg(test)]
mod sequences;

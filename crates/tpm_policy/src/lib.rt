#![tactic(auto)]

//! Policies (TPM 2.0 Library, Part 1, section 19.7): the state of a policy session, the
//! assertions that change it, and what the policy demands when the session authorizes a command.
//!
//! The crate uses `tpm_types_name` for the Names of entities, `tpm_mac` for digests, `tpm_commands`
//! for command codes, and `tpm_types_common`. It does not access sessions or PCRs: the caller looks
//! up the values that an assertion needs, such as the digest of the PCRs. Contracts treat the state
//! as a plain record, and each assertion as a function on it. A refused assertion changes nothing,
//! and no call allocates memory.

pub mod assertions;
mod comparison;
pub mod laws;
pub mod nv;
pub mod pcr;
pub mod policy_use;
pub mod secret;
pub mod size;
pub mod state;

pub use nv::NvAssertion;
pub use pcr::PcrAssertion;
pub use policy_use::{EntityPolicy, Use};
pub use secret::SecretAssertion;
pub use size::resized;
pub use state::{Demand, PolicyState};

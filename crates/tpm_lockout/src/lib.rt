#![tactic(auto)]

//! Protection against dictionary attacks: failed tries at protected entities, how they are forgiven
//! over time, and how a failed attempt to authorize with lockoutAuth disables it for a while. TPM
//! 2.0 Library, Part 1, section 19.8.
//!
//! [`lockout::Lockout`] does not depend on commands or entities. [`fields::LockoutFields`] is the
//! part that survives a power cycle. The crate uses no other crate. The result of each function
//! equals its definition in `specs/`. No function allocates memory or fails.

pub mod fields;
pub mod lockout;

pub use fields::LockoutFields;
pub use lockout::Lockout;

#![tactic(auto)]

//! How a device is kept in a folder: what its holder has to do next, and what holds after a crash.

pub mod caller;
pub mod device;
pub mod holder;
pub mod keeper;
pub mod laws;
pub mod steps;

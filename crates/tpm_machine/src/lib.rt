#![tactic(auto)]

//! The device, which executes one event at a time: a command or a power cycle.
//!
//! A command is executed in these steps. [`decoding`] decodes it, makes the general checks and
//! looks up the entities of its handles. [`authorization`] passes these to tpm_auth, which checks
//! the command's entries. If a session has the attribute decrypt, `parameters` decrypts the first
//! parameter. [`table`] calls the command's row in tpm_actions_device,
//! tpm_actions_policy, tpm_actions_object, tpm_actions_capability or tpm_nvactions. [`response`]
//! writes the response; for this, `entries` draws new nonces, answers the entries and ends
//! sessions.
//!
//! The definitions of tpm_step specify this behavior: General, Table, Answer, the step of an event
//! (Step) and runs of events (Run). [`machine::Machine::execute`] and [`machine::Machine::run`] are
//! proved to follow these definitions, for every type that stores the state. The crate
//! tpm_machine_saver has the traits that save a device while it is in use.

pub mod authorization;
pub mod decoding;
mod draws;
mod entries;
pub mod machine;
mod parameters;
pub mod response;
pub mod table;

pub use machine::Machine;
pub use tpm_step::{Event, Outcome, Row};

#![tactic(auto)]

//! The events of a device, and the step that each event causes. The definitions in `specs/` are the
//! general checks, the table of all rows, the answer, the step of an event, runs of events, and
//! what a history of steps determines about a device. The code of this crate consists of four
//! types: [`event::Event`], its [`event::Outcome`], [`refused_command::RefusedCommand`], and
//! [`direction::Direction`], which says whether a session decrypts or encrypts a parameter.
//!
//! The laws about all rows are in [`rows`] and [`refusals`], and the laws about histories in
//! [`history`].
//!
//! The crate uses the definitions of the rows, in tpm_record and the crates of the commands, and
//! the definitions of tpm_auth. tpm_machine is proved to compute the step. The laws are about
//! definitions only, and not about code.
//!
//! The definitions in `specs/` and the lemmas in `proofs/` are in folders:
//! - `step`: what one event does to a device, and runs of events
//! - `rows`: what holds for the rows of all commands
//! - `refusals`: with which refusals a command's own checks refuse
//! - `history`: what a history determines about a device that follows it
//! - `uses`: what authorizes the use of an entity, and what repeats in a replay

pub mod direction;
pub mod event;
pub mod history;
pub mod profiles;
pub mod refusals;
pub mod refused_command;
pub mod rows;

pub use direction::Direction;
pub use event::{Event, Outcome, Response, Row};
pub use refused_command::RefusedCommand;

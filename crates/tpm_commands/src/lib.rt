#![tactic(auto)]

//! The supported commands (TPM 2.0 Library, Part 3), and the function that reads their handles.
//!
//! The [`shape::Shape`] of a command contains every fact about it except its number, its name and
//! its effect. [`command_code`] has one line per command, with all facts about it.
//!
//! The crate uses `tpm_types_common` for handles and response codes. A read returns the value, or
//! the standard's response code for the first fault. A read that fails changes nothing. No function
//! of this crate allocates memory.

pub mod command_code;
pub mod handle_area;
pub mod profile;
pub mod shape;

pub use command_code::CommandCode;
pub use handle_area::read_handles;
pub use profile::Profile;
pub use shape::{HandleKind, HandleRule, ParameterKind};

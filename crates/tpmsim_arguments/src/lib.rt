#![tactic(auto)]

//! The command line of the simulator: its subcommands and their options ([`command_line`]), what a
//! command line requests ([`arguments`]), the settings with which a device is served on a socket
//! ([`service`]), where a script's device is kept ([`storage`], [`place`]), and why words are
//! refused ([`fault`], in words [`usage`], [`slip`]).
//!
//! The crate uses `clap`, which matches the words, and opens no file. `specs/` defines what each
//! command line requests; [`laws`] says that usual command lines request what users expect.

pub mod arguments;
mod command_line;
pub mod fault;
pub mod laws;
pub mod place;
pub mod service;
mod slip;
pub mod storage;
pub mod usage;

pub use arguments::Arguments;
pub use fault::ArgumentFault;
pub use place::Place;
pub use service::Service;
pub use storage::Storage;
pub use usage::Usage;

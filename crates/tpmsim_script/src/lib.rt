#![tactic(auto)]

//! Scripts of commands: [`run::run_device`] plays a script on a device and writes the device's
//! responses, and [`run::run_script`] does the same on a new device. [`checker::Checker`] checks
//! the lines without running them, and [`report::report_of`] reports their faults, one line of text
//! for each bad line, and what its author probably meant ([`hint`]). A text that is not a script has
//! a report of one line ([`foreign`]).
//!
//! A script is a text whose lines are read one after another ([`lines`], [`line`]). A line sets
//! values for the next command ([`script`]), or is performed on the device ([`player`]). The bytes
//! of a command are decoded into a buffer ([`room`]). The responses, and the traces if requested,
//! collect in a buffer ([`answers`]) that is written before more of the script is read ([`run`]). A
//! saver is notified of the device as the script runs.
//!
//! The crate uses `tpm_machine` for the device and its savers, `tpm_text` for commands in words and
//! traces, `tpm_help` to say what is expected at a fault, and `tpm_hex`. If allocations for the
//! device never fail, the output is the one that `specs/` defines for the script, up to its end or
//! its first bad line. Whatever the fault, the lines before it were run, and the saver was notified
//! after each command and power cycle in them. All memory is allocated at the start, except the
//! device's own memory and the text of a report. A report equals its definition in `specs/`, which
//! lists the faults of the script's lines.

pub mod answers;
pub mod bad_line;
pub mod checker;
pub mod fault;
mod findings;
mod foreign;
mod hint;
pub mod laws;
pub mod line;
mod line_fault;
pub mod lines;
mod player;
pub mod report;
pub mod room;
pub mod run;
pub mod script;
pub mod script_fault;
mod told_fault;

pub use bad_line::{BadLine, Wanted};
pub use checker::Checker;
pub use fault::RunFault;
pub use laws::check_laws;
pub use line::Line;
pub use report::{Report, report_of};
pub use run::{SCRIPT_LINES, first_bytes, new_machine, run_device, run_script, run_script_for};
pub use script_fault::ScriptFault;

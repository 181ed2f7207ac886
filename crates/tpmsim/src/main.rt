#![tactic(auto)]

//! A TPM 2.0 simulator. Its subcommand `run` runs scripts of TPM commands, and `check` checks
//! scripts. The subcommand `asm` assembles a TPM command from words, and `line` finds the words of
//! a TPM command. The subcommand `lines` prints the forms of TPM commands in words, and `code`
//! prints the meaning of a response code. The subcommand `serve` serves a device on a socket.
//!
//! A device is kept in an image, or in a folder with its state. `power` power-cycles a device in a
//! folder, `snapshot` and `restore` write and read its state text, and `script` prints its history.
//! `replay` executes the recorded commands again.
//!
//! The results are on standard output. For `run`, each response is a line of hex. With `--trace`, a
//! line that traces the command precedes it. For `check`, there is a line for each bad line. A run
//! that fails prints one line with the reason on standard error, and its exit status says which
//! kind of fault it is ([`fault`]). If the environment requests it, a second line contains the path
//! and the system's reason, or says what is wrong with the words ([`explaining`]).
//!
//! The program uses tpmsim_arguments for the command line, tpmsim_script for scripts and their
//! check, `tpm_text` and `tpm_line` for lines, and `tpm_help` for their forms and examples. It uses
//! tpmsim_image for a device in an image; tpm_keeping, tpm_kept_device and tpmsim_folder for a
//! device in a folder ([`kept`]); and tpm_journal for the history of that device. Only this crate,
//! tpmsim_image and tpmsim_folder access files, sockets and clocks. The responses of the device are
//! proved in the crates below.

mod checking;
mod explaining;
mod fault;
mod kept;
mod kept_playing;
mod kept_serving;
mod replaying;
mod restoring;
mod running;
mod telling;

use checking::check_script;
use explaining::{explain, explain_encoding, explain_usage};
use fault::Fault;
use kept_playing::{cycle_power, play_script, print_script};
use kept_serving::serve_kept;
use replaying::replay_journal;
use restoring::{print_snapshot, restore_snapshot};
use running::{run_alone, run_kept};
use std::env;
use std::process::ExitCode;
use telling::{print_assembled, print_code, print_forms, print_spelled};
use tpmsim_arguments::{Arguments, Place, Service, Storage};
use tpmsim_image::{Subject, serve_device};

fn main(rt: HostRuntime) -> ExitCode {
    match try_main(&rt) {
        Ok(()) => ExitCode::SUCCESS,
        Err(fault) => ExitCode::from(fault.status()),
    }
}

/// Executes the command line, and reports each fault.
fn try_main(rt: &HostRuntime) -> Result<(), Fault> {
    let words = match words_of(rt) {
        Ok(words) => words,
        Err(fault) => {
            let failed = report(rt, fault);
            explain_encoding(rt, fault);
            return failed;
        }
    };
    let arguments = match Arguments::parse(rt.alloc(), words.as_slice()) {
        Ok(arguments) => arguments,
        Err(fault) => {
            let failed = report(rt, Fault::from(fault));
            explain_usage(rt, words.as_slice(), fault);
            return failed;
        }
    };
    match perform(rt, &arguments) {
        Ok(()) => Ok(()),
        Err(fault) => {
            let failed = report(rt, fault);
            explain(rt, &arguments, fault);
            failed
        }
    }
}

/// Returns the words of the command line.
fn words_of(rt: &HostRuntime) -> Result<Vec<String>, Fault> {
    Ok(Fault::Usage.unless(env::args(rt))?.collect(rt.alloc())?)
}

/// Prints the line of a fault, and returns the fault.
fn report(rt: &HostRuntime, fault: Fault) -> Result<(), Fault> {
    let _ = eprintln!(rt; "tpmsim: {fault}");
    Err(fault)
}

/// Executes the request that a command line makes.
fn perform(rt: &HostRuntime, arguments: &Arguments<'_>) -> Result<(), Fault> {
    match arguments {
        Arguments::Run {
            script,
            trace,
            profile,
            storage: None,
        } => run_alone(rt, *profile, script, *trace),
        Arguments::Run {
            script,
            trace,
            profile: _,
            storage: Some(storage),
        } => run_in_place(rt, script, *trace, storage),
        Arguments::Check { script } => check_script(rt, script),
        Arguments::Assemble { profile, line } => print_assembled(rt, *profile, line),
        Arguments::Spell { digits } => print_spelled(rt, digits),
        Arguments::Forms { name } => print_forms(rt, *name),
        Arguments::Code { digits } => print_code(rt, digits),
        Arguments::Serve(service) => serve_in_place(rt, service),
        Arguments::Power { state, cuts, past } => cycle_power(rt, state, *cuts, *past),
        Arguments::Snapshot { state } => print_snapshot(rt, state),
        Arguments::Restore { state, text, past } => restore_snapshot(rt, state, text, *past),
        Arguments::Retell { state } => print_script(rt, state),
        Arguments::Replay { journal } => replay_journal(rt, journal),
        Arguments::Tell(text) => Fault::file(Subject::Output).unless(print!(rt; "{text}")),
    }
}

/// Runs a script on the device that is kept in an image or in a folder.
fn run_in_place(
    rt: &HostRuntime,
    script: &str,
    trace: bool,
    storage: &Storage,
) -> Result<(), Fault> {
    match storage.place {
        Place::Image(image) => run_kept(rt, script, trace, image, storage.entropy),
        Place::State { folder, past } => {
            play_script(rt, script, trace, folder, past, storage.entropy)
        }
    }
}

/// Serves the device that is kept in an image or in a folder.
fn serve_in_place(rt: &HostRuntime, service: &Service) -> Result<(), Fault> {
    match service.place {
        Place::Image(image) => Ok(serve_device(rt, service, image)?),
        Place::State { folder, past } => serve_kept(rt, service, folder, past),
    }
}

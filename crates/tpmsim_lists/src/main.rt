#![tactic(auto)]

//! A program that runs scripts like `tpmsim`, but keeps the device's state in lists that grow, not
//! in fixed slots. It exists for the tests: `tools/scripts.sh` compares what the two programs print
//! for scripts, and tests/lists_starved.sh makes its allocations fail.
//!
//! Without arguments, the program runs the script on standard input. `open FILE` opens the device
//! whose image is in the file, and prints the device's image, which equals the contents of the
//! file. `line LINE` executes a command in words on a new device, and prints its trace.

mod fault;

use fault::Fault;
use std::process::ExitCode;
use std::{env, fs};
use tpm_bytes::Tap;
use tpm_image::{open, save};
use tpm_lists::{Task, run_over_lists};
use tpm_machine::Machine;
use tpm_record::Keep;
use tpm_step::Event;
use tpm_text::{assemble, trace_line, traceable_laws};
use tpm_types_common::Locality;
use tpmsim_script::run_script;

fn main(rt: HostRuntime) -> ExitCode {
    match try_main(&rt) {
        Ok(()) => ExitCode::SUCCESS,
        Err(fault) => {
            let _ = eprintln!(rt; "tpmsim_lists: {}", fault.name());
            ExitCode::from(fault.status())
        }
    }
}

/// Executes the command line, with the state in lists.
fn try_main(rt: &HostRuntime) -> Result<(), Fault> {
    let words: Vec<String> = env::args(rt)?.collect(rt.alloc())?;
    let words = words.as_slice();
    run_over_lists(CommandLine { rt, words })
}

/// The command-line arguments, and the host's facilities.
#[derive(Drop)]
struct CommandLine<'a> {
    rt: &'a HostRuntime,
    words: &'a [String],
}

impl Task<Fault> for CommandLine<'_> {
    ghost may_give = { λ _ _. Unit {0} };

    fn run<K: Keep>(self) -> Result<(), Fault> {
        perform::<K>(self.rt, self.words)
    }
}

/// Executes the action that the arguments name.
fn perform<K: Keep>(rt: &HostRuntime, words: &[String]) -> Result<(), Fault> {
    match words {
        [_] => run::<K>(rt),
        [_, word, file] if word.as_str() == "open" => print_image::<K>(rt, file.as_str()),
        [_, word, line] if word.as_str() == "line" => print_trace::<K>(rt, line.as_str()),
        _ => Err(Fault::Usage),
    }
}

/// Runs the script on standard input.
fn run<K: Keep>(rt: &HostRuntime) -> Result<(), Fault> {
    let input = &mut Tap::new(rt.stdin());
    let output = &mut Tap::new(rt.stdout());
    run_script::<K, _, _>(rt.alloc(), input, output, false)?;
    Ok(())
}

/// Opens the device whose image is in this file, and prints the image of that device.
fn print_image<K: Keep>(rt: &HostRuntime, path: &str) -> Result<(), Fault> {
    let image = fs::read(rt, path)?;
    let machine: Machine<K> = open(rt.alloc(), image.as_slice())?;
    let output = &mut Tap::new(rt.stdout());
    save(&machine, output).map_err(|_| Fault::File)?;
    output.flush().map_err(|_| Fault::File)
}

/// Executes the command that a line encodes on a new device, and prints its trace.
fn print_trace<K: Keep>(rt: &HostRuntime, line: &str) -> Result<(), Fault> {
    let buffer = assemble(rt.alloc(), line)?;
    let mut machine: Machine<K> = Machine::manufacture(rt.alloc(), &[0; 256])?;
    let event = Event::of_command(buffer.as_slice(), Locality::new(0).unwrap(), 0, [0; 256]);
    let outcome = machine.execute(&event);
    traceable_laws();
    let trace = trace_line(rt.alloc(), &event, &outcome)?;
    println!(rt; "{trace}")?;
    Ok(())
}

//! If the environment requests it, explains a fault: prints the path that the fault concerns, and
//! the system's reason; or what is wrong with the words of the command line. The line that reports
//! the fault itself does not change.

use crate::fault::Fault;
use std::io;
use tpmsim_arguments::{ArgumentFault, Arguments, Place, Usage};
use tpmsim_image::{Cause, Subject, is_verbose};

/// A path in two parts, which are printed one after the other.
#[derive(Clone, Copy)]
struct Path<'a> {
    front: &'a str,
    back: &'static str,
}

/// Says that a word of the command line is not UTF-8, if the environment requests it.
pub(crate) fn explain_encoding(rt: &HostRuntime, fault: Fault) {
    if fault == Fault::Usage && is_verbose(rt) {
        let _ = eprintln!(rt; "tpmsim: a word is not UTF-8; see tpmsim help");
    }
}

/// Says what is wrong with the words of a command line that was refused, and where the right words
/// are explained, if the environment requests it.
pub(crate) fn explain_usage(rt: &HostRuntime, words: &[String], fault: ArgumentFault) {
    if fault == ArgumentFault::Usage && is_verbose(rt) {
        if let Ok(usage) = Usage::new(rt.alloc(), words) {
            let _ = eprintln!(rt; "tpmsim: {usage}");
        }
    }
}

/// Says what is wrong with the argument of a command that was refused.
fn explain_argument(rt: &HostRuntime, arguments: &Arguments<'_>) {
    let _ = match arguments {
        Arguments::Forms { name: Some(name) } => {
            eprintln!(rt; "tpmsim: no command is named {name}; see tpmsim lines")
        }
        Arguments::Code { digits } => {
            eprintln!(rt; "tpmsim: no response code is {digits}; see tpmsim help code")
        }
        Arguments::Spell { digits } => {
            eprintln!(rt; "tpmsim: {digits} is not hex; see tpmsim help line")
        }
        _ => Ok(()),
    };
}

/// Prints the path that a fault concerns, and the system's reason; or what is wrong with an
/// argument. Prints nothing unless the environment requests it.
pub(crate) fn explain(rt: &HostRuntime, arguments: &Arguments<'_>, fault: Fault) {
    if !is_verbose(rt) {
        return;
    }
    if fault == Fault::Usage {
        explain_argument(rt, arguments);
        return;
    }
    if let Fault::Kept(fault) = fault {
        if let Some(front) = folder_of(arguments) {
            let back = fault.place.file();
            print(rt, Path { front, back }, fault.error);
        }
        return;
    }
    if let Some(cause) = cause_of(fault) {
        if let Some(path) = path_of(arguments, cause.subject) {
            print(rt, path, cause.error);
        }
    }
}

/// Prints a path, and the system's message for the error with this number.
fn print(rt: &HostRuntime, path: Path<'_>, error: Option<i32>) {
    let Path { front, back } = path;
    let _ = match error {
        Some(number) => {
            let reason = io::Error::from_raw_os_error(number);
            eprintln!(rt; "tpmsim: {front}{back}: {reason}")
        }
        None => eprintln!(rt; "tpmsim: {front}{back}"),
    };
}

/// The cause of a fault, if the fault concerns a file or a stream.
fn cause_of(fault: Fault) -> Option<Cause> {
    match fault {
        Fault::File(cause) | Fault::Socket(cause) | Fault::Entropy(cause) => Some(cause),
        Fault::ScriptLine(_) => Some(Subject::Script.alone()),
        Fault::Image(_) => Some(Subject::Image.alone()),
        Fault::State(_) => Some(Subject::StateText.alone()),
        Fault::Journal(_) => Some(Subject::Journal.alone()),
        _ => None,
    }
}

/// Returns the path of the file that a fault concerns, from the words of the command line.
fn path_of<'a>(arguments: &Arguments<'a>, subject: Subject) -> Option<Path<'a>> {
    let back = match subject {
        Subject::NewImage => ".new",
        Subject::ImageLock => ".lock",
        _ => "",
    };
    let front = front_of(arguments, subject)?;
    Some(Path { front, back })
}

/// Returns the path of the file that a fault concerns, without the suffix that the program adds.
fn front_of<'a>(arguments: &Arguments<'a>, subject: Subject) -> Option<&'a str> {
    match subject {
        Subject::Image | Subject::NewImage | Subject::ImageLock => image_of(arguments),
        Subject::Log | Subject::Socket => socket_or_log(arguments, subject),
        Subject::Entropy => entropy_of(arguments),
        Subject::Script => script_of(arguments),
        Subject::StateText | Subject::Journal => operand_of(arguments),
        Subject::Output => Some("standard output"),
    }
}

/// Returns where the device that `run` or `serve` uses is kept.
fn place_of<'a>(arguments: &Arguments<'a>) -> Option<Place<'a>> {
    match arguments {
        Arguments::Serve(service) => Some(service.place),
        Arguments::Run {
            storage: Some(storage),
            ..
        } => Some(storage.place),
        _ => None,
    }
}

fn image_of<'a>(arguments: &Arguments<'a>) -> Option<&'a str> {
    match place_of(arguments)? {
        Place::Image(image) => Some(image),
        Place::State { .. } => None,
    }
}

/// Returns the folder of the device's state.
fn folder_of<'a>(arguments: &Arguments<'a>) -> Option<&'a str> {
    match arguments {
        Arguments::Power { state, .. }
        | Arguments::Snapshot { state }
        | Arguments::Restore { state, .. }
        | Arguments::Retell { state } => Some(*state),
        _ => match place_of(arguments)? {
            Place::State { folder, .. } => Some(folder),
            Place::Image(_) => None,
        },
    }
}

fn socket_or_log<'a>(arguments: &Arguments<'a>, subject: Subject) -> Option<&'a str> {
    let Arguments::Serve(service) = arguments else {
        return None;
    };
    match subject {
        Subject::Socket => Some(service.socket),
        _ => service.log,
    }
}

fn entropy_of<'a>(arguments: &Arguments<'a>) -> Option<&'a str> {
    match arguments {
        Arguments::Serve(service) => Some(service.entropy),
        Arguments::Run {
            storage: Some(storage),
            ..
        } => storage.entropy,
        _ => None,
    }
}

fn script_of<'a>(arguments: &Arguments<'a>) -> Option<&'a str> {
    match arguments {
        Arguments::Run { script, .. } | Arguments::Check { script } => Some(named(*script)),
        _ => None,
    }
}

/// Returns the name of a script's file.
fn named<'a>(script: &'a str) -> &'a str {
    if script == "-" {
        "standard input"
    } else {
        script
    }
}

/// Returns the file that `restore` or `replay` reads.
fn operand_of<'a>(arguments: &Arguments<'a>) -> Option<&'a str> {
    match arguments {
        Arguments::Restore { text, .. } => Some(*text),
        Arguments::Replay { journal } => Some(*journal),
        _ => None,
    }
}

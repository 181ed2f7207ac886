//! The command line as clap's types define it: the program's subcommands, with their options and
//! help texts.

ghost use Rattle.std.specs.Prelude.{◌≡◌, ◌∷◌, [], codes, false, IfOk, IsOkAnd};
ghost use Rattle.clap.specs.Words.{AddsSubcommand, app_of, new_app, rule_of, shape_of};
ghost use Rattle.tpmsim_arguments.specs.CommandLine.{asm_command, bare_program, check_command};
ghost use Rattle.tpmsim_arguments.specs.CommandLine.{choice, code_command, flag, line_command};
ghost use Rattle.tpmsim_arguments.specs.CommandLine.{lines_command, operand, optional_operand};
ghost use Rattle.tpmsim_arguments.specs.CommandLine.{power_command, program, replay_command};
ghost use Rattle.tpmsim_arguments.specs.CommandLine.{restore_command, run_command, script_command};
ghost use Rattle.tpmsim_arguments.specs.CommandLine.{serve_command, setting, snapshot_command};
ghost use Rattle.tpmsim_arguments.specs.CommandLine.{with_arguments};

use clap::{Arg, ArgAction, Command};
use std::alloc::{AllocError, Global};

/// The program without its commands.
fn program_without_commands<'a>(alloc: Global) -> Command<'a>
    ensures { app_of result ≡ bare_program }
{
    Command::new(alloc, "tpmsim")
        .about("A TPM 2.0 in software: serves a device, and runs scripts of commands")
        .version("0.1.0")
        .subcommand_required(true)
}

/// The program with its commands, in the order in which the help lists them.
pub fn command<'a>(alloc: Global) -> Result<Command<'a>, AllocError>
    ensures { IfOk result (λ command. app_of command ≡ program) }
{
    let program = with_command(Ok(program_without_commands(alloc)), run_command(alloc));
    let program = with_command(program, check_command(alloc));
    let program = with_command(program, asm_command(alloc));
    let program = with_command(program, line_command(alloc));
    let program = with_command(program, lines_command(alloc));
    let program = with_command(program, code_command(alloc));
    let program = with_command(program, serve_command(alloc));
    let program = with_command(program, power_command(alloc));
    let program = with_command(program, snapshot_command(alloc));
    let program = with_command(program, restore_command(alloc));
    let program = with_command(program, script_command(alloc));
    with_command(program, replay_command(alloc))
}

/// Adds a command to the program, if both could be allocated.
fn with_command<'a>(
    program: Result<Command<'a>, AllocError>,
    command: Result<Command<'a>, AllocError>,
) -> Result<Command<'a>, AllocError>
    ensures { IfOk result (λ whole. IsOkAnd program.entry (λ given.
        IsOkAnd command.entry (λ added. AddsSubcommand given added whole))) }
{
    program?.subcommand(command?)
}

/// The command `run` without its options. Its help has one text before the options and one after
/// them.
fn run_without_options<'a>(alloc: Global) -> Command<'a>
    ensures { app_of result ≡ new_app (codes "run") }
{
    Command::new(alloc, "run")
        .about("Runs a script, and prints the responses in hex, one a line")
        .after_help("Example: tpmsim run --trace examples/measured_boot.tpm")
}

const TRACE: &str = "Prints before each response which row of the table the command took";

const COMPLETE_DEVICE: &str =
    "Uses a device that also serves the commands of the complete profile; not for a kept device";

const RUN_IMAGE: &str =
    "What the device keeps without power; a new device if there is no such file";

const RUN_ENTROPY: &str = "The random bytes of a new device, its first 256; 00 to ff without this";

const SCRIPT: &str =
    "The file of the script, or - for standard input; with --state, - may be left out";

fn run_command<'a>(alloc: Global) -> Result<Command<'a>, AllocError>
    ensures { IfOk result (λ command. shape_of command ≡ run_command) }
{
    run_without_options(alloc)
        .arg(flag(alloc, "trace", TRACE))?
        .arg(flag(alloc, "complete", COMPLETE_DEVICE))?
        .arg(choice(alloc, "image", "FILE", RUN_IMAGE))?
        .arg(choice(alloc, "state", "DIR", STATE))?
        .arg(choice(alloc, "keep", "NUMBER", KEEP))?
        .arg(choice(alloc, "entropy", "FILE", RUN_ENTROPY))?
        .arg(optional_operand(alloc, "script", "SCRIPT", SCRIPT))
}

/// Creates the optional flag `--NAME`.
fn flag<'a>(alloc: Global, name: &'a str, help: &'a str) -> Arg<'a>
    ensures rule { rule_of result ≡ flag name.entry.now }
    ensures local { result.global ≡ false }
{
    Arg::new(alloc, name)
        .long(name)
        .action(ArgAction::SetTrue)
        .help(help)
}

/// Creates a required positional argument.
fn operand<'a>(alloc: Global, name: &'a str, value: &'a str, help: &'a str) -> Arg<'a>
    ensures rule { rule_of result ≡ operand name.entry.now }
    ensures local { result.global ≡ false }
{
    Arg::new(alloc, name)
        .value_name(value)
        .required(true)
        .action(ArgAction::Set)
        .help(help)
}

/// Creates an optional positional argument.
fn optional_operand<'a>(alloc: Global, name: &'a str, value: &'a str, help: &'a str) -> Arg<'a>
    ensures rule { rule_of result ≡ optional_operand name.entry.now }
    ensures local { result.global ≡ false }
{
    Arg::new(alloc, name)
        .value_name(value)
        .action(ArgAction::Set)
        .help(help)
}

/// Creates the optional argument `--NAME VALUE`.
fn choice<'a>(alloc: Global, name: &'a str, value: &'a str, help: &'a str) -> Arg<'a>
    ensures rule { rule_of result ≡ choice name.entry.now }
    ensures local { result.global ≡ false }
{
    Arg::new(alloc, name)
        .long(name)
        .value_name(value)
        .action(ArgAction::Set)
        .help(help)
}

/// A command that has one argument.
fn one_argument_command<'a>(
    alloc: Global,
    name: &'a str,
    about: &'a str,
    example: &'a str,
    argument: Arg<'a>,
) -> Result<Command<'a>, AllocError>
    requires local { argument.global ≡ false }
    ensures { IfOk result (λ command.
        shape_of command ≡ with_arguments name.entry.now (rule_of argument.entry ∷ [])) }
{
    Command::new(alloc, name)
        .about(about)
        .after_help(example)
        .arg(argument)
}

fn check_command<'a>(alloc: Global) -> Result<Command<'a>, AllocError>
    ensures { IfOk result (λ command. shape_of command ≡ check_command) }
{
    let argument = operand(
        alloc,
        "script",
        "SCRIPT",
        "The file of the script, or - for standard input",
    );
    one_argument_command(
        alloc,
        "check",
        "Reads a script without running it, and prints what is wrong with each bad line",
        "Example: tpmsim check examples/measured_boot.tpm",
        argument,
    )
}

/// The command `asm` without its arguments.
fn asm_without_arguments<'a>(alloc: Global) -> Command<'a>
    ensures { app_of result ≡ new_app (codes "asm") }
{
    Command::new(alloc, "asm")
        .about("Prints the buffer of a command in hex")
        .after_help("Example: tpmsim asm 'PCR_Read sha256:0,4'")
}

const COMPLETE_COMMANDS: &str = "Also knows the commands of the complete profile";

const WORDS: &str = "The command in words, as it comes after `do ` in a script";

fn asm_command<'a>(alloc: Global) -> Result<Command<'a>, AllocError>
    ensures { IfOk result (λ command. shape_of command ≡ asm_command) }
{
    asm_without_arguments(alloc)
        .arg(flag(alloc, "complete", COMPLETE_COMMANDS))?
        .arg(operand(alloc, "line", "LINE", WORDS))
}

fn line_command<'a>(alloc: Global) -> Result<Command<'a>, AllocError>
    ensures { IfOk result (λ command. shape_of command ≡ line_command) }
{
    let argument = operand(
        alloc,
        "hex",
        "HEX",
        "The buffer of the command in hex, as it comes after `cmd ` in a script",
    );
    one_argument_command(
        alloc,
        "line",
        "Prints the line in words that encodes the buffer of a command",
        "Example: tpmsim line 80010000000c0000017b0020",
        argument,
    )
}

fn lines_command<'a>(alloc: Global) -> Result<Command<'a>, AllocError>
    ensures { IfOk result (λ command. shape_of command ≡ lines_command) }
{
    let argument = optional_operand(
        alloc,
        "name",
        "NAME",
        "The command, by the standard's name without TPM2_; all commands without this",
    );
    one_argument_command(
        alloc,
        "lines",
        "Prints how a command is said in words, and an example of it",
        "Example: tpmsim lines NV_Write",
        argument,
    )
}

fn code_command<'a>(alloc: Global) -> Result<Command<'a>, AllocError>
    ensures { IfOk result (λ command. shape_of command ≡ code_command) }
{
    let argument = operand(
        alloc,
        "number",
        "HEX",
        "The response code in hex, of at most eight digits",
    );
    one_argument_command(
        alloc,
        "code",
        "Prints the name of a response code, and the place of the fault that it reports",
        "Example: tpmsim code 98e",
        argument,
    )
}

/// The command `serve` without its options. Its help has one text before the options and one after
/// them.
fn serve_without_options<'a>(alloc: Global) -> Command<'a>
    ensures { app_of result ≡ new_app (codes "serve") }
{
    Command::new(alloc, "serve")
        .about("Serves a device on a Unix socket, and keeps its state in an image or in a folder")
        .after_help("Example: tpmsim serve --socket tpm.sock --state tpm --complete")
}

const SOCKET: &str = "The socket, which is made; one that was left there is replaced";

const IMAGE: &str =
    "What the device keeps without power; a new device if there is no such file. This or --state \
     has to be given";

const LOG: &str =
    "Writes each command that was answered there, as a script that plays the device again";

const STATE: &str =
    "The device's state, instead of --image; a new device if there is no such folder";

const KEEP: &str =
    "How many finished journals stay in the folder of the state, at most 99; 0 without this";

const COMPLETE: &str =
    "With --state, the completing layer answers what clients ask for and the device lacks";

const ENTROPY: &str =
    "The random bytes, 256 for each command; with --state, /dev/urandom without this";

const LOCALITY: &str = "The locality of all commands, 0 to 4; with --state, 0 without this";

const CONNECTIONS: &str =
    "How many connections are served, one after another; with --state, without end unless this is \
     given";

const SAVE_EACH: &str =
    "Saves before each response that reports a change, not after a connection alone";

fn serve_command<'a>(alloc: Global) -> Result<Command<'a>, AllocError>
    ensures { IfOk result (λ command. shape_of command ≡ serve_command) }
{
    serve_without_options(alloc)
        .arg(setting(alloc, "socket", "PATH", SOCKET))?
        .arg(choice(alloc, "image", "FILE", IMAGE))?
        .arg(choice(alloc, "log", "FILE", LOG))?
        .arg(choice(alloc, "state", "DIR", STATE))?
        .arg(choice(alloc, "keep", "NUMBER", KEEP))?
        .arg(flag(alloc, "complete", COMPLETE))?
        .arg(choice(alloc, "entropy", "FILE", ENTROPY))?
        .arg(choice(alloc, "locality", "NUMBER", LOCALITY))?
        .arg(choice(alloc, "connections", "NUMBER", CONNECTIONS))?
        .arg(flag(alloc, "save-each", SAVE_EACH))
}

/// Creates the required argument `--NAME VALUE`.
fn setting<'a>(alloc: Global, name: &'a str, value: &'a str, help: &'a str) -> Arg<'a>
    ensures rule { rule_of result ≡ setting name.entry.now }
    ensures local { result.global ≡ false }
{
    Arg::new(alloc, name)
        .long(name)
        .value_name(value)
        .required(true)
        .action(ArgAction::Set)
        .help(help)
}

fn power_command<'a>(alloc: Global) -> Result<Command<'a>, AllocError>
    ensures { IfOk result (λ command. shape_of command ≡ power_command) }
{
    Command::new(alloc, "power")
        .about("Cycles the power of a device whose state is in a folder")
        .after_help("Example: tpmsim power tpm")
        .arg(flag(
            alloc,
            "cut",
            "Drops what follows the last whole record before damage, and says how much that is",
        ))?
        .arg(choice(alloc, "keep", "NUMBER", KEEP))?
        .arg(operand(alloc, "state", "DIR", "The folder of the device's state"))
}

fn snapshot_command<'a>(alloc: Global) -> Result<Command<'a>, AllocError>
    ensures { IfOk result (λ command. shape_of command ≡ snapshot_command) }
{
    let argument = operand(alloc, "state", "DIR", "The folder of the device's state");
    one_argument_command(
        alloc,
        "snapshot",
        "Writes all that a device is to standard output, as a state text",
        "Example: tpmsim snapshot tpm >tpm.state",
        argument,
    )
}

fn restore_command<'a>(alloc: Global) -> Result<Command<'a>, AllocError>
    ensures { IfOk result (λ command. shape_of command ≡ restore_command) }
{
    Command::new(alloc, "restore")
        .about("Replaces a device whose state is in a folder by the one of a state text")
        .after_help("Example: tpmsim restore tpm tpm.state")
        .arg(choice(alloc, "keep", "NUMBER", KEEP))?
        .arg(operand(
            alloc,
            "state",
            "DIR",
            "The folder of the device's state; made if there is no such folder",
        ))?
        .arg(operand(
            alloc,
            "snapshot",
            "FILE",
            "The state text, as snapshot wrote it",
        ))
}

fn script_command<'a>(alloc: Global) -> Result<Command<'a>, AllocError>
    ensures { IfOk result (λ command. shape_of command ≡ script_command) }
{
    let argument = operand(alloc, "state", "DIR", "The folder of the device's state");
    one_argument_command(
        alloc,
        "script",
        "Prints what happened to a device since its power came on, as a script",
        "Example: tpmsim script tpm",
        argument,
    )
}

fn replay_command<'a>(alloc: Global) -> Result<Command<'a>, AllocError>
    ensures { IfOk result (λ command. shape_of command ≡ replay_command) }
{
    let argument = operand(
        alloc,
        "journal",
        "FILE",
        "The journal of a device in a folder, or the log of a served one",
    );
    one_argument_command(
        alloc,
        "replay",
        "Executes what was recorded again, and prints its traces and its responses",
        "Example: tpmsim replay tpm/journal",
        argument,
    )
}

//! Parses the words of a command line, and returns what they request.

ghost use Rattle.std.specs.Prelude.{◌≡◌, codes, map, ok_or, option_map};
ghost use Rattle.clap.specs.Words.{first_of, found_of, rows_of, subcommand_rows_of};
ghost use Rattle.tpm_bytes.specs.Reading.{Gives};
ghost use Rattle.tpmsim_arguments.specs.Answers.{Answers};
ghost use Rattle.tpm_types_common.specs.Locality.{locality_number};
ghost use Rattle.tpmsim_arguments.specs.Invocation.{asked_in, asked_of, completes_by};
ghost use Rattle.tpmsim_arguments.specs.Invocation.{connections_by, entropy_by, invocation_of};
ghost use Rattle.tpmsim_arguments.specs.Invocation.{is_set, kept_of, locality_by, log_by};
ghost use Rattle.tpmsim_arguments.specs.Invocation.{needed_by, past_by, past_in, past_of, place_by};
ghost use Rattle.tpmsim_arguments.specs.Invocation.{profile_in};
ghost use Rattle.tpmsim_arguments.specs.Invocation.{place_in, power_in, restore_in, run_in};
ghost use Rattle.tpmsim_arguments.specs.Invocation.{script_in, served_of, service_in, storage_in};
ghost use Rattle.tpmsim_arguments.specs.Invocation.{stored_of};
ghost use Rattle.tpmsim_arguments.specs.declared.fault.ArgumentFault.TheVariants.{Usage};

use crate::command_line::command;
use crate::fault::ArgumentFault;
use crate::place::Place;
use crate::service::Service;
use crate::storage::Storage;
use clap::ArgMatches;
use std::alloc::Global;
use std::convert::AsStr;
use tpm_commands::Profile;
use tpm_number::{decimal, locality};
use tpm_types_common::Locality;

/// What a command line requests.
#[derive(Drop)]
pub enum Arguments<'a> {
    /// Run the script in this file, or on standard input if the word is `-`. `trace` says whether
    /// to print the trace of each event, and `storage` contains the files of the device, if it is
    /// kept. The device is of this profile.
    Run {
        script: &'a str,
        trace: bool,
        profile: Profile,
        storage: Option<Storage<'a>>,
    },
    /// Print the faults in the lines of the script in this file, or on standard input if the word
    /// is `-`.
    Check {
        script: &'a str,
    },
    /// Print the buffer of the command of this profile that this line encodes.
    Assemble {
        profile: Profile,
        line: &'a str,
    },
    /// Print the line that encodes the buffer with these hex digits.
    Spell {
        digits: &'a str,
    },
    /// Print the form of the command with this name in words, or the forms of all commands.
    Forms {
        name: Option<&'a str>,
    },
    /// Print the meaning of the response code with these hex digits.
    Code {
        digits: &'a str,
    },
    /// Serve a device on a socket, with these settings.
    Serve(Service<'a>),
    /// Power-cycle the device whose state is in this folder. With `cuts`, a damaged journal is
    /// accepted, and the device is opened from the last complete entry before the damage. `past` is
    /// the number of finished journals that stay in the folder.
    Power {
        state: &'a str,
        cuts: bool,
        past: u32,
    },
    /// Print the state text of the device whose state is in this folder.
    Snapshot {
        state: &'a str,
    },
    /// Restore the device in this folder from the state text in this file. A device that is already
    /// in the folder is replaced. `past` is the number of finished journals that stay in the
    /// folder.
    Restore {
        state: &'a str,
        text: &'a str,
        past: u32,
    },
    /// Print the history of the device whose state is in this folder, as a script.
    Retell {
        state: &'a str,
    },
    /// Execute again the commands that this journal or log recorded, and print the responses.
    Replay {
        journal: &'a str,
    },
    /// Print the program's help or its version, which clap returns instead of matches.
    Tell(clap::Error),
}

impl<'a> Arguments<'a> {
    /// Parses the words of a command line. The first word is the program's name.
    pub fn parse<S: AsStr>(alloc: Global, words: &'a [S]) -> Result<Arguments<'a>, ArgumentFault>
        ensures { Answers (map S.text words.entry.now) result }
    {
        match command(alloc)?.try_get_matches_from(words) {
            Ok(matches) => Arguments::of_matches(&matches),
            Err(error) if error.use_stderr() => Err(ArgumentFault::from(error)),
            Err(error) => Ok(Arguments::Tell(error)),
        }
    }

    /// Returns what a command line requests, from clap's matches.
    fn of_matches(matches: &ArgMatches<'a>) -> Result<Arguments<'a>, ArgumentFault>
        ensures { Gives invocation_of (ok_or (asked_in (subcommand_rows_of matches.now)) Usage)
            result }
    {
        let Some((name, options)) = entered(matches) else {
            return Err(ArgumentFault::Usage);
        };
        Arguments::of_command(name, options).ok_or(ArgumentFault::Usage)
    }

    /// Returns what the command with this name requests, from clap's matches.
    fn of_command(name: &str, options: &ArgMatches<'a>) -> Option<Arguments<'a>>
        ensures { option_map invocation_of result
            ≡ asked_of name.now (rows_of (found_of options.now)) }
    {
        match name {
            "run" => run_of(options),
            "check" => Some(Arguments::Check {
                script: value(options, "script")?,
            }),
            "asm" => Some(Arguments::Assemble {
                line: value(options, "line")?,
                profile: profile_of(options),
            }),
            "line" => Some(Arguments::Spell {
                digits: value(options, "hex")?,
            }),
            "lines" => Some(Arguments::Forms {
                name: value(options, "name"),
            }),
            "code" => Some(Arguments::Code {
                digits: value(options, "number")?,
            }),
            "serve" => Some(Arguments::Serve(service_of(options)?)),
            "power" => power_of(options),
            "snapshot" => Some(Arguments::Snapshot {
                state: value(options, "state")?,
            }),
            "restore" => restore_of(options),
            "script" => Some(Arguments::Retell {
                state: value(options, "state")?,
            }),
            "replay" => Some(Arguments::Replay {
                journal: value(options, "journal")?,
            }),
            _ => None,
        }
    }
}

/// The subcommand that was entered, with its matches.
fn entered<'m, 'a>(matches: &'m ArgMatches<'a>) -> Option<(&'a str, &'m ArgMatches<'a>)>
    ensures { option_map (λ p. (p.0.now, rows_of (found_of p.1.now))) result
        ≡ subcommand_rows_of matches.now }
{
    matches.subcommand()
}

/// The value of an argument.
pub(crate) fn value<'a>(options: &ArgMatches<'a>, name: &str) -> Option<&'a str>
    ensures { option_map (λ text. text.now) result
        ≡ first_of name.now (rows_of (found_of options.now)) }
{
    options.get_str(name)
}

/// Whether a flag was given. If it was, its text in clap is "true", and otherwise "false". The
/// contract of clap's `get_flag` covers no other texts.
pub(crate) fn is_set(options: &ArgMatches<'_>, flag: &str) -> bool
    ensures { result ≡ is_set flag.now (rows_of (found_of options.now)) }
{
    match value(options, flag) {
        Some(text) => text == "true",
        None => false,
    }
}

/// Returns what `run` requests, from its matches.
fn run_of<'a>(options: &ArgMatches<'a>) -> Option<Arguments<'a>>
    ensures { option_map invocation_of result ≡ run_in (rows_of (found_of options.now)) }
{
    let script = script_of(options)?;
    let storage = storage_of(options)?;
    let profile = profile_of(options);
    if storage.is_some() && profile == Profile::Complete {
        return None;
    }
    Some(Arguments::Run {
        script,
        trace: is_set(options, "trace"),
        profile,
        storage,
    })
}

/// Returns the profile that the matches request: complete if the flag for it was given.
pub(crate) fn profile_of(options: &ArgMatches<'_>) -> Profile
    ensures { result ≡ profile_in (rows_of (found_of options.now)) }
{
    if is_set(options, "complete") {
        Profile::Complete
    } else {
        Profile::Symmetric
    }
}

/// Returns the script that the matches of `run` name. If they name no script and the device's state
/// is in a folder, the script is standard input.
pub(crate) fn script_of<'a>(options: &ArgMatches<'a>) -> Option<&'a str>
    ensures { option_map (λ text. text.now) result ≡ script_in (rows_of (found_of options.now)) }
{
    match (value(options, "script"), value(options, "state")) {
        (Some(script), _) => Some(script),
        (None, Some(_)) => Some("-"),
        (None, None) => None,
    }
}

/// Returns what `power` requests, from its matches.
fn power_of<'a>(options: &ArgMatches<'a>) -> Option<Arguments<'a>>
    ensures { option_map invocation_of result ≡ power_in (rows_of (found_of options.now)) }
{
    Some(Arguments::Power {
        state: value(options, "state")?,
        cuts: is_set(options, "cut"),
        past: past_by(value(options, "keep"))?,
    })
}

/// Returns what `restore` requests, from its matches.
fn restore_of<'a>(options: &ArgMatches<'a>) -> Option<Arguments<'a>>
    ensures { option_map invocation_of result ≡ restore_in (rows_of (found_of options.now)) }
{
    Some(Arguments::Restore {
        state: value(options, "state")?,
        text: value(options, "snapshot")?,
        past: past_by(value(options, "keep"))?,
    })
}

/// Returns, from the matches, where the device that `run` uses is kept, if it is kept. Without an
/// image or a folder, it is an error to name a file of random bytes, or to say how many journals to
/// keep.
pub(crate) fn storage_of<'a>(options: &ArgMatches<'a>) -> Option<Option<Storage<'a>>>
    ensures { option_map (option_map stored_of) result
        ≡ storage_in (rows_of (found_of options.now)) }
{
    let entropy = value(options, "entropy");
    let keep = value(options, "keep");
    match (
        value(options, "image"),
        value(options, "state"),
        keep,
        entropy,
    ) {
        (None, None, None, None) => Some(None),
        (image, state, keep, entropy) => Some(Some(Storage {
            place: place_by(image, state, keep)?,
            entropy,
        })),
    }
}

/// Returns the place of the device: an image, or a folder with its state. Exactly one of these must
/// be given. The number of finished journals applies only to a folder.
fn place_by<'a>(
    image: Option<&'a str>,
    state: Option<&'a str>,
    keep: Option<&'a str>,
) -> Option<Place<'a>>
    ensures { option_map kept_of result
        ≡ place_by (option_map (λ text. text.now) image.entry)
        (option_map (λ text. text.now) state.entry) (option_map (λ text. text.now) keep.entry) }
{
    match (image, state, keep) {
        (Some(image), None, None) => Some(Place::Image(image)),
        (None, Some(folder), keep) => Some(Place::State {
            folder,
            past: past_by(keep)?,
        }),
        _ => None,
    }
}

/// Returns the number of finished journals that stay in a folder, from the digits of `--keep`, or 0
/// without `--keep`.
pub(crate) fn past_by(keep: Option<&str>) -> Option<u32>
    ensures { result ≡ past_by (option_map (λ text. text.now) keep.entry) }
{
    match keep {
        Some(digits) => past_of(decimal(digits.as_bytes())?),
        None => Some(0),
    }
}

/// Returns this number of journals, if it is at most 99.
fn past_of(number: u32) -> Option<u32>
    ensures { result ≡ past_of number }
{
    if number <= 99 { Some(number) } else { None }
}

/// Returns, from the matches, the place where the device that `serve` uses is kept.
pub(crate) fn place_of<'a>(options: &ArgMatches<'a>) -> Option<Place<'a>>
    ensures { option_map kept_of result ≡ place_in (rows_of (found_of options.now)) }
{
    place_by(
        value(options, "image"),
        value(options, "state"),
        value(options, "keep"),
    )
}

/// Returns the log of a device in this place, if a log is requested. Only a device in an image can
/// have a log.
pub(crate) fn log_by<'a>(place: Place<'_>, log: Option<&'a str>) -> Option<Option<&'a str>>
    ensures { option_map (option_map (λ text. text.now)) result
        ≡ log_by (kept_of place.entry) (option_map (λ text. text.now) log.entry) }
{
    match (place, log) {
        (_, None) => Some(None),
        (Place::Image(_), Some(log)) => Some(Some(log)),
        (Place::State { .. }, Some(_)) => None,
    }
}

/// Returns whether the completing layer is on. Only a device in a folder can have the layer.
pub(crate) fn completes_by(place: Place<'_>, completes: bool) -> Option<bool>
    ensures { result ≡ completes_by (kept_of place.entry) completes }
{
    match place {
        Place::Image(_) if completes => None,
        Place::Image(_) => Some(false),
        Place::State { .. } => Some(completes),
    }
}

/// Returns an option of `serve` that a device in an image needs. Only a device in a folder can be
/// served without this option.
pub(crate) fn needed_by<'a>(place: Place<'_>, option: Option<&'a str>) -> Option<Option<&'a str>>
    ensures { option_map (option_map (λ text. text.now)) result
        ≡ needed_by (kept_of place.entry) (option_map (λ text. text.now) option.entry) }
{
    match (place, option) {
        (Place::Image(_), None) => None,
        (Place::Image(_), Some(text)) => Some(Some(text)),
        (Place::State { .. }, option) => Some(option),
    }
}

/// Returns the path of the file of random bytes: the system's file, unless another file is given.
fn entropy_by<'a>(path: Option<&'a str>) -> &'a str
    ensures { result.now ≡ entropy_by (option_map (λ text. text.now) path.entry) }
{
    match path {
        Some(path) => path,
        None => "/dev/urandom",
    }
}

/// Returns the locality with these decimal digits, or 0 without digits.
pub(crate) fn locality_by(digits: Option<&str>) -> Option<Locality>
    ensures { option_map locality_number result
        ≡ locality_by (option_map (λ text. text.now) digits.entry) }
{
    match digits {
        Some(digits) => locality(digits.as_bytes()),
        None => Locality::new(0),
    }
}

/// Returns the number of connections from these decimal digits. Without digits, the number is None,
/// which means no limit.
pub(crate) fn connections_by(digits: Option<&str>) -> Option<Option<u32>>
    ensures { result ≡ connections_by (option_map (λ text. text.now) digits.entry) }
{
    match digits {
        Some(digits) => Some(Some(decimal(digits.as_bytes())?)),
        None => Some(None),
    }
}

/// Returns what `serve` requests, from its matches.
fn service_of<'a>(options: &ArgMatches<'a>) -> Option<Service<'a>>
    ensures { option_map served_of result ≡ service_in (rows_of (found_of options.now)) }
{
    let socket = value(options, "socket")?;
    let place = place_of(options)?;
    let log = log_by(place, value(options, "log"))?;
    let completes = completes_by(place, is_set(options, "complete"))?;
    let entropy = needed_by(place, value(options, "entropy"))?;
    let locality = needed_by(place, value(options, "locality"))?;
    let connections = needed_by(place, value(options, "connections"))?;
    Some(Service {
        socket,
        place,
        log,
        completes,
        entropy: entropy_by(entropy),
        locality: locality_by(locality)?,
        connections: connections_by(connections)?,
        saves_each: is_set(options, "save-each"),
    })
}

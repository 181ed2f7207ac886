//! Why options that exist are refused together, or with a value.

ghost use Rattle.std.specs.Prelude.{◌≡◌, is_some, not, option_map};
ghost use Rattle.clap.specs.Words.{found_of, rows_of};
ghost use Rattle.tpmsim_arguments.specs.Invocation.{past_in, run_in, service_in};
ghost use Rattle.tpmsim_arguments.specs.Slip.{has_slip, numbers_slip};

use crate::arguments::{
    completes_by, connections_by, is_set, locality_by, log_by, needed_by, past_by, place_of,
    profile_of, script_of, storage_of, value,
};
use clap::ArgMatches;
use std::fmt;
use tpm_commands::Profile;

/// Why options are refused that `clap` accepts. `Display` writes it in words.
#[derive(Clone, Copy, PartialEq, Eq)]
pub enum Slip {
    /// There is no script.
    NoScript,
    /// There is no socket.
    NoSocket,
    /// There is neither an image nor a folder.
    NoPlace,
    /// There are both an image and a folder.
    TwoPlaces,
    /// Finished journals are kept without a folder.
    KeepWithoutState,
    /// The number of finished journals is not a number, or is too large.
    BadKeep,
    /// There is a file of random bytes, but the device is not kept.
    EntropyAlone,
    /// A device of the complete profile is to be kept.
    KeptProfile,
    /// There is a log of a device in a folder.
    LogWithoutImage,
    /// The completing layer is on, for a device in an image.
    LayerWithoutState,
    /// A device in an image has no file of random bytes.
    NoEntropy,
    /// A device in an image has no locality.
    NoLocality,
    /// A device in an image has no number of connections.
    NoConnections,
    /// The locality is not a number, or is too large.
    BadLocality,
    /// The number of connections is not a number, or is too large.
    BadConnections,
}

impl fmt::Display for Slip {
    ghost use Rattle.std.specs.Prelude.{Some};
    ghost use Rattle.tpmsim_arguments.specs.Slip.{slip_text};

    ghost output = { λ slip. Some (slip_text slip) };

    fn fmt<W: fmt::Write>(&self, f: &mut fmt::Formatter<W>) -> fmt::Result {
        match self {
            Slip::NoScript => write!(f, "missing SCRIPT"),
            Slip::NoSocket => write!(f, "missing --socket"),
            Slip::NoPlace => write!(f, "missing --image or --state"),
            Slip::TwoPlaces => write!(f, "--image excludes --state"),
            Slip::KeepWithoutState => write!(f, "--keep needs --state"),
            Slip::BadKeep => write!(f, "--keep is not a number from 0 to 99"),
            Slip::EntropyAlone => write!(f, "--entropy needs --image or --state"),
            Slip::KeptProfile => write!(f, "--complete excludes --image and --state"),
            Slip::LogWithoutImage => write!(f, "--log needs --image"),
            Slip::LayerWithoutState => write!(f, "--complete needs --state"),
            Slip::NoEntropy => write!(f, "missing --entropy, which --image needs"),
            Slip::NoLocality => write!(f, "missing --locality, which --image needs"),
            Slip::NoConnections => write!(f, "missing --connections, which --image needs"),
            Slip::BadLocality => write!(f, "--locality is not a number from 0 to 4"),
            Slip::BadConnections => write!(f, "--connections is not a number below 4294967296"),
        }
    }
}

/// Why the options of the command with this name are refused, if they are.
pub fn slip_of(name: &str, options: &ArgMatches<'_>) -> Option<Slip>
    ensures { is_some result ≡ has_slip name.now (rows_of (found_of options.now)) }
{
    match name {
        "run" => run_slip(options),
        "serve" => service_slip(options),
        "power" | "restore" => keep_slip(options),
        _ => None,
    }
}

/// Why the options of `run` are refused, if they are.
fn run_slip(options: &ArgMatches<'_>) -> Option<Slip>
    ensures { is_some result ≡ not (is_some (run_in (rows_of (found_of options.now)))) }
{
    let Some(_script) = script_of(options) else {
        return Some(Slip::NoScript);
    };
    let Some(storage) = storage_of(options) else {
        return Some(storage_slip(options));
    };
    if storage.is_some() && profile_of(options) == Profile::Complete {
        return Some(Slip::KeptProfile);
    }
    None
}

/// Why the options of `run` that say where the device is kept are refused.
fn storage_slip(options: &ArgMatches<'_>) -> Slip {
    match (value(options, "image"), value(options, "state")) {
        (None, None) => match value(options, "keep") {
            Some(_) => Slip::KeepWithoutState,
            None => Slip::EntropyAlone,
        },
        _ => place_slip(options),
    }
}

/// Why the options that say where a device is kept are refused.
fn place_slip(options: &ArgMatches<'_>) -> Slip {
    match (value(options, "image"), value(options, "state")) {
        (Some(_), Some(_)) => Slip::TwoPlaces,
        (Some(_), None) => Slip::KeepWithoutState,
        (None, Some(_)) => Slip::BadKeep,
        (None, None) => Slip::NoPlace,
    }
}

/// Why the options of `serve` are refused, if they are.
fn service_slip(options: &ArgMatches<'_>) -> Option<Slip>
    ensures { is_some result ≡ not (is_some (service_in (rows_of (found_of options.now)))) }
{
    let Some(_socket) = value(options, "socket") else {
        return Some(Slip::NoSocket);
    };
    let Some(place) = place_of(options) else {
        return Some(place_slip(options));
    };
    let Some(_log) = log_by(place, value(options, "log")) else {
        return Some(Slip::LogWithoutImage);
    };
    let Some(_completes) = completes_by(place, is_set(options, "complete")) else {
        return Some(Slip::LayerWithoutState);
    };
    let Some(_entropy) = needed_by(place, value(options, "entropy")) else {
        return Some(Slip::NoEntropy);
    };
    let Some(locality) = needed_by(place, value(options, "locality")) else {
        return Some(Slip::NoLocality);
    };
    let Some(connections) = needed_by(place, value(options, "connections")) else {
        return Some(Slip::NoConnections);
    };
    number_slip(locality, connections)
}

/// Why the numbers for `serve` are refused, if they are.
fn number_slip(locality: Option<&str>, connections: Option<&str>) -> Option<Slip>
    ensures { is_some result
        ≡ numbers_slip (option_map (λ text. text.now) locality.entry)
        (option_map (λ text. text.now) connections.entry) }
{
    if locality_by(locality).is_none() {
        Some(Slip::BadLocality)
    } else if connections_by(connections).is_none() {
        Some(Slip::BadConnections)
    } else {
        None
    }
}

/// Why the number of finished journals is refused, if it is.
fn keep_slip(options: &ArgMatches<'_>) -> Option<Slip>
    ensures { is_some result ≡ not (is_some (past_in (rows_of (found_of options.now)))) }
{
    match past_by(value(options, "keep")) {
        Some(_) => None,
        None => Some(Slip::BadKeep),
    }
}

//! The settings with which a device is served on a socket: its files, the locality, the number of
//! connections, when the device is saved, and whether the completing layer is on.

ghost use Rattle.std.specs.Prelude.{◌≡◌, ◌-◌, ◌^◌};
ghost use Rattle.std.specs.Option.{option_map_or};

use crate::place::Place;
use tpm_types_common::Locality;

/// The settings with which a device is served.
#[derive(Clone, Copy)]
pub struct Service<'a> {
    /// The path of the socket.
    pub socket: &'a str,
    /// Where the device is kept between two runs.
    pub place: Place<'a>,
    /// The path of the file to which the log is written, if there is a log.
    pub log: Option<&'a str>,
    /// The path of the file that random bytes are read from.
    pub entropy: &'a str,
    /// The locality of all commands.
    pub locality: Locality,
    /// The number of connections that are served before the program ends; with None, the program
    /// does not end.
    pub connections: Option<u32>,
    /// Whether the device is saved before each response, and not only after each connection.
    pub saves_each: bool,
    /// Whether the completing layer answers commands that the device does not support. The layer
    /// needs a device in a folder.
    pub completes: bool,
}

impl Service<'_> {
    /// Returns the number of connections that are served before the program ends. If no number is
    /// set, it is 2^64 - 1, which no run reaches.
    pub fn connection_limit(&self) -> u64
        ensures { result ≡ option_map_or (λ count. count) self.now.connections (2 ^ 64 - 1) }
    {
        match self.connections {
            Some(count) => u64::from(count),
            None => u64::MAX,
        }
    }
}

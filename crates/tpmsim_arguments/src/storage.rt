//! Where a script's device is kept.

use crate::place::Place;

/// The files of the device on which a script is played.
#[derive(Clone, Copy)]
pub struct Storage<'a> {
    /// Where the device is kept between two runs.
    pub place: Place<'a>,
    /// The path of the file with the random bytes from which a new device is made.
    pub entropy: Option<&'a str>,
}

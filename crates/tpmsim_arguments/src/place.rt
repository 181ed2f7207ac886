//! Where a device is kept between two runs.

/// The place in which a device is kept.
#[derive(Clone, Copy)]
pub enum Place<'a> {
    /// The path of the file that holds the device's image.
    Image(&'a str),
    /// The path of the folder that holds the device's state, and the number of finished journals
    /// that stay there.
    State { folder: &'a str, past: u32 },
}

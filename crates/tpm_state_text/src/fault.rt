//! The reasons why bytes are not a state text.

/// The reasons why bytes are not a state text, in the order of the checks.
#[derive(Clone, Copy, PartialEq, Eq)]
pub enum StateFault {
    /// The input is shorter than 42 bytes, the size of the head and the digest together.
    Short,
    /// The input does not begin with TPMS.
    Magic,
    /// The version in the head is not 1, 2 or 3.
    Version,
    /// The size of the input differs from the size in its head.
    Length,
    /// The last 32 bytes are not the SHA-256 digest of the bytes before them.
    Digest,
    /// The bytes between the head and the digest do not encode a state.
    Body,
    /// The version in the head is 1, which is no longer read. This is checked after the digest.
    Earlier,
}

/// The reasons why a device was not restored from a state text.
#[derive(Clone, Copy, PartialEq, Eq)]
pub enum RestoreFault {
    /// The bytes are not a state text. This is the first fault that was found.
    Text(StateFault),
    /// An allocation failed.
    NoMemory,
}

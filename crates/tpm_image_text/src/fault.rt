//! Why bytes are refused as an image, and why saving an image fails.

/// The reasons why bytes are not an image, in the order of the checks.
#[derive(Clone, Copy, PartialEq, Eq)]
pub enum ImageFault {
    /// The input is shorter than 42 bytes, the size of the head and the digest together.
    Short,
    /// The input does not begin with TPMI.
    Magic,
    /// The version in the head is neither 1 nor 2.
    Version,
    /// The size of the input differs from the size in its head.
    Length,
    /// The last 32 bytes are not the SHA-256 digest of the bytes before them.
    Digest,
    /// The bytes between the head and the digest do not encode a state within the limits of the
    /// version.
    Body,
    /// The input is an image, but an allocation failed.
    NoMemory,
}

/// Part of an image is truncated, or contains a value that is not allowed.
#[derive(Clone, Copy, PartialEq, Eq)]
pub struct Malformed;

/// Why the state of a device could not be decoded.
#[derive(Clone, Copy, PartialEq, Eq)]
pub enum FillFault {
    Malformed,
    NoMemory,
}

/// Why an image was not saved.
#[derive(Clone, Copy, PartialEq, Eq)]
pub enum SaveFault {
    /// The writer failed.
    Write,
}

//! The fault [`NoMemory`], which the device's crates return when an allocation fails.

/// An allocation failed, and the requested change was not made.
#[derive(Clone, Copy, Debug, PartialEq, Eq)]
pub struct NoMemory;

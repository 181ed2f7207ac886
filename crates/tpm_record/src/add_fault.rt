//! Why an object cannot be added to the device's state.

/// The reason why a transient or persistent object was not added.
#[derive(Clone, Copy, PartialEq, Eq)]
pub enum AddFault {
    /// The number of objects is at its limit.
    Full,
    /// The handle already has a persistent object.
    Taken,
    /// An allocation failed.
    NoMemory,
}

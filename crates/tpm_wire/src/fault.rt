//! Why a connection cannot be opened or found, or is not served to its end.

/// Eight connections are open, which is the limit.
#[derive(Clone, Copy, Debug, PartialEq, Eq)]
pub struct Full;

/// No connection with this number is open.
#[derive(Clone, Copy, Debug, PartialEq, Eq)]
pub struct NoConnection;

/// The host cannot supply random bytes or the time.
#[derive(Clone, Copy, PartialEq, Eq)]
pub struct HostFault;

/// The reasons why a connection was not served to its end.
#[derive(Clone, Copy, PartialEq, Eq)]
pub enum ServeFault {
    /// Eight connections are open.
    Full,
    /// The reader failed, or the connection reached its limit on reads that return bytes.
    Read,
    /// The writer failed while writing the response to a command, which has been executed.
    Write,
    /// The host returned a fault for a command, which has not been executed.
    Host,
    /// The witness, which is notified of each command, failed. The command has been executed, but
    /// no part of its response was written.
    Save,
}

//! The numbers of connections, 0 to 7.

ghost use Rattle.std.specs.Prelude.{◌≡◌, ◌<◌};

/// The number of a connection, 0 to 7. After a connection is closed, its number refers to no
/// connection until another connection is opened with the same number.
#[derive(Clone, Copy, PartialEq, Eq)]
pub struct ConnectionNumber {
    number: usize,
    ghost in_range: { number < 8 },
}

/// A connection, identified by its number.
pub type Conn = ConnectionNumber;

impl ConnectionNumber {
    ghost use Rattle.tpm_wire.specs.Number.{number_of};

    /// The number of the connection in this slot.
    pub(crate) fn of(place: usize) -> ConnectionNumber
        requires { place < 8 }
        ensures { number_of result ≡ place }
    {
        ConnectionNumber { number: place }
    }

    /// The slot of the connection.
    pub(crate) fn place(self) -> usize
        ensures value { result ≡ number_of self }
        ensures small { result < 8 }
    {
        self.number
    }
}

//! Creates a device and its host, and sends bytes to the device's connections. The functions have
//! no contracts, so that the prover does not look at the bytes.

use std::alloc::Global;
use std::test::Fail;
use tpm_machine::Machine;
use tpm_record::Keep;
use tpm_step::Outcome;
use tpm_types_common::Locality;
use tpm_wire::{ConnectionNumber, Host, Mux, NoConnection, Turn};

pub const STARTUP: &[u8] = &[0x80, 1, 0, 0, 0, 12, 0, 0, 1, 0x44, 0, 0];

/// A device that has not been started yet, with its connections.
pub fn mux<K: Keep>(alloc: Global) -> Result<Mux<K>, Fail> {
    Ok(Mux::new(Machine::manufacture(alloc, &[0; 256])?))
}

/// The host's values for a command from locality 0, one millisecond after the previous command.
/// This random byte is repeated.
fn host_with(random: u8) -> Host {
    Host {
        locality: Locality::new(0).unwrap(),
        elapsed_ms: 1,
        random: [random; 256],
    }
}

/// The host's values for a command whose random bytes the test does not choose.
pub fn host() -> Host {
    host_with(7)
}

/// Feeds bytes to a connection.
pub fn feed<K: Keep>(
    mux: &mut Mux<K>,
    connection: ConnectionNumber,
    piece: &[u8],
) -> Result<usize, NoConnection> {
    mux.feed(connection, piece)
}

/// Performs a turn of a connection.
pub fn turn<K: Keep>(mux: &mut Mux<K>, connection: ConnectionNumber) -> Result<Turn, NoConnection> {
    mux.turn(connection, host())
}

/// The outcome of a connection's next buffer, which must be complete. This random byte is repeated.
pub fn answer_with<K: Keep>(
    mux: &mut Mux<K>,
    connection: ConnectionNumber,
    random: u8,
) -> Result<Outcome, Fail> {
    match mux.turn(connection, host_with(random))? {
        Turn::Answer(outcome) => Ok(outcome),
        _ => Err(Fail::new("no answer")),
    }
}

/// The outcome of a connection's next buffer, which must be complete.
pub fn answer<K: Keep>(mux: &mut Mux<K>, connection: ConnectionNumber) -> Result<Outcome, Fail> {
    answer_with(mux, connection, 7)
}

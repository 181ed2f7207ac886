//! Serves a kept device on a connection. Other processes may execute commands on the device between
//! two commands of the connection.

use crate::kept::Kept;
use std::io::{Read, Write};
use tpm_bytes::Tap;
use tpm_types_common::{BUFFER_LIMIT, Locality};
use tpm_wire::connection::Connection;
use tpm_wire::reading::fill;
use tpmsim_folder::KeptFault;

/// The maximum number of nonempty reads for one connection.
const READS: u32 = 1_048_576;

/// Why a connection was not served to its end.
#[derive(Clone, Copy, PartialEq, Eq)]
pub enum ServeFault {
    /// The client could not be read from or written to.
    Client,
    /// There were no random bytes for a command, which was not executed.
    Random,
    /// The kept device could not execute a command.
    Kept(KeptFault),
}

/// The settings with which the commands of all connections are executed.
#[derive(Clone, Copy)]
pub struct Terms {
    /// The locality of each command.
    pub locality: Locality,
    /// Whether the completing layer is used.
    pub completes: bool,
}

/// The source of each command's random bytes.
pub trait RandomBytes {
    /// The next 256 random bytes; None if there are no more.
    fn next(&mut self) -> Option<[u8; 256]>;
}

/// Serves a connection: executes each command buffer that the client sends, and writes the
/// response. Each command is executed at the current time of the host's clock, with these settings
/// and with fresh random bytes.
pub fn serve<R: Read, W: Write, B: RandomBytes>(
    kept: &mut Kept<'_>,
    terms: Terms,
    random: &mut B,
    reader: &mut Tap<R>,
    writer: &mut Tap<W>,
) -> Result<(), ServeFault> {
    let mut connection = Connection::new();
    let mut piece = [0; BUFFER_LIMIT];
    for _ in 0..READS {
        match fill(reader, &mut connection, &mut piece) {
            Ok(0) => return Ok(()),
            Ok(_) => {
                answer_whole(kept, terms, random, &mut connection, writer)?;
            }
            Err(_) => return Err(ServeFault::Client),
        }
        if connection.has_ended() {
            return Ok(());
        }
    }
    Err(ServeFault::Client)
}

/// Executes the complete buffers that a connection has received, and writes their responses. The
/// loop has enough iterations, since each buffer has at least one byte.
fn answer_whole<W: Write, B: RandomBytes>(
    kept: &mut Kept<'_>,
    terms: Terms,
    random: &mut B,
    connection: &mut Connection,
    writer: &mut Tap<W>,
) -> Result<(), ServeFault> {
    for _ in 0..BUFFER_LIMIT {
        let Some(front) = connection.front() else {
            return Ok(());
        };
        let Some(bytes) = random.next() else {
            return Err(ServeFault::Random);
        };
        let (buffer, _) = connection.bytes().split_at(front.size);
        let answer = match kept.execute_now(terms.locality, terms.completes, &bytes, buffer) {
            Ok(answer) => answer,
            Err(fault) => return Err(ServeFault::Kept(fault)),
        };
        connection.pass(front);
        let Ok(()) = writer.write_all(answer.response) else {
            return Err(ServeFault::Client);
        };
    }
    Ok(())
}

//! Reads once from a reader into a connection, at most as many bytes as fit.

ghost use Rattle.std.specs.Prelude.{◌≡◌, length};
ghost use Rattle.tpm_bytes.specs.Tap.{device_of, marks_of};
ghost use Rattle.tpm_wire.specs.Serve.{Fills};

use crate::connection::Connection;
use std::io::Read;
use tpm_bytes::{Failed, Tap};
use tpm_types_common::BUFFER_LIMIT;

/// Reads once, at most as many bytes as fit into the connection, and returns the number of bytes
/// read. The bytes pass through `piece`, which the caller creates once for all reads.
pub fn fill<R: Read>(
    reader: &mut Tap<R>,
    connection: &mut Connection,
    piece: &mut [u8; BUFFER_LIMIT],
) -> Result<usize, Failed>
    ensures { Fills (R.remaining (device_of reader.old)) (R.remaining (device_of reader.new))
        (marks_of reader.old) (marks_of reader.new) connection.old result connection.new }
{
    let room = &mut piece[..connection.room()];
    match reader.read(room) {
        Ok(count) => {
            connection.feed(&room[..count]);
            Ok(count)
        }
        Err(_) => Err(Failed),
    }
}

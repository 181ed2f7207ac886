//! Finds the end of a connection's next command buffer from the commandSize of the command.

ghost use Rattle.std.specs.Prelude.{◌≡◌, false};
ghost use Rattle.tpm_wire.specs.Stream.{IsFront};

use tpm_types_common::BUFFER_LIMIT;

/// The minimum size of a command: the size of its header.
const HEADER_SIZE: usize = 10;

/// The offset of the end of commandSize in a command.
const SIZE_END: usize = 6;

/// The size of a connection's next buffer, and whether this buffer is the last buffer of the
/// stream.
#[derive(Clone, Copy)]
pub struct Front {
    pub size: usize,
    pub last: bool,
}

/// If these bytes begin with a complete buffer, returns its size, and whether it is the last buffer
/// of the stream.
#[tactic(auto, unfolding(crate::specs::Stream::command_size))]
pub fn front_of(bytes: &[u8]) -> Option<Front>
    ensures { IsFront (record { taken = bytes.now; ended = false }) result }
{
    let [_, _, a, b, c, d, ..] = bytes else {
        return None;
    };
    let size = u32::from_be_bytes([*a, *b, *c, *d]) as usize;
    if size < HEADER_SIZE || size > BUFFER_LIMIT {
        return Some(Front {
            size: SIZE_END,
            last: true,
        });
    }
    if bytes.len() < size {
        return None;
    }
    Some(Front { size, last: false })
}

//! A connection: stores the received bytes until they are executed, and returns them buffer by
//! buffer.

ghost use Rattle.tpm_types_common.specs.Limits.{buffer_limit};
ghost use Rattle.std.specs.Prelude.{◌≡◌, ◌+◌, ◌≤◌, drop, false, length, take};
ghost use Rattle.arrayvec.specs.ArrayVec.{array_vec_len};
ghost use Rattle.tpm_wire.specs.Stream.{IsFront, cut_at, fed_stream, fitting_count, new_stream};

use crate::front::{Front, front_of};
use arrayvec::ArrayVec;
use std::marker::Model;
use tpm_bytes::append;
use tpm_types_common::BUFFER_LIMIT;

/// The received bytes of a connection that are not yet executed, and whether the connection has
/// ended, so that no more buffers follow.
#[derive(Drop)]
pub struct Connection {
    taken: ArrayVec<u8, BUFFER_LIMIT>,
    ended: bool,
}

impl Model for Connection {
    ghost use Rattle.tpm_wire.specs.Stream.{Stream};

    ghost Value = { Stream };

    ghost view = { λ c. record { taken = c.taken.items; ended = c.ended } };
}

impl Connection {
    /// Returns a new connection, which has received no bytes.
    pub fn new() -> Connection
        ensures { result ≡ new_stream }
    {
        Connection {
            taken: ArrayVec::new(),
            ended: false,
        }
    }

    /// Whether the connection has ended, so that no more buffers follow.
    pub fn has_ended(&self) -> bool
        ensures { result ≡ self.now.ended }
    {
        self.ended
    }

    /// Returns the number of bytes that still fit into the connection.
    pub fn room(&self) -> usize
        ensures { result + length self.now.taken ≡ buffer_limit }
    {
        self.taken.remaining_capacity()
    }

    /// Appends as many bytes of `piece` as fit into the connection, and returns their number.
    pub fn feed(&mut self, piece: &[u8]) -> usize
        ensures count { result ≡ fitting_count self.old (length piece.now) }
        ensures after { self.new
            ≡ fed_stream self.old (take (fitting_count self.old (length piece.now)) piece.now) }
    {
        let count = self.taken.remaining_capacity().min(piece.len());
        append(&mut self.taken, &piece[..count]);
        count
    }

    /// If the next buffer is complete, returns its size, and whether it is the last buffer of the
    /// stream.
    pub fn front(&self) -> Option<Front>
        ensures { IsFront self.now result }
    {
        if self.ended {
            return None;
        }
        front_of(self.taken.as_slice())
    }

    /// The received bytes that are not yet executed.
    pub fn bytes(&self) -> &[u8]
        ensures { result.now ≡ self.now.taken }
    {
        self.taken.as_slice()
    }

    /// Removes the next buffer, and moves the later bytes to the beginning.
    pub fn pass(&mut self, front: Front)
        requires { front.size ≤ length self.old.taken }
        ensures { self.new ≡ (cut_at front.size front.last self.old.taken).after }
    {
        remove_front(&mut self.taken, front.size);
        self.ended = front.last;
    }
}

/// Removes the first `count` bytes, and moves the remaining bytes to the beginning.
fn remove_front(bytes: &mut ArrayVec<u8, BUFFER_LIMIT>, count: usize)
    requires { count ≤ array_vec_len bytes.old }
    ensures { bytes.new.items ≡ drop count bytes.old.items }
{
    let size = bytes.len();
    bytes.as_mut_slice().copy_within(count..size, 0);
    bytes.truncate(size - count);
}

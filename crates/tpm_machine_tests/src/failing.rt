//! A reader and a writer in memory. Each transfers a few bytes at a time, and fails after a given
//! number of calls.

use std::io;
use std::io::{ErrorKind, Read, Write};

/// A reader of the bytes in `left`. It reads at most `size` bytes at a time, succeeds `reads`
/// times, and then fails.
#[derive(Drop)]
pub struct Source<'a> {
    pub left: &'a [u8],
    pub size: usize,
    pub reads: usize,
}

impl Read for Source<'_> {
    fn read(&mut self, buffer: &mut [u8]) -> io::Result<usize> {
        let Some(reads) = self.reads.checked_sub(1) else {
            return Err(ErrorKind::ConnectionReset.into());
        };
        let count = self.size.min(buffer.len()).min(self.left.len());
        let (piece, others) = self.left.split_at(count);
        buffer[..count].copy_from_slice(piece);
        self.left = others;
        self.reads = reads;
        Ok(count)
    }
}

/// A writer that stores what is written. It writes at most `size` bytes at a time, succeeds
/// `writes` times, and then fails.
#[derive(Drop)]
pub struct Sink {
    pub taken: Vec<u8>,
    pub size: usize,
    pub writes: usize,
}

impl Write for Sink {
    fn write(&mut self, piece: &[u8]) -> io::Result<usize> {
        let Some(writes) = self.writes.checked_sub(1) else {
            return Err(ErrorKind::BrokenPipe.into());
        };
        let count = self.size.min(piece.len());
        self.taken.extend_from_slice(&piece[..count])?;
        self.writes = writes;
        Ok(count)
    }

    fn flush(&mut self) -> io::Result<()> {
        Ok(())
    }
}

//! Wraps a reader or a writer and records whether it failed or ended, so that the caller can check
//! this afterwards.

ghost use Rattle.std.specs.Prelude.{◌≡◌, OnErr, OnOk, length, true};
ghost use Rattle.std.specs.Io.{ReadsAtMost, WritesAtMost};
ghost use Rattle.std.specs.Io.KnownBytes.{Appends, Keeps, ReadConsumes, WriteAppends};
ghost use Rattle.tpm_bytes.specs.Tap.{AppendsFront, after_read, after_write, device_of, first_marks, marks_of};

use std::io;
use std::io::{Read, Write};

/// The reader or writer inside a tap failed. The tap's marks record this.
#[derive(Clone, Copy, PartialEq, Eq)]
pub struct Failed;

/// A reader or a writer and its marks: whether it failed, whether it ended, the number of its
/// reads that returned bytes, and the buffer size of the last read.
#[derive(Drop)]
pub struct Tap<D> {
    device: D,
    failed: bool,
    ended: bool,
    reads: u64,
    room: usize,
}

impl<D> Tap<D> {
    pub fn new(device: D) -> Tap<D>
        ensures device { device_of result ≡ device }
        ensures marks { marks_of result ≡ first_marks }
    {
        Tap {
            device,
            failed: false,
            ended: false,
            reads: 0,
            room: 0,
        }
    }

    /// Whether the device returned an error, or accepted no bytes of a nonempty write.
    pub fn failed(&self) -> bool
        ensures { result ≡ (marks_of self.now).failed }
    {
        self.failed
    }

    /// Whether a read into a nonempty buffer returned no bytes.
    pub fn ended(&self) -> bool
        ensures { result ≡ (marks_of self.now).ended }
    {
        self.ended
    }

    /// The number of reads that returned bytes, up to 2^64 - 1.
    pub fn reads(&self) -> u64
        ensures { result ≡ (marks_of self.now).reads }
    {
        self.reads
    }

    /// The buffer size of the last read.
    pub fn room(&self) -> usize
        ensures { result ≡ (marks_of self.now).room }
    {
        self.room
    }

    pub fn into_inner(self) -> D
        ensures { result ≡ device_of self }
    {
        let Tap {
            device,
            failed: _,
            ended: _,
            reads: _,
            room: _,
        } = self;
        device
    }
}

impl<D: Read> Tap<D> {
    /// Reads from the device once.
    pub fn read(&mut self, buffer: &mut [u8]) -> io::Result<usize>
        ensures bound { ReadsAtMost result buffer.new }
        ensures bytes { ReadConsumes
            (D.remaining (device_of self.old)) (D.remaining (device_of self.new))
            result buffer.new }
        ensures marks { marks_of self.new
            ≡ after_read (marks_of self.old) result (length buffer.old) }
    {
        self.room = buffer.len();
        let outcome = self.device.read(buffer);
        match &outcome {
            Ok(0) => {
                if self.room != 0 {
                    self.ended = true;
                }
            }
            Ok(_) => self.reads = self.reads.saturating_add(1),
            Err(_) => self.failed = true,
        }
        outcome
    }
}

impl<D: Write> Tap<D> {
    /// Writes to the device once.
    pub fn write(&mut self, piece: &[u8]) -> io::Result<usize>
        ensures bound { WritesAtMost result piece.now }
        ensures bytes { WriteAppends
            (D.contents (device_of self.old)) (D.contents (device_of self.new))
            result piece.now }
        ensures marks { marks_of self.new
            ≡ after_write (marks_of self.old) result (length piece.now) }
    {
        let outcome = self.device.write(piece);
        match &outcome {
            Ok(0) => {
                if !piece.is_empty() {
                    self.failed = true;
                }
            }
            Ok(_) => {}
            Err(_) => self.failed = true,
        }
        outcome
    }

    /// Writes all of `text`, with as many writes as the device needs. On failure, the device
    /// received a prefix of `text` and nothing else.
    pub fn write_all(&mut self, text: &[u8]) -> Result<(), Failed>
        ensures sent { OnOk result (Appends (D.contents (device_of self.old))
            (D.contents (device_of self.new)) text.now) }
        ensures cut_off { OnErr result (AppendsFront (D.contents (device_of self.old))
            (D.contents (device_of self.new)) text.now) }
        ensures unmarked { OnOk result (marks_of self.new ≡ marks_of self.old) }
        ensures failed { OnErr result ((marks_of self.new).failed ≡ true) }
    {
        let mut left = text;
        while !left.is_empty() {
            match self.write(left) {
                Ok(0) => return Err(Failed),
                Ok(count) => left = &left[count..],
                Err(_) => return Err(Failed),
            }
        }
        Ok(())
    }

    /// Flushes the bytes that the device has buffered.
    pub fn flush(&mut self) -> Result<(), Failed>
        ensures kept { Keeps (D.contents (device_of self.old)) (D.contents (device_of self.new)) }
        ensures unmarked { OnOk result (marks_of self.new ≡ marks_of self.old) }
        ensures failed { OnErr result ((marks_of self.new).failed ≡ true) }
    {
        match self.device.flush() {
            Ok(()) => Ok(()),
            Err(_) => {
                self.failed = true;
                Err(Failed)
            }
        }
    }
}

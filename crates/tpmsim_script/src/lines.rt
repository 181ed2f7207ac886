//! Splits a text into lines, in memory whose size does not depend on the text.

ghost use Rattle.std.specs.Prelude.{◌≡◌, ◌≤◌, vec_len};
ghost use Rattle.tpmsim_script.specs.declared.lines.TheConstants.{CAPACITY, LINE_LIMIT};

use crate::answers::Answers;
use arrayvec::ArrayVec;
use std::alloc::{AllocError, Global};
use std::io::Read;
use tpm_bytes::{Failed, Tap};
use tpm_text::position_of;

/// The maximum size of a line, without the 0a at its end.
pub const LINE_LIMIT: usize = 65_536;

/// The maximum number of bytes for one read.
const CAPACITY: usize = 65_536;

/// The next line in the bytes that were read, or the reason why there is none.
#[derive(Clone, Copy, PartialEq, Eq)]
pub enum Next {
    /// A whole line, which [`Lines::line`] returns.
    Line,
    /// A line of more than [`LINE_LIMIT`] bytes, or the start of such a line.
    TooLong,
    /// The start of a line, or no bytes: more bytes have to be read.
    Incomplete,
    /// The end of the text: no line is left.
    End,
}

/// The line has more than [`LINE_LIMIT`] bytes.
#[derive(Clone, Copy, PartialEq, Eq)]
struct TooLong;

/// The lines of a text. Each line ends with 0a, which is optional for the last line. The size of
/// this type does not depend on the text.
#[derive(Drop)]
pub struct Lines {
    /// The line that was found last, or the part of the next line that has been read.
    line: ArrayVec<u8, 65536>,
    bytes: Vec<u8>,
    /// The bytes from offset `next` to `filled` were read and do not belong to a line yet.
    next: usize,
    filled: usize,
    /// Whether the last read returned no bytes.
    ended: bool,
    ghost capacity: { vec_len bytes ≡ CAPACITY },
    ghost in_order: { next ≤ filled },
    ghost within: { filled ≤ CAPACITY },
}

impl Lines {
    ghost use Rattle.std.specs.Prelude.{◌+◌, ◌<◌, ◌==◌, ◌++◌, [], false, true, take, drop, length};
    ghost use Rattle.std.specs.Prelude.{IfOk, OnOk, OnErr};
    ghost use Rattle.std.specs.Io.KnownBytes.{Consumes, Keeps};
    ghost use Rattle.tpm_bytes.specs.Tap.{device_of, marks_of};
    ghost use Rattle.tpmsim_script.specs.Answers.{backlog};
    ghost use Rattle.tpmsim_script.specs.Lines.{Agrees, Finds, IsUnbroken};
    ghost use Rattle.tpmsim_script.specs.Lines.{line_of, next_at, rest_of};

    /// The lines of a script that has not been read yet.
    pub fn new(alloc: Global) -> Result<Lines, AllocError>
        ensures { IfOk result (λ lines. (rest_of lines ≡ []) × (lines.ended ≡ false)) }
    {
        let bytes = vec![in alloc; 0u8; CAPACITY]?;
        Ok(Lines {
            line: ArrayVec::new(),
            bytes,
            next: 0,
            filled: 0,
            ended: false,
        })
    }

    /// The line that was found last, without its 0a.
    pub fn line(&self) -> &[u8]
        ensures line { result.now ≡ line_of self.now }
        ensures limit { length result.now ≤ LINE_LIMIT }
    {
        self.line.as_slice()
    }

    /// Drops the line that was found last.
    pub fn next(&mut self)
        ensures line { line_of self.new ≡ [] }
        ensures rest { rest_of self.new ≡ rest_of self.old }
        ensures ended { self.new.ended ≡ self.old.ended }
    {
        self.line.clear();
    }

    /// Moves the next bytes to the line, up to the end of the line. If the line does not end in the
    /// bytes that were read, moves all of them.
    pub fn find(&mut self) -> Next
        requires { IsUnbroken (line_of self.old) }
        ensures found { Finds self.old result self.new }
        ensures ended { self.new.ended ≡ self.old.ended }
    {
        match position_of(b'\n', &self.bytes[self.next..self.filled]) {
            Some(at) => match self.take(at, at + 1) {
                Ok(()) => Next::Line,
                Err(TooLong) => Next::TooLong,
            },
            None => match self.take_rest() {
                Ok(()) => self.stopped(),
                Err(TooLong) => Next::TooLong,
            },
        }
    }

    /// Consumes the next `past` bytes, and adds the first `count` of them to the line.
    fn take(&mut self, count: usize, past: usize) -> Result<(), TooLong>
        requires count { count ≤ past }
        requires past { past ≤ length (rest_of self.old) }
        ensures line { OnOk result
            (line_of self.new ≡ line_of self.old ++ take count (rest_of self.old)) }
        ensures rest { OnOk result (rest_of self.new ≡ drop past (rest_of self.old)) }
        ensures limit { OnOk result (length (line_of self.new) ≤ LINE_LIMIT) }
        ensures long { OnErr result (LINE_LIMIT < length (line_of self.old) + count) }
        ensures ended { self.new.ended ≡ self.old.ended }
    {
        let piece = &self.bytes[self.next..self.next + count];
        self.line.try_extend_from_slice(piece).map_err(|_| TooLong)?;
        self.next += past;
        Ok(())
    }

    /// Adds to the line all bytes that were read and do not belong to a line yet.
    fn take_rest(&mut self) -> Result<(), TooLong>
        ensures line { OnOk result (line_of self.new ≡ line_of self.old ++ rest_of self.old) }
        ensures rest { OnOk result (rest_of self.new ≡ []) }
        ensures limit { OnOk result (length (line_of self.new) ≤ LINE_LIMIT) }
        ensures long { OnErr result
            (LINE_LIMIT < length (line_of self.old) + length (rest_of self.old)) }
        ensures ended { self.new.ended ≡ self.old.ended }
    {
        let count = self.filled - self.next;
        self.take(count, count)
    }

    /// The result of [`Lines::find`] if the bytes that were read do not contain the end of a line.
    fn stopped(&self) -> Next
        ensures { result ≡ next_at self.now.ended (line_of self.now) }
    {
        if !self.ended {
            Next::Incomplete
        } else if self.line.is_empty() {
            Next::End
        } else {
            Next::Line
        }
    }

    /// Reads more bytes from the reader, in a single read. All output must have been written before
    /// the call, because the author of a script may need the output to write the next line.
    pub fn fill<R: Read>(&mut self, reader: &mut Tap<R>, _answers: &Answers) -> Result<(), Failed>
        requires rest { rest_of self.old ≡ [] }
        requires written { backlog _answers.now ≡ [] }
        ensures failed { OnErr result ((marks_of reader.new).failed ≡ true) }
        ensures line { line_of self.new ≡ line_of self.old }
        ensures more { OnOk result
            (Consumes (R.remaining (device_of reader.old)) (R.remaining (device_of reader.new))
            (rest_of self.new)) }
        ensures agrees { OnOk result (Agrees (R.remaining (device_of reader.new)) self.new) }
        ensures ended { OnOk result (self.new.ended ≡ (length (rest_of self.new) == 0)) }
        ensures none { OnErr result (rest_of self.new ≡ []) }
        ensures kept { OnErr result
            (Keeps (R.remaining (device_of reader.old)) (R.remaining (device_of reader.new))) }
    {
        self.next = 0;
        self.filled = 0;
        let Ok(count) = reader.read(&mut self.bytes) else {
            return Err(Failed);
        };
        self.filled = count;
        self.ended = count == 0;
        Ok(())
    }
}

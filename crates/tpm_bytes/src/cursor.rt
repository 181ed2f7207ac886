//! Reads bytes from the start of the input: a given number of bytes, a big-endian number, or a
//! sized buffer (TPM2B). A read that fails consumes nothing.

ghost use Rattle.std.specs.Prelude.{◌≡◌, ℕ, ◌==◌, List, length};
ghost use Rattle.std.specs.Int.{w8, w16, w32, w64};
ghost use Rattle.tpm_bytes.specs.Reading.{AreBytes, Reads, bytes_at, number_at, sized_at};

use std::marker::Model;

/// The fault of a read that needs more bytes than are left.
#[derive(Clone, Copy, PartialEq, Eq)]
pub struct Short;

/// The reason why a sized buffer could not be read.
#[derive(Clone, Copy, PartialEq, Eq)]
pub enum SizedFault {
    /// The size of the buffer is over the limit, whether or not bytes are missing.
    TooLong,
    /// The buffer's size field is truncated, or some of the buffer's bytes are missing.
    Short,
}

/// The unread rest of the input. Contracts represent it by the list of unread bytes.
#[derive(Drop)]
pub struct Cursor<'a> {
    left: &'a [u8],
}

impl<'a> Model for Cursor<'a> {
    ghost Value = { List ℕ };

    ghost view = { λ c. c.left.now };
}

impl<'a> Cursor<'a> {
    pub fn new(text: &'a [u8]) -> Cursor<'a>
        ensures value { result ≡ text.now }
        ensures bytes { AreBytes text.now }
    {
        Cursor { left: text }
    }

    /// Returns all unread bytes, which remain unread.
    pub fn rest(&self) -> &'a [u8]
        ensures { result.now ≡ self.now }
    {
        self.left
    }

    pub fn len(&self) -> usize
        ensures { result ≡ length self.now }
    {
        self.left.len()
    }

    pub fn is_empty(&self) -> bool
        ensures { result ≡ (length self.now == 0) }
    {
        self.left.is_empty()
    }

    /// Reads the next `count` bytes.
    pub fn take(&mut self, count: usize) -> Result<&'a [u8], Short>
        ensures { Reads (λ front. front.now) (bytes_at count self.old) self.old result self.new }
    {
        if self.left.len() < count {
            return Err(Short);
        }
        let (front, back) = self.left.split_at(count);
        self.left = back;
        Ok(front)
    }

    pub fn u8(&mut self) -> Result<u8, Short>
        ensures { Reads (λ n. n) (number_at w8 self.old) self.old result self.new }
    {
        let front = self.take(1)?;
        Ok(u8::from_be_bytes([front[0]]))
    }

    pub fn u16(&mut self) -> Result<u16, Short>
        ensures { Reads (λ n. n) (number_at w16 self.old) self.old result self.new }
    {
        let front = self.take(2)?;
        Ok(u16::from_be_bytes([front[0], front[1]]))
    }

    pub fn u32(&mut self) -> Result<u32, Short>
        ensures { Reads (λ n. n) (number_at w32 self.old) self.old result self.new }
    {
        let front = self.take(4)?;
        Ok(u32::from_be_bytes([front[0], front[1], front[2], front[3]]))
    }

    pub fn u64(&mut self) -> Result<u64, Short>
        ensures { Reads (λ n. n) (number_at w64 self.old) self.old result self.new }
    {
        let front = self.take(8)?;
        Ok(u64::from_be_bytes([
            front[0], front[1], front[2], front[3], front[4], front[5], front[6], front[7],
        ]))
    }

    /// Reads a sized buffer (TPM2B) of at most `limit` bytes: a two-byte size, then its bytes.
    pub fn sized(&mut self, limit: usize) -> Result<&'a [u8], SizedFault>
        ensures { Reads (λ bytes. bytes.now) (sized_at limit self.old) self.old result self.new }
    {
        let mut ahead = Cursor { left: self.left };
        let size = ahead.u16().map_err(|_| SizedFault::Short)? as usize;
        if size > limit {
            return Err(SizedFault::TooLong);
        }
        let bytes = ahead.take(size).map_err(|_| SizedFault::Short)?;
        *self = ahead;
        Ok(bytes)
    }
}

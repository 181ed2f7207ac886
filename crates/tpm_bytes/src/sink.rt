//! Writes bytes to a buffer of fixed capacity: big-endian numbers, and sized buffers (TPM2B). `put`
//! and its variants return an error and write nothing if the bytes do not fit. `append` and its
//! variants require that the bytes fit.

ghost use Rattle.std.specs.Prelude.{◌≡◌, ℕ, ◌+◌, ◌≤◌, ◌<◌, ◌^◌, List, [], ◌++◌, length};
ghost use Rattle.std.specs.Borrow.{sem};
ghost use Rattle.std.specs.Int.{w8, w16, w32, w64, to_be_bytes};
ghost use Rattle.tpm_bytes.specs.Writing.{Puts, PutsSized, sized_text};

use crate::copy::append;
use arrayvec::ArrayVec;
use std::marker::Model;

/// The fault of a write whose bytes do not fit.
#[derive(Clone, Copy, PartialEq, Eq)]
pub struct Full;

/// A buffer of at most `N` bytes. Contracts represent it by the bytes written so far.
#[derive(Drop)]
pub struct Sink<const N: usize> {
    bytes: ArrayVec<u8, N>,
}

impl<const N: usize> Model for Sink<N> {
    ghost Value = { List ℕ };

    ghost view = { λ s. s.bytes.items };
}

impl<const N: usize> Sink<N> {
    ghost use Rattle.tpm_bytes.specs.Lends.{lends_bytes};

    pub fn new() -> Sink<N>
        ensures { result ≡ [] }
    {
        Sink {
            bytes: ArrayVec::new(),
        }
    }

    pub fn len(&self) -> usize
        ensures value { result ≡ length self.now }
        ensures fits { result ≤ N }
    {
        self.bytes.len()
    }

    pub fn as_slice(&self) -> &[u8]
        ensures value { result.now ≡ self.now }
        ensures fits { length result.now ≤ N }
    {
        self.bytes.as_slice()
    }

    /// The bytes written so far, as a mutable slice.
    pub fn as_mut_slice(&mut self) -> &mut [u8]
        ensures* writes_back { sem 𝓛 (lends_bytes N.row self.entry result) }
        ensures value { result.now ≡ self.old }
        ensures fits { length self.old ≤ N }
    {
        self.bytes.as_mut_slice()
    }

    /// Removes all bytes written so far.
    pub fn clear(&mut self)
        ensures { self.new ≡ [] }
    {
        self.bytes.clear();
    }

    pub fn into_bytes(self) -> ArrayVec<u8, N>
        ensures value { result.items ≡ self.entry }
        ensures fits { length result.items ≤ N }
    {
        self.bytes
    }

    pub fn put(&mut self, bytes: &[u8]) -> Result<(), Full>
        ensures { Puts N bytes.now self.old result self.new }
    {
        self.bytes.try_extend_from_slice(bytes).map_err(|_| Full)
    }

    pub fn put_u8(&mut self, number: u8) -> Result<(), Full>
        ensures { Puts N (to_be_bytes w8 number) self.old result self.new }
    {
        self.put(&number.to_be_bytes())
    }

    pub fn put_u16(&mut self, number: u16) -> Result<(), Full>
        ensures { Puts N (to_be_bytes w16 number) self.old result self.new }
    {
        self.put(&number.to_be_bytes())
    }

    pub fn put_u32(&mut self, number: u32) -> Result<(), Full>
        ensures { Puts N (to_be_bytes w32 number) self.old result self.new }
    {
        self.put(&number.to_be_bytes())
    }

    pub fn put_u64(&mut self, number: u64) -> Result<(), Full>
        ensures { Puts N (to_be_bytes w64 number) self.old result self.new }
    {
        self.put(&number.to_be_bytes())
    }

    /// Writes a sized buffer: the size of `bytes` as two bytes, followed by `bytes`. More than
    /// 65,535 bytes never fit, because of the two-byte size.
    pub fn put_sized(&mut self, bytes: &[u8]) -> Result<(), Full>
        ensures { PutsSized N bytes.now self.old result self.new }
    {
        if bytes.len() > 0xffff || N - self.bytes.len() < 2 + bytes.len() {
            return Err(Full);
        }
        self.put_u16(bytes.len() as u16)?;
        self.put(bytes)
    }

    /// Appends these bytes. The sink must have room for them.
    pub fn append(&mut self, bytes: &[u8])
        requires { length self.old + length bytes.now ≤ N }
        ensures { self.new ≡ self.old ++ bytes.now }
    {
        append(&mut self.bytes, bytes);
    }

    pub fn append_u8(&mut self, number: u8)
        requires { length self.old + 1 ≤ N }
        ensures { self.new ≡ self.old ++ to_be_bytes w8 number }
    {
        self.append(&number.to_be_bytes());
    }

    pub fn append_u16(&mut self, number: u16)
        requires { length self.old + 2 ≤ N }
        ensures { self.new ≡ self.old ++ to_be_bytes w16 number }
    {
        self.append(&number.to_be_bytes());
    }

    pub fn append_u32(&mut self, number: u32)
        requires { length self.old + 4 ≤ N }
        ensures { self.new ≡ self.old ++ to_be_bytes w32 number }
    {
        self.append(&number.to_be_bytes());
    }

    pub fn append_u64(&mut self, number: u64)
        requires { length self.old + 8 ≤ N }
        ensures { self.new ≡ self.old ++ to_be_bytes w64 number }
    {
        self.append(&number.to_be_bytes());
    }

    /// Appends a sized buffer: the size of `bytes` as two bytes, followed by `bytes`. The sink must
    /// have room for it.
    pub fn append_sized(&mut self, bytes: &[u8])
        requires short { length bytes.now < 2 ^ 16 }
        requires room { length self.old + (2 + length bytes.now) ≤ N }
        ensures { self.new ≡ self.old ++ sized_text bytes.now }
    {
        self.append_u16(bytes.len() as u16);
        self.append(bytes);
    }
}

//! An owned copy of the bytes of a sized buffer (TPM2B). The type parameter `N` is the maximum
//! size.

ghost use Rattle.std.specs.Prelude.{◌≡◌, ◌≤◌, [], length};
ghost use Rattle.std.specs.Str.{bytes_eq};
ghost use Rattle.tpm_bytes.specs.Reading.{Reads};
ghost use Rattle.tpm_types_common.specs.Buffer.{buffer_at};

use crate::buffer::read_buffer;
use crate::rc::Rc;
use arrayvec::ArrayVec;
use std::marker::Model;
use tpm_bytes::{Cursor, copied};

/// The bytes of a sized buffer, at most `N` of them (TPM2B of TPM 2.0 Library, Part 2, section
/// 10.4). Contracts represent them by a list.
#[derive(Drop)]
pub struct Octets<const N: usize> {
    bytes: ArrayVec<u8, N>,
}

impl<const N: usize> Model for Octets<N> {
    ghost use Rattle.std.specs.Prelude.{ℕ, List};

    ghost Value = { List ℕ };

    ghost view = { λ o. o.bytes.items };
}

impl<const N: usize> Octets<N> {
    /// An empty buffer.
    pub fn empty() -> Octets<N>
        ensures { result ≡ [] }
    {
        Octets {
            bytes: ArrayVec::new(),
        }
    }

    /// A buffer that contains these bytes.
    pub fn of(bytes: &[u8]) -> Octets<N>
        requires { length bytes.now ≤ N }
        ensures { result ≡ bytes.now }
    {
        Octets {
            bytes: copied(bytes),
        }
    }

    /// Reads a sized buffer. Fails with SIZE if it is longer than `N` bytes, or else with
    /// INSUFFICIENT if it is truncated.
    pub fn read(text: &mut Cursor) -> Result<Octets<N>, Rc>
        ensures { Reads (λ octets. octets) (buffer_at N text.old) text.old result text.new }
    {
        Ok(Octets::of(read_buffer(text, N)?))
    }

    /// The bytes of the buffer.
    pub fn as_slice(&self) -> &[u8]
        ensures value { result.now ≡ self.now }
        ensures fits { length result.now ≤ N }
    {
        self.bytes.as_slice()
    }

    /// The number of bytes.
    pub fn len(&self) -> usize
        ensures value { result ≡ length self.now }
        ensures fits { result ≤ N }
    {
        self.bytes.len()
    }

    /// A copy of the buffer.
    pub fn copy(&self) -> Octets<N>
        ensures { result ≡ self.now }
    {
        Octets::of(self.bytes.as_slice())
    }

    /// Whether the buffer contains exactly these bytes.
    pub fn is_same(&self, bytes: &[u8]) -> bool
        ensures { result ≡ bytes_eq self.now bytes.now }
    {
        self.bytes.as_slice() == bytes
    }
}

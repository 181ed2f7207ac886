//! The trait of the single area that contains the data of all NV indices, and functions that move
//! bytes within an area.

ghost use Rattle.tpm_types_common.specs.Limits.{nv_space_limit};
ghost use Rattle.std.specs.Prelude.{◌≡◌, ◌≤◌, ◌+◌, ℕ, [], Bool, List, length, replicate, take};
ghost use Rattle.std.specs.Prelude.{OnErr, OnOk, true};
ghost use Rattle.tpm_nv.specs.Bytes.{closed_up, moved_down, moved_from_end, moved_to_end};
ghost use Rattle.tpm_nv.specs.Bytes.{bytes_with_gap, put_over};

use std::alloc::Global;
use tpm_bytes::NoMemory;

/// The data of all NV indices, one after another: at most [`NV_SPACE_LIMIT`] bytes.
pub trait Area: Drop + Sized {
    /// The bytes in the area.
    ghost bytes: { Self → List ℕ };

    /// Whether an allocation can fail.
    ghost can_refuse: { Bool };

    /// An empty area; nothing is allocated.
    fn new(alloc: Global) -> Self
        ensures { bytes result ≡ [] };

    /// The bytes in the area.
    fn as_slice(&self) -> &[u8]
        ensures { result.now ≡ bytes self.now };

    /// Overwrites the bytes at an offset with `piece`.
    fn put(&mut self, start: usize, piece: &[u8])
        requires { start + length piece.now ≤ length (bytes self.old) }
        ensures { bytes self.new ≡ put_over start piece.now (bytes self.old) };

    /// Sets `size` bytes at an offset to the same value.
    fn fill(&mut self, start: usize, size: usize, byte: u8)
        requires { start + size ≤ length (bytes self.old) }
        ensures { bytes self.new ≡ put_over start (replicate size byte) (bytes self.old) };

    /// Inserts `size` zeros at an offset.
    fn open(&mut self, start: usize, size: usize) -> Result<(), NoMemory>
        requires inside { start ≤ length (bytes self.old) }
        requires fits { length (bytes self.old) + size ≤ nv_space_limit }
        ensures opened { OnOk result (bytes self.new ≡ bytes_with_gap start size (bytes self.old)) }
        ensures unchanged { OnErr result (bytes self.new ≡ bytes self.old) }
        ensures refused { OnErr result (can_refuse ≡ true) };

    /// Removes `size` bytes at an offset.
    fn close_up(&mut self, start: usize, size: usize)
        requires { start + size ≤ length (bytes self.old) }
        ensures { bytes self.new ≡ closed_up start size (bytes self.old) };

    /// Copies `size` bytes from an offset to a lower offset.
    fn move_down(&mut self, start: usize, size: usize, place: usize)
        requires inside { start + size ≤ length (bytes self.old) }
        requires lower { place ≤ start }
        ensures { bytes self.new ≡ moved_down start size place (bytes self.old) };

    /// Truncates the area to `size` bytes.
    fn truncate(&mut self, size: usize)
        requires { size ≤ length (bytes self.old) }
        ensures { bytes self.new ≡ take size (bytes self.old) };
}

/// Overwrites the bytes at an offset with `piece`.
pub(crate) fn put_piece(bytes: &mut [u8], start: usize, piece: &[u8])
    requires { start + length piece.now ≤ length bytes.old }
    ensures { bytes.new ≡ put_over start piece.now bytes.old }
{
    bytes[start..start + piece.len()].copy_from_slice(piece);
}

/// Sets `size` bytes at an offset to the same value.
pub(crate) fn fill_piece(bytes: &mut [u8], start: usize, size: usize, byte: u8)
    requires { start + size ≤ length bytes.old }
    ensures { bytes.new ≡ put_over start (replicate size byte) bytes.old }
{
    bytes[start..start + size].fill(byte);
}

/// Moves `size` bytes from the end to an offset.
#[tactic(auto, unfolding(crate::specs::Bytes::moved_from_end))]
pub(crate) fn move_from_end(bytes: &mut [u8], start: usize, size: usize)
    requires { start + size ≤ length bytes.old }
    ensures { bytes.new ≡ moved_from_end start size bytes.old }
{
    bytes[start..].rotate_right(size);
}

/// Moves `size` bytes from an offset to the end.
pub(crate) fn move_to_end(bytes: &mut [u8], start: usize, size: usize)
    requires { start + size ≤ length bytes.old }
    ensures { bytes.new ≡ moved_to_end start size bytes.old }
{
    bytes[start..].rotate_left(size);
}

/// Copies `size` bytes from an offset to a lower offset.
#[tactic(auto, using(crate::proofs::ByteLaws::moved_by_copying))]
pub(crate) fn copy_down(bytes: &mut [u8], start: usize, size: usize, place: usize)
    requires inside { start + size ≤ length bytes.old }
    requires lower { place ≤ start }
    ensures { bytes.new ≡ moved_down start size place bytes.old }
{
    bytes.copy_within(start..start + size, place);
}

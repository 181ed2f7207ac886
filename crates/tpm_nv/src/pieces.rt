//! Changes the bytes of one index in the shared data area.

ghost use Rattle.tpm_types_common.specs.Limits.{nv_space_limit};
ghost use Rattle.std.specs.Prelude.{◌≡◌, ◌≤◌, ◌+◌, ◌-◌, ◌++◌, drop, length, replicate, take};
ghost use Rattle.std.specs.Prelude.{OnErr, OnOk, true};
ghost use Rattle.tpm_nv.specs.Bytes.{filled_bytes, piece_of, put_over};

use crate::area::Area;
use tpm_bytes::NoMemory;

/// The piece of an index: the part of the shared data area that contains its bytes.
#[derive(Clone, Copy)]
pub(crate) struct Piece {
    pub(crate) start: usize,
    pub(crate) size: usize,
    pub(crate) is_written: bool,
}

/// The bytes of this size at this offset.
pub(crate) fn piece_at(bytes: &[u8], start: usize, size: usize) -> &[u8]
    requires { start + size ≤ length bytes.now }
    ensures { result.now ≡ piece_of start size bytes.now }
{
    &bytes[start..start + size]
}

/// Inserts `size` bytes at an offset: the given data, padded with zeros.
#[tactic(auto, using(crate::proofs::Cuts::put_opened))]
pub(crate) fn put_between<R: Area>(
    area: &mut R,
    start: usize,
    size: usize,
    bytes: &[u8],
) -> Result<(), NoMemory>
    requires inside { start ≤ length (R.bytes area.old) }
    requires fits { length (R.bytes area.old) + size ≤ nv_space_limit }
    requires within { length bytes.now ≤ size }
    ensures put { OnOk result (R.bytes area.new ≡ take start (R.bytes area.old)
        ++ ((bytes.now ++ replicate (size - length bytes.now) 0)
        ++ drop start (R.bytes area.old))) }
    ensures unchanged { OnErr result (R.bytes area.new ≡ R.bytes area.old) }
    ensures refused { OnErr result (R.can_refuse ≡ true) }
{
    area.open(start, size)?;
    area.put(start, bytes);
    Ok(())
}

/// Writes bytes at an offset in the piece of an index. If the index is not written yet, first fills
/// the piece with the byte `first`.
#[tactic(auto, using(crate::proofs::Cuts::length_put, crate::proofs::KeptLaws::length_filled))]
pub(crate) fn put_bytes<R: Area>(area: &mut R, piece: Piece, first: u8, offset: usize, bytes: &[u8])
    requires few { length (R.bytes area.old) ≤ nv_space_limit }
    requires inside { piece.start + piece.size ≤ length (R.bytes area.old) }
    requires within { offset + length bytes.now ≤ piece.size }
    ensures { R.bytes area.new ≡ put_over (piece.start + offset) bytes.now
        (filled_bytes piece.is_written piece.start piece.size first (R.bytes area.old)) }
{
    if !piece.is_written {
        area.fill(piece.start, piece.size, first);
    }
    area.put(piece.start + offset, bytes);
}

//! The effect of TPM2_Clear on stored NV indices: which heads and bytes remain.

ghost use Rattle.tpm_types_common.specs.Limits.{nv_space_limit};
ghost use Rattle.std.specs.Prelude.{◌≡◌, ◌≤◌, ◌+◌, ◌++◌, drop, length, take, if◌then◌else◌};
ghost use Rattle.tpm_nv.specs.Bytes.{piece_of};
ghost use Rattle.tpm_nv.specs.Head.{kept_bytes, kept_piece, size_of, stays, total};

use crate::area::Area;
use crate::head::Head;
use tpm_containers::Choice;
use tpm_types_nv::NvAttribute;

/// Selects the indices that the platform defined.
pub(crate) struct PlatformIndices;

impl Choice<Head> for PlatformIndices {
    ghost use Rattle.tpm_nv.specs.Head.{stays as head_stays};

    ghost stays = { head_stays };

    fn stays(head: &Head) -> bool {
        head.public.attributes.has(NvAttribute::PlatformCreate)
    }
}

/// If the index survives, moves its bytes down, to the end of the bytes kept so far. Returns the
/// new number of kept bytes.
fn keep_piece<R: Area>(area: &mut R, head: &Head, start: usize, kept: usize) -> usize
    requires few { length (R.bytes area.old) ≤ nv_space_limit }
    requires inside { start + size_of head.now ≤ length (R.bytes area.old) }
    requires lower { kept ≤ start }
    ensures few { result ≤ start + size_of head.now }
    ensures len { length (R.bytes area.new) ≡ length (R.bytes area.old) }
    ensures kept { take result (R.bytes area.new) ≡ take kept (R.bytes area.old)
        ++ kept_piece head.now (piece_of start (size_of head.now) (R.bytes area.old)) }
    ensures left { drop (start + size_of head.now) (R.bytes area.new)
        ≡ drop (start + size_of head.now) (R.bytes area.old) }
{
    if !PlatformIndices::stays(head) {
        return kept;
    }
    let size = usize::from(head.public.data_size);
    area.move_down(start, size, kept);
    kept + size
}

/// Keeps the bytes of the indices that survive, and removes all other bytes.
pub(crate) fn keep_bytes<R: Area>(area: &mut R, heads: &[(u32, Head)])
    requires whole { length (R.bytes area.old) ≡ total heads.now }
    requires few { total heads.now ≤ nv_space_limit }
    ensures { R.bytes area.new ≡ kept_bytes heads.now (R.bytes area.old) }
{
    let mut kept = 0;
    let mut start = 0;
    for (_, head) in heads {
        kept = keep_piece(area, head, start, kept);
        start += usize::from(head.public.data_size);
    }
    area.truncate(kept);
}

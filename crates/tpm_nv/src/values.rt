//! Values derived from an index's attributes, size and data.

ghost use Rattle.tpm_types_common.specs.Limits.{nv_index_limit, nv_space_limit};
ghost use Rattle.std.specs.Prelude.{◌≡◌, ◌==◌, ◌<◌, ◌≤◌, ◌+◌, ◌||◌, ◌&&◌, not, nat_lt, nat_le};
ghost use Rattle.std.specs.Prelude.{◌++◌, length};
ghost use Rattle.std.specs.Int.{from_be_bytes, w64};
ghost use Rattle.tpm_mac.specs.Digest.{digest_size, hash_of};
ghost use Rattle.tpm_types_nv.specs.NvAttributes.{has};
ghost use Rattle.tpm_types_nv.specs.declared.nv_attributes.NvAttribute.TheVariants as attributes;

use tpm_bytes::Cursor;
use tpm_mac::{Digest, HashAlg, digest_parts};
use tpm_types_common::{NV_INDEX_LIMIT, NV_SPACE_LIMIT};
use tpm_types_nv::{NvAttribute, NvAttributes};

/// Whether an index with these attributes may be locked against writing.
pub(crate) fn is_write_lockable(of: NvAttributes) -> bool
    ensures { result ≡ (has of attributes.WriteDefine || has of attributes.WriteStClear) }
{
    of.has(NvAttribute::WriteDefine) || of.has(NvAttribute::WriteStClear)
}

/// Whether the index has WRITEALL and a write of `count` bytes covers only part of its data.
pub(crate) fn is_part(of: NvAttributes, count: usize, size: usize) -> bool
    ensures { result ≡ (has of attributes.WriteAll && not (count == size)) }
{
    of.has(NvAttribute::WriteAll) && count != size
}

/// Whether there is room for an index of this size in addition to `count` indices with `bytes`
/// bytes of data.
pub(crate) fn is_room(count: usize, bytes: usize, size: usize) -> bool
    requires few { bytes ≤ nv_space_limit }
    requires small { size < 65536 }
    ensures { result ≡ (nat_lt count nv_index_limit && nat_le (bytes + size) nv_space_limit) }
{
    count < NV_INDEX_LIMIT && bytes + size <= NV_SPACE_LIMIT
}

/// The number encoded by eight bytes, in big-endian order.
pub(crate) fn number_of(bytes: &[u8]) -> u64
    ensures { length bytes.now ≡ 8 → result ≡ from_be_bytes w64 bytes.now }
{
    match Cursor::new(bytes).u64() {
        Ok(number) => number,
        Err(_) => 0,
    }
}

/// The digest of the concatenation of two parts.
pub(crate) fn digest_of(name_alg: HashAlg, first: &[u8], second: &[u8]) -> Digest
    ensures value { result.items ≡ hash_of name_alg (first.now ++ second.now) }
    ensures size { length result.items ≡ digest_size name_alg }
{
    digest_parts(name_alg, &[first, second])
}

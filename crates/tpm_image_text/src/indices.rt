//! Reads and writes the NV indices in an image.

ghost use Rattle.tpm_image_text.specs.Sizes.{entries_size, index_size, indices_size, text_size};
ghost use Rattle.tpm_types_common.specs.Limits.{nv_index_limit, nv_space_limit};
ghost use Rattle.std.specs.Prelude.{◌≡◌, ◌≤◌, ◌<◌, ◌+◌, ◌*◌, ◌++◌, ◌⊎◌, [], IfOk, length, true};
ghost use Rattle.std.specs.List.{flat_map};
ghost use Rattle.tpm_bytes.specs.Many.{many_at};
ghost use Rattle.tpm_bytes.specs.Reading.{Reads};
ghost use Rattle.tpm_image_text.specs.Body.{ascend_from, data_size, have_space, index_in, index_text, indices_in, indices_text};
ghost use Rattle.tpm_image_text.specs.Fields.{in_body, passing};
ghost use Rattle.tpm_image_text.specs.Filling.{AllBelow, Appends, Fills};
ghost use Rattle.tpm_image_text.specs.Version.{space_limit};
ghost use Rattle.tpm_nv.specs.Definition.{has_type_size};
ghost use Rattle.tpm_nv.specs.Head.{index_with, indices_of, total};
ghost use Rattle.tpm_nv.specs.Index.{data_bytes};
ghost use Rattle.tpm_types_nv.specs.NvPublic.{IsNvPublic, nv_public_at};
ghost use Rattle.tpm_types_common.specs.Filled.{filled_by};

use crate::fault::{FillFault, Malformed};
use crate::fields::{Text, read_auth_value, read_sized, read_u16, write_sized, write_u16};
use crate::version::Version;
use tpm_bytes::Cursor;
use tpm_nv::{Head, Indices, RestoreFault, has_type_size};
use tpm_types_common::{AuthValue, NV_DATA_LIMIT};
use tpm_types_nv::{NvAttribute, NvPublic};

/// One NV index, as an image stores it.
#[derive(Drop)]
struct Index<'a> {
    public: NvPublic,
    auth_value: AuthValue,
    bytes: &'a [u8],
}

/// The size of an index's data, which is 0 until the index has WRITTEN set.
fn data_size(public: &NvPublic) -> usize
    ensures { result ≡ data_size public.now }
{
    if public.attributes.has(NvAttribute::Written) {
        usize::from(public.data_size)
    } else {
        0
    }
}

/// Reads the public area of an index from a sized buffer.
fn read_public(text: &mut Cursor) -> Result<NvPublic, Malformed>
    ensures exact { Reads (λ public. public) (in_body (filled_by nv_public_at) text.old) text.old
        result text.new }
    ensures is_public { IfOk result IsNvPublic }
{
    match NvPublic::read_sized(text) {
        Ok(public) => Ok(public),
        Err(_) => Err(Malformed),
    }
}

/// Reads an NV index: its public area, its authorization value, and its data.
#[tactic(auto, unfolding(crate::specs::Body::index_in))]
fn read_index<'a>(text: &mut Cursor<'a>) -> Result<Index<'a>, Malformed>
    ensures exact { Reads
        (λ index. (
          index.public.nv_index.number,
          record {
            public = index.public;
            auth_value = index.auth_value;
            bytes = index.bytes.now;
          },
        ))
        (index_in text.old) text.old result text.new }
    ensures is_public { IfOk result (λ index. IsNvPublic index.public) }
    ensures sized { IfOk result (λ index. has_type_size index.public ≡ true) }
    ensures whole { IfOk result (λ index. length index.bytes.now ≡ data_size index.public) }
{
    let mut ahead = Cursor::new(text.rest());
    let public = read_public(&mut ahead)?;
    let auth_value = read_auth_value(&mut ahead)?;
    let bytes = read_sized(&mut ahead, NV_DATA_LIMIT)?;
    if !has_type_size(&public) || bytes.len() != data_size(&public) {
        return Err(Malformed);
    }
    *text = ahead;
    Ok(Index {
        public,
        auth_value,
        bytes,
    })
}

/// Reads an index and adds it to the others, if it fits into the NV memory. Handles are stored in
/// ascending order: the handle of the index must be at least `lowest`. Returns the lowest handle
/// that the next index may have.
#[tactic(auto, using(crate::proofs::Appending::appended, crate::proofs::IndicesLaws::no_space))]
fn add_index<N: Indices>(indices: &mut N, lowest: u64, text: &mut Cursor) -> Result<u64, FillFault>
    requires below { AllBelow lowest (N.contents indices.old).indices }
    requires room { length (N.contents indices.old).indices < nv_index_limit }
    ensures added { Appends N.can_refuse (index_in text.old) lowest
        (λ e. (e.0 < lowest)
        ⊎ (nv_space_limit < data_bytes (N.contents indices.old) + e.1.public.data_size))
        (N.contents indices.old).indices result (N.contents indices.new).indices text.new }
    ensures count { (N.contents indices.new).max_count ≡ (N.contents indices.old).max_count }
{
    let Ok(index) = read_index(text) else {
        return Err(FillFault::Malformed);
    };
    let number = u64::from(index.public.nv_index.number);
    if number < lowest {
        return Err(FillFault::Malformed);
    }
    match indices.restore(index.public, index.auth_value, index.bytes) {
        Ok(()) => Ok(number + 1),
        Err(RestoreFault::Public | RestoreFault::DataSize | RestoreFault::Space) => {
            Err(FillFault::Malformed)
        }
        Err(RestoreFault::Defined | RestoreFault::NoMemory) => Err(FillFault::NoMemory),
    }
}

/// Reads `count` indices. Each must have a higher handle than the index before it, and the total
/// size of their data must be within the version's limit.
fn add_indices<N: Indices>(
    version: Version,
    indices: &mut N,
    count: u16,
    text: &mut Cursor,
) -> Result<(), FillFault>
    requires none { (N.contents indices.old).indices ≡ [] }
    requires few { count ≤ nv_index_limit }
    ensures filled { Fills N.can_refuse
        (passing (have_space (space_limit version))
        (passing (ascend_from 0) (many_at index_in count)) text.old)
        (N.contents indices.new).indices result text.new }
    ensures count { (N.contents indices.new).max_count ≡ (N.contents indices.old).max_count }
{
    let mut lowest = 0;
    for _ in 0..count {
        lowest = add_index(indices, lowest, text)?;
    }
    indices.read_sizes();
    if indices.bytes().len() > version.space_limit() {
        return Err(FillFault::Malformed);
    }
    Ok(())
}

/// Reads the NV indices, within the limits of a version, into a device that has no NV indices yet.
/// Does not change the largest value that an NV counter ever had.
#[tactic(auto, unfolding(crate::specs::Body::indices_in))]
pub fn read_indices<N: Indices>(
    version: Version,
    indices: &mut N,
    text: &mut Cursor,
) -> Result<(), FillFault>
    requires { (N.contents indices.old).indices ≡ [] }
    ensures filled { Fills N.can_refuse (indices_in version text.old)
        (N.contents indices.new).indices result text.new }
    ensures count { (N.contents indices.new).max_count ≡ (N.contents indices.old).max_count }
{
    let Ok(count) = read_u16(text) else {
        return Err(FillFault::Malformed);
    };
    if usize::from(count) > version.index_limit() {
        return Err(FillFault::Malformed);
    }
    add_indices(version, indices, count, text)
}

/// Writes an NV index with the given data.
#[tactic(auto, unfolding(crate::specs::Body::index_text))]
fn write_index(entry: &(u32, Head), bytes: &[u8], text: &mut Text)
    requires few { length bytes.now ≤ nv_space_limit }
    requires room { length text.old + (index_size + length bytes.now) ≤ text_size }
    ensures written { text.new ≡ text.old
        ++ index_text (entry.now.0, index_with entry.now.1 bytes.now) }
    ensures small { length text.new ≤ length text.old + (index_size + length bytes.now) }
{
    let head = &entry.1;
    write_sized(head.public.text().as_slice(), 46, text);
    write_sized(head.auth_value.as_slice(), 32, text);
    if head.public.attributes.has(NvAttribute::Written) {
        write_sized(bytes, bytes.len(), text);
    } else {
        write_sized(&[], 0, text);
    }
}

/// Writes the NV indices with these heads, one after another. Their data are in `area`.
fn write_heads(heads: &[(u32, Head)], area: &[u8], text: &mut Text)
    requires whole { length area.now ≡ total heads.now }
    requires few { length heads.now ≤ nv_index_limit }
    requires small { length area.now ≤ nv_space_limit }
    requires room { length text.old + entries_size ≤ text_size }
    ensures written { text.new ≡ text.old ++ flat_map index_text (indices_of heads.now area.now) }
    ensures small { length text.new ≤ length text.old + entries_size }
{
    let mut left = area;
    for entry in heads {
        let (bytes, others) = left.split_at(usize::from(entry.1.public.data_size));
        write_index(entry, bytes, text);
        left = others;
    }
}

/// Writes the NV indices.
#[tactic(auto, unfolding(crate::specs::Body::indices_text), using(crate::proofs::IndicesLaws::heads_long))]
pub fn write_indices<N: Indices>(indices: &N, text: &mut Text)
    requires { length text.old + indices_size ≤ text_size }
    ensures written { text.new ≡ text.old ++ indices_text (N.contents indices.now).indices }
    ensures small { length text.new ≤ length text.old + indices_size }
{
    indices.read_sizes();
    let heads = indices.heads();
    write_u16(heads.len() as u16, text);
    write_heads(heads, indices.bytes(), text);
}

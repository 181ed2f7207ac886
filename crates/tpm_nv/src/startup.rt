//! The effect of a TPM2_Startup with CLEAR on the attributes of all NV indices (TPM 2.0 Library,
//! Part 3, section 9.3).

ghost use Rattle.std.specs.Prelude.{◌≡◌, ◌<◌, ℕ, Some, length, map, slice_index_or};
ghost use Rattle.tpm_containers.specs.SortedMap.{Ascends, at_key, changed_key};
ghost use Rattle.tpm_nv.specs.Head.{started_head, with_attributes};
ghost use Rattle.tpm_nv.specs.Startup.{kept_written, started_attributes, unlocked};
ghost use Rattle.tpm_nv.specs.declared.head.Head.{Head};

use crate::head::Head;
use crate::heads::set_attributes;
use tpm_containers::SortedMap;
use tpm_types_common::NV_INDEX_LIMIT;
use tpm_types_nv::{NvAttribute, NvAttributes};

/// The attributes, with WRITTEN cleared if the index has CLEAR_STCLEAR.
fn kept_written(of: NvAttributes) -> NvAttributes
    ensures { result ≡ kept_written of }
{
    if of.has(NvAttribute::ClearStClear) {
        of.without(NvAttribute::Written)
    } else {
        of
    }
}

/// The attributes after clearing the locks that a startup removes.
fn unlocked(of: NvAttributes) -> NvAttributes
    ensures { result ≡ unlocked of }
{
    let readable = of.without(NvAttribute::ReadLocked);
    if of.has(NvAttribute::WriteDefine) && of.has(NvAttribute::Written) {
        readable
    } else {
        readable.without(NvAttribute::WriteLocked)
    }
}

/// The attributes of an index after a startup with CLEAR.
fn started_attributes(of: NvAttributes) -> NvAttributes
    ensures { result ≡ started_attributes of }
{
    unlocked(kept_written(of))
}

/// The key of this entry, and the attributes of its NV index.
fn entry_at(entries: &[(u32, Head)], place: usize) -> (u32, NvAttributes)
    requires { place < length entries.now }
    ensures { (e : ℕ × Head) → slice_index_or entries.now place e ≡ e
        → result ≡ (e.0, e.1.public.attributes) }
{
    let entry = &entries[place];
    (entry.0, entry.1.public.attributes)
}

/// Applies the effect of a startup with CLEAR to all heads.
pub(crate) fn start_heads<H: SortedMap<Head, NV_INDEX_LIMIT>>(heads: &mut H)
    requires { Ascends (H.entries heads.old) }
    ensures { H.entries heads.new ≡ map (λ e. (e.0, started_head e.1)) (H.entries heads.old) }
{
    for place in 0..heads.len() {
        let entry = entry_at(heads.as_slice(), place);
        set_attributes(heads, entry.0, started_attributes(entry.1));
    }
}

//! Functions that search or change the heads of NV indices: the indices without their data.

ghost use Rattle.tpm_types_common.specs.Limits.{nv_index_limit, nv_space_limit};
ghost use Rattle.std.specs.Prelude.{◌≡◌, ◌<◌, ◌≤◌, ℕ, IfNone, IfSome, None, OnErr, OnOk, Some, length};
ghost use Rattle.std.specs.Prelude.{true};
ghost use Rattle.tpm_containers.specs.SortedMap.{Ascends, at_key, changed_key, with_key};
ghost use Rattle.tpm_nv.specs.Head.{start_of, total, with_attributes};
ghost use Rattle.tpm_nv.specs.declared.head.Head.{Head};
ghost use Rattle.tpm_types_common.specs.AuthValue.{IsAuthValue};

use crate::head::Head;
use crate::place::Found;
use tpm_bytes::NoMemory;
use tpm_containers::{KeyFault, SortedMap};
use tpm_types_common::{AuthValue, NV_INDEX_LIMIT};
use tpm_types_nv::NvAttributes;

/// The offset in the shared data area at which the bytes of the index with this key begin, or would
/// begin if the index existed.
pub(crate) fn start_of(heads: &[(u32, Head)], key: u32) -> usize
    requires { total heads.now ≤ nv_space_limit }
    ensures { result ≡ start_of heads.now key }
{
    let mut start = 0;
    for (other, head) in heads {
        if key <= *other {
            return start;
        }
        start += usize::from(head.public.data_size);
    }
    start
}

/// Finds the head with this key, and the offset of the index's bytes in the shared data area, in
/// one pass.
pub(crate) fn found_at(heads: &[(u32, Head)], key: u32) -> Option<Found<'_>>
    requires ascends { Ascends heads.now }
    requires small { total heads.now ≤ nv_space_limit }
    ensures absent { IfNone result (at_key heads.now key ≡ None) }
    ensures there { IfSome result (λ found. (at_key heads.now key ≡ Some found.head.now)
        × (found.start ≡ start_of heads.now key)) }
{
    let mut start = 0;
    for (other, head) in heads {
        if key <= *other {
            return if key == *other {
                Some(Found { head, start })
            } else {
                None
            };
        }
        start += usize::from(head.public.data_size);
    }
    None
}

/// Replaces the attributes of the index with this key.
pub(crate) fn set_attributes<H: SortedMap<Head, NV_INDEX_LIMIT>>(
    heads: &mut H,
    key: u32,
    attributes: NvAttributes,
)
    ensures { (head : Head) → at_key (H.entries heads.old) key ≡ Some head
        → H.entries heads.new
        ≡ changed_key (H.entries heads.old) key (with_attributes head attributes) }
{
    if let Some(head) = heads.get_mut(key) {
        head.public.attributes = attributes;
    }
}

/// Replaces the authorization value of the index with this key.
pub(crate) fn set_auth_value<H: SortedMap<Head, NV_INDEX_LIMIT>>(
    heads: &mut H,
    key: u32,
    value: AuthValue,
)
    ensures { (head : Head) → at_key (H.entries heads.old) key ≡ Some head
        → H.entries heads.new
        ≡ changed_key (H.entries heads.old) key (record head { auth_value = value }) }
{
    if let Some(head) = heads.get_mut(key) {
        head.auth_value = value;
    }
}

/// States the bounds that the type of an authorization value guarantees. This function is only a
/// proof: it has no effect at run time.
pub(crate) fn auth_value_fits(value: &AuthValue)
    ensures { IsAuthValue value.now }
{
    let _ = value.as_slice();
}

/// Inserts a head with this key, which must be free.
pub(crate) fn put_head<H: SortedMap<Head, NV_INDEX_LIMIT>>(
    heads: &mut H,
    key: u32,
    head: Head,
) -> Result<(), NoMemory>
    requires free { at_key (H.entries heads.old) key ≡ None }
    requires room { length (H.entries heads.old) < nv_index_limit }
    ensures put { OnOk result (H.entries heads.new ≡ with_key (H.entries heads.old) key head) }
    ensures unchanged { OnErr result (H.entries heads.new ≡ H.entries heads.old) }
    ensures refused { OnErr result (H.can_refuse ≡ true) }
{
    match heads.insert(key, head) {
        Ok(()) => Ok(()),
        Err(KeyFault::Taken | KeyFault::Full | KeyFault::NoMemory) => Err(NoMemory),
    }
}

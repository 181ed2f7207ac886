//! Checks the public area and authorization value of a new NV index (TPM 2.0 Library, Part 3,
//! section 31.3).

ghost use Rattle.std.specs.Prelude.{◌≡◌, ◌==◌, ◌&&◌, if◌then◌else◌, OnOk, false, true};
ghost use Rattle.std.specs.List.{list_any};
ghost use Rattle.tpm_nv.specs.Definition.{index_attribute_conflicts, definition_passes, has_one, has_type_size, read_attributes, undefinable_attributes, write_attributes};
ghost use Rattle.tpm_types_nv.specs.NvAttributes.{has};
ghost use Rattle.tpm_types_nv.specs.declared.nv_attributes.NvAttribute.TheVariants as attribute;

use tpm_types_common::{NV_DATA_LIMIT, is_policy_size};
use tpm_types_nv::{NvAttribute, NvAttributes, NvPublic, NvType};

/// The reason why the definition of an index is refused.
#[derive(Clone, Copy, PartialEq, Eq)]
pub enum DefinitionFault {
    /// The authorization value is longer than a nameAlg digest.
    AuthValueSize,
    /// authPolicy is neither empty nor as long as a nameAlg digest.
    AuthPolicySize,
    /// An attribute is set that a definition may not set, or the attributes contradict each other.
    Attributes,
    /// The size is not allowed for an index of this type.
    DataSize,
}

/// Whether an attribute is set that a definition may not set, because it describes the index's
/// state or is not supported.
fn is_undefinable(attributes: NvAttributes) -> bool
    ensures { result ≡ has_one attributes undefinable_attributes }
{
    attributes.has(NvAttribute::Written)
        || attributes.has(NvAttribute::ReadLocked)
        || attributes.has(NvAttribute::WriteLocked)
        || attributes.has(NvAttribute::PolicyDelete)
        || attributes.has(NvAttribute::GlobalLock)
        || attributes.has(NvAttribute::Orderly)
}

/// Whether the attributes allow anybody to write the index.
fn has_writer(attributes: NvAttributes) -> bool
    ensures { result ≡ has_one attributes write_attributes }
{
    attributes.has(NvAttribute::PpWrite)
        || attributes.has(NvAttribute::OwnerWrite)
        || attributes.has(NvAttribute::AuthWrite)
        || attributes.has(NvAttribute::PolicyWrite)
}

/// Whether the attributes allow anybody to read the index.
fn has_reader(attributes: NvAttributes) -> bool
    ensures { result ≡ has_one attributes read_attributes }
{
    attributes.has(NvAttribute::PpRead)
        || attributes.has(NvAttribute::OwnerRead)
        || attributes.has(NvAttribute::AuthRead)
        || attributes.has(NvAttribute::PolicyRead)
}

fn has_attribute_conflict(by_platform: bool, attributes: NvAttributes) -> bool
    ensures { result
        ≡ list_any (λ wrong. wrong) (index_attribute_conflicts by_platform attributes) }
{
    attributes.index_type().is_none()
        || is_undefinable(attributes)
        || !has_writer(attributes)
        || !has_reader(attributes)
        || attributes.is_of(NvType::Counter) && attributes.has(NvAttribute::ClearStClear)
        || attributes.has(NvAttribute::PlatformCreate) != by_platform
}

/// Whether the type of the index allows its size.
pub fn has_type_size(public: &NvPublic) -> bool
    ensures { result ≡ has_type_size public.now }
{
    let size = usize::from(public.data_size);
    match public.attributes.index_type() {
        Some(NvType::Ordinary) => size <= NV_DATA_LIMIT,
        Some(NvType::Counter | NvType::Bits) => size == 8,
        Some(NvType::Extend) => size == public.name_alg.size(),
        None => false,
    }
}

/// Whether the type of the index allows its size, and the data has this size, or none if the index
/// is not written.
pub(crate) fn has_data_size(public: &NvPublic, size: usize) -> bool
    ensures { result ≡ (has_type_size public.now
        && size == (if has public.now.attributes attribute.Written
        then public.now.data_size else 0)) }
{
    let whole = if public.attributes.has(NvAttribute::Written) {
        usize::from(public.data_size)
    } else {
        0
    };
    has_type_size(public) && size == whole
}

/// Checks whether the platform (if `by_platform`) or the owner may define an index with this public
/// area and an authorization value of this size (TPM 2.0 Library, Part 3, section 31.3). Returns
/// the fault of the first check that fails.
#[tactic(auto, unfolding(crate::specs::Definition::definition_passes), using(crate::proofs::DefinitionLaws::unwritten_is))]
pub fn check_definition(
    public: &NvPublic,
    auth_size: usize,
    by_platform: bool,
) -> Result<(), DefinitionFault>
    ensures checked { result ≡ definition_passes by_platform public.now auth_size }
    // If the checks pass, the type of the index allows its size, and WRITTEN is clear.
    ensures sized { OnOk result (has_type_size public.now ≡ true) }
    ensures unwritten { OnOk result (has public.now.attributes attribute.Written ≡ false) }
{
    if auth_size > public.name_alg.size() {
        return Err(DefinitionFault::AuthValueSize);
    }
    if !is_policy_size(public.name_alg, public.auth_policy.len()) {
        return Err(DefinitionFault::AuthPolicySize);
    }
    if has_attribute_conflict(by_platform, public.attributes) {
        return Err(DefinitionFault::Attributes);
    }
    if !has_type_size(public) {
        return Err(DefinitionFault::DataSize);
    }
    Ok(())
}

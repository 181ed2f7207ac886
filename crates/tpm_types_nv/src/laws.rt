//! Setting or clearing an attribute of an NV index changes neither the other attributes nor the
//! type.

ghost use Rattle.tpm_types_nv.specs.AreNvAttributes.{AreNvAttributes};

/// Setting or clearing an attribute changes neither the other attributes nor the type of an index.
/// Attributes that can be encoded before can also be encoded afterwards. This function is only a
/// proof: it has no effect at run time.
#[inline(always)]
#[tactic(auto, using(crate::proofs::AttributeLaws::are_attributes))]
pub fn nv_attribute_laws()
    ensures { AreNvAttributes }
{}

//! Checks the template of a new object: its policy, its attributes and its scheme (TPM 2.0
//! Library, Part 1, section 25).

ghost use Rattle.std.specs.Prelude.{◌≡◌};
ghost use Rattle.tpm_object.specs.Checks.{one_of};
ghost use Rattle.tpm_object.specs.Template.{object_attribute_conflicts, has_wrong_fixing, has_wrong_scheme, template_passes};

use crate::object::{is_cipher, is_keyed_hash};
use tpm_types_common::is_policy_size;
use tpm_types_object::{
    KeyedHashScheme, ObjectAttribute, ObjectAttributes, Public, PublicParameters,
};

/// The reason why a template is refused.
#[derive(Clone, Copy, PartialEq, Eq)]
pub enum TemplateFault {
    /// authPolicy is neither empty nor as long as a nameAlg digest.
    AuthPolicySize,
    /// The attributes conflict with each other, with the type, or with the parent.
    Attributes,
    /// The scheme contradicts the attributes.
    Scheme,
}

/// Whether fixedTPM contradicts fixedParent or the parent.
fn has_wrong_fixing(parent_is_fixed: bool, attributes: ObjectAttributes) -> bool
    ensures { result ≡ has_wrong_fixing parent_is_fixed attributes }
{
    let fixed_tpm = attributes.has(ObjectAttribute::FixedTpm);
    let fixed_parent = attributes.has(ObjectAttribute::FixedParent);
    if parent_is_fixed {
        fixed_tpm != fixed_parent
    } else {
        fixed_tpm
    }
}

fn has_attribute_conflict(parent_is_fixed: bool, template: &Public) -> bool
    ensures { result ≡ one_of (object_attribute_conflicts parent_is_fixed template.now) }
{
    let attributes = template.attributes;
    let fixed_tpm = attributes.has(ObjectAttribute::FixedTpm);
    let encrypted_duplication = attributes.has(ObjectAttribute::EncryptedDuplication);
    let restricted = attributes.has(ObjectAttribute::Restricted);
    let decrypt = attributes.has(ObjectAttribute::Decrypt);
    let sign = attributes.has(ObjectAttribute::Sign);
    fixed_tpm && encrypted_duplication
        || has_wrong_fixing(parent_is_fixed, attributes)
        || restricted && sign == decrypt
        || is_keyed_hash(template) && decrypt
        || is_cipher(template) && !sign && !decrypt
        || is_cipher(template) && restricted && sign
}

/// Whether the attributes contradict the scheme.
fn has_wrong_scheme(parameters: PublicParameters, attributes: ObjectAttributes) -> bool
    ensures { result ≡ has_wrong_scheme parameters attributes }
{
    match parameters {
        PublicParameters::KeyedHash(KeyedHashScheme::Hmac(_)) => {
            !attributes.has(ObjectAttribute::Sign)
        }
        PublicParameters::KeyedHash(KeyedHashScheme::Null) => {
            attributes.has(ObjectAttribute::Restricted)
        }
        PublicParameters::SymCipher => false,
    }
}

/// Checks the template of an object that is to be created or loaded (TPM 2.0 Library, Part 1,
/// section 25). `parent_is_fixed` is true under a hierarchy, or under a parent with fixedTPM.
/// Returns the fault of the first check that fails.
#[tactic(auto, unfolding(crate::specs::Template::template_passes))]
pub fn check_template(template: &Public, parent_is_fixed: bool) -> Result<(), TemplateFault>
    ensures { result ≡ template_passes parent_is_fixed template.now }
{
    if !is_policy_size(template.name_alg, template.auth_policy.len()) {
        return Err(TemplateFault::AuthPolicySize);
    }
    if has_attribute_conflict(parent_is_fixed, template) {
        return Err(TemplateFault::Attributes);
    }
    if has_wrong_scheme(template.parameters, template.attributes) {
        return Err(TemplateFault::Scheme);
    }
    Ok(())
}

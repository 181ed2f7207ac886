//! Checks the values that a caller provides for a new object, and computes the size of the key that
//! the device generates (TPM 2.0 Library, Part 1, section 27).

ghost use Rattle.std.specs.Prelude.{◌≡◌, ◌≤◌};
ghost use Rattle.tpm_types_object.specs.SensitiveCreate.{sensitive_values_of};
ghost use Rattle.tpm_types_common.specs.Buffer.{is_given};
ghost use Rattle.tpm_object.specs.Checks.{one_of};
ghost use Rattle.tpm_object.specs.Creation.{creation_passes, drawn_by, generated_size, is_long_auth, has_wrong_key_size, key_size, origin_conflicts, parameters_key_size};

use crate::object::{is_cipher, is_keyed_hash};
use tpm_mac::HashAlg;
use tpm_types_common::AuthValue;
use tpm_types_object::{
    KeyedHashScheme, ObjectAttribute, Public, PublicParameters, SensitiveCreate,
};

/// The reason why the caller's values for a new object are refused.
#[derive(Clone, Copy, PartialEq, Eq)]
pub enum CreationFault {
    /// The authorization value is longer than a nameAlg digest.
    AuthValueSize,
    /// sensitiveDataOrigin contradicts the caller's data, or what the object is used for.
    Attributes,
    /// The key does not have the key size of the cipher.
    DataSize,
}

/// Whether the caller provides a key, or data to seal.
pub(crate) fn is_given(given: &SensitiveCreate) -> bool
    ensures { result ≡ is_given given.now.data.now }
{
    !given.data.is_empty()
}

fn is_long_auth(given: &SensitiveCreate, template: &Public) -> bool
    ensures { result ≡ is_long_auth (sensitive_values_of given.now) template.now }
{
    template.name_alg.size() < AuthValue::of(given.user_auth).as_slice().len()
}

fn has_origin_conflict(given: &SensitiveCreate, template: &Public) -> bool
    ensures { result ≡ one_of (origin_conflicts (sensitive_values_of given.now) template.now) }
{
    let made = template
        .attributes
        .has(ObjectAttribute::SensitiveDataOrigin);
    made == is_given(given)
        || made && is_keyed_hash(template) && !template.attributes.has(ObjectAttribute::Sign)
}

fn has_wrong_key_size(given: &SensitiveCreate, template: &Public) -> bool
    ensures { result ≡ has_wrong_key_size (sensitive_values_of given.now) template.now }
{
    is_cipher(template) && is_given(given) && given.data.len() != 16
}

/// Checks the caller's values against the template (TPM 2.0 Library, Part 1, section 27). Returns
/// the fault of the first check that fails.
#[tactic(auto, unfolding(crate::specs::Creation::creation_passes))]
pub fn check_creation(given: &SensitiveCreate, template: &Public) -> Result<(), CreationFault>
    ensures { result ≡ creation_passes (sensitive_values_of given.now) template.now }
{
    if is_long_auth(given, template) {
        return Err(CreationFault::AuthValueSize);
    }
    if has_origin_conflict(given, template) {
        return Err(CreationFault::Attributes);
    }
    if has_wrong_key_size(given, template) {
        return Err(CreationFault::DataSize);
    }
    Ok(())
}

fn parameters_key_size(name_alg: HashAlg, parameters: PublicParameters) -> usize
    ensures value { result ≡ parameters_key_size name_alg parameters }
    ensures small { result ≤ 32 }
{
    match parameters {
        PublicParameters::SymCipher => 16,
        PublicParameters::KeyedHash(KeyedHashScheme::Hmac(hash)) => hash.size(),
        PublicParameters::KeyedHash(KeyedHashScheme::Null) => name_alg.size(),
    }
}

/// The size of the key that the device generates for an object with this template.
pub fn key_size(template: &Public) -> usize
    ensures value { result ≡ key_size template.now }
    ensures small { result ≤ 32 }
{
    parameters_key_size(template.name_alg, template.parameters)
}

/// The number of key bytes that the device generates: 0 if the caller provides the key or data.
pub fn generated_size(template: &Public, given: &SensitiveCreate) -> usize
    ensures value { result ≡ generated_size template.now (sensitive_values_of given.now) }
    ensures small { result ≤ 32 }
{
    if is_given(given) {
        0
    } else {
        key_size(template)
    }
}

/// The number of random bytes that `create` uses, for the key and the seedValue.
pub fn drawn_by(template: &Public, given: &SensitiveCreate) -> usize
    ensures value { result ≡ drawn_by template.now (sensitive_values_of given.now) }
    ensures small { result ≤ 64 }
{
    generated_size(template, given) + template.name_alg.size()
}

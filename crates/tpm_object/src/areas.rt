//! The public and sensitive areas of a new object, made from random bytes or from a seed (TPM 2.0
//! Library, Part 1, section 27).

ghost use Rattle.std.specs.Prelude.{◌≡◌, ◌≤◌, ℕ, length, List};
ghost use Rattle.tpm_types_object.specs.SensitiveCreate.{SensitiveValues, sensitive_values_of};
ghost use Rattle.tpm_types_object.specs.declared.public.Public.{Public};

use crate::creation::{drawn_by, generated_size, is_given};
use tpm_mac::digest_parts;
use tpm_types_common::{AuthValue, Octets};
use tpm_types_object::{Public, Sensitive, SensitiveCreate};

/// The areas of a new object.
#[derive(Drop)]
pub struct Created {
    pub public: Public,
    pub sensitive: Sensitive,
}

ghost use Rattle.tpm_object.specs.Areas.{AreOfOneType, created_areas, new_object_areas, new_public, new_sensitive};
ghost use Rattle.tpm_object.specs.Primary.{primary_areas};

/// The sensitive area of an object with this seedValue. It contains the caller's data, or this key
/// if the caller provides no data.
fn new_sensitive(template: &Public, given: &SensitiveCreate, seed: &[u8], key: &[u8]) -> Sensitive
    requires seed { length seed.now ≤ 32 }
    requires key { length key.now ≤ 32 }
    ensures { result
        ≡ new_sensitive template.now (sensitive_values_of given.now) seed.now key.now }
{
    let sensitive = if is_given(given) { given.data } else { key };
    Sensitive {
        object_type: template.object_type(),
        auth_value: Octets::of(AuthValue::of(given.user_auth).as_slice()),
        seed_value: Octets::of(seed),
        sensitive: Octets::of(sensitive),
    }
}

/// The public area of an object with this sensitive area: the template, with `unique` computed from
/// the sensitive area.
fn new_public(template: &Public, area: &Sensitive) -> Public
    ensures { result ≡ new_public template.now area.now }
{
    let parts = [area.seed_value.as_slice(), area.sensitive.as_slice()];
    let unique = digest_parts(template.name_alg, &parts);
    Public {
        name_alg: template.name_alg,
        attributes: template.attributes,
        auth_policy: template.auth_policy.copy(),
        parameters: template.parameters,
        unique: Octets::of(unique.as_slice()),
    }
}

/// Both areas of an object with this seedValue, and with this key if the caller provides no data.
#[tactic(auto, unfolding(crate::specs::Areas::new_object_areas))]
pub(crate) fn new_object_areas(
    template: &Public,
    given: &SensitiveCreate,
    seed: &[u8],
    key: &[u8],
) -> Created
    requires seed { length seed.now ≤ 32 }
    requires key { length key.now ≤ 32 }
    ensures { result
        ≡ new_object_areas template.now (sensitive_values_of given.now) seed.now key.now }
{
    let sensitive = new_sensitive(template, given, seed, key);
    let public = new_public(template, &sensitive);
    Created { public, sensitive }
}

/// The areas of a new object (TPM 2.0 Library, Part 1, section 27). The first `drawn_by` bytes of
/// `random` become its key, if the device generates the key, and then its seedValue.
#[tactic(auto, unfolding(crate::specs::Areas::created_areas))]
pub fn create(template: &Public, given: &SensitiveCreate, random: &[u8; 256]) -> Created
    ensures { result ≡ created_areas template.now (sensitive_values_of given.now) random.now }
{
    let (key, others) = random.split_at(generated_size(template, given));
    let (seed, _) = others.split_at(template.name_alg.size());
    new_object_areas(template, given, seed, key)
}

/// The public and sensitive areas of a new object have the same type, whether made from random
/// bytes or from a seed. Therefore, the private area that the parent makes can be unwrapped again
/// with the object's public area. This function is only a proof: it has no effect at run time.
#[inline(always)]
#[tactic(auto, unfolding(crate::specs::Areas::created_areas, crate::specs::Areas::new_object_areas, crate::specs::Primary::primary_areas))]
pub fn area_laws()
    ensures by_random { (template : Public) (given : SensitiveValues) (random : List ℕ)
        → AreOfOneType (created_areas template given random) }
    ensures by_seed { (seed : List ℕ) (template : Public) (given : SensitiveValues)
        → AreOfOneType (primary_areas seed template given) }
{}

//! Primary objects, which are derived from a hierarchy's seed and a template. The same seed and
//! template always yield the same object (TPM 2.0 Library, Part 3, section 24.1).

ghost use Rattle.std.specs.Prelude.{◌≡◌, ◌+◌, ◌≤◌, length};
ghost use Rattle.tpm_mac.specs.Digest.{digest_size};
ghost use Rattle.tpm_types_object.specs.SensitiveCreate.{sensitive_values_of};
ghost use Rattle.tpm_object.specs.Creation.{generated_size};
ghost use Rattle.tpm_object.specs.Primary.{primary_areas, primary_bytes, primary_object, under_hierarchy};

use crate::areas::{Created, new_object_areas};
use crate::creation::generated_size;
use crate::object::Object;
use tpm_mac::{digest_parts, kdfa};
use tpm_name::Name;
use tpm_types_common::HierarchyHandle;
use tpm_types_object::{Public, SensitiveCreate};

/// The KDFa label for primary objects.
const PRIMARY_LABEL: &[u8] = b"PRIMARY";

/// Fills `out` with the bytes of a primary object: its seedValue, then its key.
#[tactic(auto, unfolding(crate::specs::Primary::primary_bytes))]
fn derive(seed: &[u8; 32], template: &Public, given: &SensitiveCreate, out: &mut [u8])
    requires size { length out.old ≡ digest_size template.now.name_alg
        + generated_size template.now (sensitive_values_of given.now) }
    ensures { out.new ≡ primary_bytes seed.now template.now (sensitive_values_of given.now) }
{
    let alg = template.name_alg;
    let about = digest_parts(alg, &[template.text().as_slice()]);
    let from = digest_parts(alg, &[given.text().as_slice()]);
    kdfa(
        alg,
        seed,
        PRIMARY_LABEL,
        about.as_slice(),
        from.as_slice(),
        out,
    );
}

/// The areas of a primary object.
#[tactic(auto, unfolding(crate::specs::Primary::primary_areas))]
fn primary_areas(seed: &[u8; 32], template: &Public, given: &SensitiveCreate) -> Created
    ensures { result ≡ primary_areas seed.now template.now (sensitive_values_of given.now) }
{
    let seed_size = template.name_alg.size();
    let size = seed_size + generated_size(template, given);
    let mut bytes = [0; 64];
    derive(seed, template, given, &mut bytes[..size]);
    let (seed_value, key) = bytes[..size].split_at(seed_size);
    new_object_areas(template, given, seed_value, key)
}

/// The object with these areas, directly under its hierarchy.
fn under_hierarchy(hierarchy: HierarchyHandle, areas: Created) -> Object
    ensures { result ≡ under_hierarchy hierarchy areas }
{
    let Created { public, sensitive } = areas;
    let above = Name::of_handle(hierarchy.handle());
    Object::loaded(hierarchy, public, &sensitive, above.as_slice())
}

/// The primary object derived from a hierarchy's seed and a template (TPM 2.0 Library, Part 3,
/// section 24.1). The same arguments always yield the same object.
#[tactic(auto, unfolding(crate::specs::Primary::primary_object))]
pub fn derive_primary(
    hierarchy: HierarchyHandle,
    seed: &[u8; 32],
    template: &Public,
    given: &SensitiveCreate,
) -> Object
    ensures { result
        ≡ primary_object hierarchy seed.now template.now (sensitive_values_of given.now) }
{
    under_hierarchy(hierarchy, primary_areas(seed, template, given))
}

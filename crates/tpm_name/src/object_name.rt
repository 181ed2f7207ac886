//! The Name of an object.

ghost use Rattle.std.specs.Prelude.{◌≡◌};
ghost use Rattle.tpm_name.specs.ObjectName.{object_name};

use tpm_types_name::Name;
use tpm_types_object::Public;

/// The Name of the object with this public area: its nameAlg, followed by the digest of the area
/// with that algorithm (TPM 2.0 Library, Part 1, section 16).
#[tactic(auto, unfolding(crate::specs::ObjectName::object_name))]
pub fn of_object(public: &Public) -> Name
    ensures { result ≡ object_name public.now }
{
    Name::hashed(public.name_alg, &[public.text().as_slice()])
}

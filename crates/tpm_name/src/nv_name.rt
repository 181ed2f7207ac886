//! The Name of an NV index.

ghost use Rattle.std.specs.Prelude.{◌≡◌};
ghost use Rattle.tpm_name.specs.NvName.{nv_name};

use tpm_types_name::Name;
use tpm_types_nv::NvPublic;

/// The Name of the NV index with this public area: its nameAlg, followed by the digest of the area
/// with that algorithm (TPM 2.0 Library, Part 1, section 16).
#[tactic(auto, unfolding(crate::specs::NvName::nv_name))]
pub fn of_nv(public: &NvPublic) -> Name
    ensures { result ≡ nv_name public.now }
{
    Name::hashed(public.name_alg, &[public.text().as_slice()])
}

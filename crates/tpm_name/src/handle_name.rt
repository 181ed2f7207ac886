//! The Names that need no public area: of a handle, and qualified Names.

ghost use Rattle.std.specs.Prelude.{◌≡◌};
ghost use Rattle.tpm_types_name.specs.Name.{handle_name, qualified_name};

use tpm_mac::HashAlg;
use tpm_types_common::Handle;
use tpm_types_name::Name;

/// The Name of an entity without a public area, such as a hierarchy or a PCR: its handle (TPM 2.0
/// Library, Part 1, section 16).
pub fn of_handle(handle: Handle) -> Name
    ensures { result ≡ handle_name handle }
{
    Name::of_handle(handle)
}

/// The qualified Name of an object, from its nameAlg, its parent's qualified Name, and its own
/// Name.
pub fn qualified(alg: HashAlg, parent: &[u8], name: &[u8]) -> Name
    ensures { result ≡ qualified_name alg parent.now name.now }
{
    Name::qualified(alg, parent, name)
}

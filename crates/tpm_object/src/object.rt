//! A loaded object: its areas and Names, and whether it can be the parent of other objects (TPM
//! 2.0 Library, Part 1, section 23).

ghost use Rattle.std.specs.Prelude.{◌≡◌};
ghost use Rattle.tpm_name.specs.ObjectName.{object_name};
ghost use Rattle.tpm_object.specs.Object.{are_of_cipher, is_cipher, is_keyed_hash, is_storage_parent, loaded_object};

use tpm_containers::{Kinded, Sizes};
use tpm_mac::HashAlg;
use tpm_name::Name;
use tpm_types_common::{AuthValue, Handle, HierarchyHandle, Octets, SENSITIVE_LIMIT};
use tpm_types_object::{ObjectAttribute, ObjectAttributes, Public, PublicParameters, Sensitive};

/// A loaded object.
#[derive(Drop)]
pub struct Object {
    /// The hierarchy of the object.
    pub hierarchy: HierarchyHandle,
    pub public: Public,
    pub auth_value: AuthValue,
    /// The seedValue. `unique` is computed from the seedValue and `sensitive`. A storage parent
    /// also derives the keys of its children's private areas from the seedValue.
    pub seed_value: Octets<32>,
    /// The object's key or sealed data.
    pub sensitive: Octets<SENSITIVE_LIMIT>,
    /// The qualified Name, which covers the Names of the object and of all its ancestors.
    pub qualified_name: Name,
}

fn are_of_cipher(parameters: PublicParameters) -> bool
    ensures { result ≡ are_of_cipher parameters }
{
    match parameters {
        PublicParameters::KeyedHash(_) => false,
        PublicParameters::SymCipher => true,
    }
}

/// Whether the object is a SYMCIPHER object.
pub(crate) fn is_cipher(public: &Public) -> bool
    ensures { result ≡ is_cipher public.now }
{
    are_of_cipher(public.parameters)
}

/// Whether the object is a KEYEDHASH object.
pub fn is_keyed_hash(public: &Public) -> bool
    ensures { result ≡ is_keyed_hash public.now }
{
    !are_of_cipher(public.parameters)
}

/// Whether other objects can be created or loaded under this object: it must be a SYMCIPHER object
/// that is restricted, decrypts, and does not sign (TPM 2.0 Library, Part 1, section 23).
pub fn is_storage_parent(public: &Public) -> bool
    ensures { result ≡ is_storage_parent public.now }
{
    is_cipher(public)
        && public.attributes.has(ObjectAttribute::Restricted)
        && public.attributes.has(ObjectAttribute::Decrypt)
        && !public.attributes.has(ObjectAttribute::Sign)
}

/// The highest byte of a transient object's handle.
pub const TRANSIENT_BYTE: u32 = 0x80;

/// Loaded objects have transient handles.
impl Kinded for Object {
    ghost use Rattle.tpm_object.specs.Object.{transient_byte};

    ghost kind = { transient_byte };

    fn kind(&self) -> u32 {
        TRANSIENT_BYTE
    }
}

impl Sizes for Object {
    ghost use Rattle.tpm_object.specs.Object.{IsObject};

    ghost IsOne = { IsObject };

    #[inline(always)]
    fn read_sizes(&self) {
        let _attributes = self.public.attributes.bits();
        let _auth_policy = self.public.auth_policy.as_slice();
        let _unique = self.public.unique.as_slice();
        let _auth_value = self.auth_value.as_slice();
        let _seed_value = self.seed_value.as_slice();
        let _sensitive = self.sensitive.as_slice();
        let _qualified_name = self.qualified_name.as_slice();
    }
}

impl Default for Object {
    /// A placeholder for a free slot.
    fn default() -> Object {
        Object {
            hierarchy: HierarchyHandle::Null,
            public: Public {
                name_alg: HashAlg::Sha1,
                attributes: ObjectAttributes::none(),
                auth_policy: Octets::empty(),
                parameters: PublicParameters::SymCipher,
                unique: Octets::empty(),
            },
            auth_value: AuthValue::empty(),
            seed_value: Octets::empty(),
            sensitive: Octets::empty(),
            qualified_name: Name::of_handle(Handle::NULL),
        }
    }
}

impl Object {
    /// The object with these areas, under a parent with this qualified Name.
    pub fn loaded(
        hierarchy: HierarchyHandle,
        public: Public,
        sensitive: &Sensitive,
        parent_qualified_name: &[u8],
    ) -> Object
        ensures { result ≡ loaded_object hierarchy public sensitive.now
            parent_qualified_name.now }
    {
        let name = tpm_name::of_object(&public);
        Object::loaded_named(hierarchy, public, &name, sensitive, parent_qualified_name)
    }

    /// Like `loaded`, for callers that already know the object's Name.
    pub fn loaded_named(
        hierarchy: HierarchyHandle,
        public: Public,
        name: &Name,
        sensitive: &Sensitive,
        parent_qualified_name: &[u8],
    ) -> Object
        requires { name.now ≡ object_name public }
        ensures { result ≡ loaded_object hierarchy public sensitive.now
            parent_qualified_name.now }
    {
        let qualified_name = Name::qualified(
            public.name_alg,
            parent_qualified_name,
            name.as_slice(),
        );
        Object {
            hierarchy,
            public,
            auth_value: AuthValue::of(sensitive.auth_value.as_slice()),
            seed_value: sensitive.seed_value.copy(),
            sensitive: sensitive.sensitive.copy(),
            qualified_name,
        }
    }

    /// A copy of the object.
    pub fn copy(&self) -> Object
        ensures { result ≡ self.now }
    {
        Object {
            hierarchy: self.hierarchy,
            public: self.public.copy(),
            auth_value: self.auth_value.copy(),
            seed_value: self.seed_value.copy(),
            sensitive: self.sensitive.copy(),
            qualified_name: self.qualified_name.copy(),
        }
    }

    /// The object's Name, computed from its public area.
    pub fn name(&self) -> Name
        ensures { result ≡ object_name self.now.public }
    {
        tpm_name::of_object(&self.public)
    }
}

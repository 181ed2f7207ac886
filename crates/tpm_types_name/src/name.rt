//! The Name of an entity, at most 34 bytes long: its handle, or a hash algorithm followed by a
//! digest (TPM 2.0 Library, Part 1, section 16).

ghost use Rattle.std.specs.Prelude.{◌≡◌, ◌≤◌, [], length};
ghost use Rattle.std.specs.Str.{bytes_eq};
ghost use Rattle.tpm_mac.specs.Digest.{joined_text};
ghost use Rattle.tpm_types_name.specs.Name.{handle_name, hashed_name, qualified_name};

use arrayvec::ArrayVec;
use std::marker::Model;
use tpm_bytes::{append, copied};
use tpm_mac::{HashAlg, digest_parts};
use tpm_types_common::{Handle, hash_number};

/// The Name of an entity: at most 34 bytes. Contracts represent it by its list of bytes.
#[derive(Drop)]
pub struct Name {
    bytes: ArrayVec<u8, 34>,
}

impl Model for Name {
    ghost use Rattle.std.specs.Prelude.{ℕ, List};

    ghost Value = { List ℕ };

    ghost view = { λ n. n.bytes.items };
}

impl Default for Name {
    /// The empty Name, which names nothing (Part 1, section 16).
    fn default() -> Name
        ensures { result ≡ [] }
    {
        Name {
            bytes: ArrayVec::new(),
        }
    }
}

impl Name {
    /// The Name of an entity without a public area, such as a hierarchy or a PCR: its handle.
    pub fn of_handle(handle: Handle) -> Name
        ensures { result ≡ handle_name handle }
    {
        Name {
            bytes: copied(&handle.number.to_be_bytes()),
        }
    }

    /// The Name or qualified Name that consists of these bytes.
    pub fn of(bytes: &[u8]) -> Name
        requires { length bytes.now ≤ 34 }
        ensures { result ≡ bytes.now }
    {
        Name {
            bytes: copied(bytes),
        }
    }

    /// The Name of an entity whose public area is encoded as the concatenation of these parts: a
    /// hash algorithm, followed by the digest of the parts.
    pub fn hashed(alg: HashAlg, parts: &[&[u8]]) -> Name
        ensures { result ≡ hashed_name alg (joined_text parts.now) }
    {
        let mut bytes = ArrayVec::new();
        append(&mut bytes, &hash_number(alg).to_be_bytes());
        append(&mut bytes, digest_parts(alg, parts).as_slice());
        Name { bytes }
    }

    /// The qualified Name of an object, from its nameAlg, its parent's qualified Name, and its own
    /// Name.
    #[tactic(auto, unfolding(crate::specs::Name::qualified_name))]
    pub fn qualified(alg: HashAlg, parent: &[u8], name: &[u8]) -> Name
        ensures { result ≡ qualified_name alg parent.now name.now }
    {
        Name::hashed(alg, &[parent, name])
    }

    /// The bytes of the Name.
    pub fn as_slice(&self) -> &[u8]
        ensures value { result.now ≡ self.now }
        ensures fits { length result.now ≤ 34 }
    {
        self.bytes.as_slice()
    }

    /// A copy of the Name.
    pub fn copy(&self) -> Name
        ensures { result ≡ self.now }
    {
        Name {
            bytes: copied(self.bytes.as_slice()),
        }
    }

    /// Whether the two Names are equal.
    pub fn is_same(&self, other: &Name) -> bool
        ensures { result ≡ bytes_eq self.now other.now }
    {
        self.bytes.as_slice() == other.bytes.as_slice()
    }
}

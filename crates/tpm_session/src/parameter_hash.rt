//! cpHash and rpHash, the hashes of the parameters of a command and of a response (TPM 2.0 Library,
//! Part 1, sections 18.7 and 18.8).

ghost use Rattle.std.specs.Prelude.{◌≡◌, ◌≤◌, [], length, slice_index_or};
ghost use Rattle.tpm_mac.specs.Digest.{digest_size};
ghost use Rattle.tpm_session.specs.ParameterHash.{command_hash_of, response_hash_of};

use tpm_mac::{Digest, HashAlg, digest_parts};
use tpm_types_name::Name;

/// The bytes of the Name at this index, or an empty slice if no Name has this index.
fn name_at(names: &[Name], place: usize) -> &[u8]
    ensures { result.now ≡ slice_index_or names.now place [] }
{
    match names.get(place) {
        Some(name) => name.as_slice(),
        None => &[],
    }
}

/// cpHash: the hash of a command's code, the Names of its handles, and its parameters as sent (TPM
/// 2.0 Library, Part 1, section 18.7).
#[tactic(auto, unfolding(crate::specs::ParameterHash::command_hash_of))]
pub fn command_hash(hash: HashAlg, code: u32, names: &[Name], parameters: &[u8]) -> Digest
    requires { length names.now ≤ 3 }
    ensures value { result.items ≡ command_hash_of hash code names.now parameters.now }
    ensures size { length result.items ≡ digest_size hash }
{
    let (first, second) = (name_at(names, 0), name_at(names, 1));
    let third = name_at(names, 2);
    let code = code.to_be_bytes();
    digest_parts(hash, &[&code, first, second, third, parameters])
}

/// rpHash: the hash of the response code of success, the command code, and the parameters as sent
/// (TPM 2.0 Library, Part 1, section 18.8).
#[tactic(auto, unfolding(crate::specs::ParameterHash::response_hash_of))]
pub fn response_hash(hash: HashAlg, code: u32, parameters: &[u8]) -> Digest
    ensures value { result.items ≡ response_hash_of hash code parameters.now }
    ensures size { length result.items ≡ digest_size hash }
{
    let success = 0u32.to_be_bytes();
    let code = code.to_be_bytes();
    digest_parts(hash, &[&success, &code, parameters])
}

/// The data that cpHash or rpHash covers.
#[derive(Clone, Copy)]
pub enum HashedParameters<'a> {
    /// A command: its code, the Names of its handles, and its parameters as sent.
    Command(u32, &'a [Name], &'a [u8]),
    /// A successful response: the command code, and the response's parameters as sent.
    Response(u32, &'a [u8]),
}

impl HashedParameters<'_> {
    ghost use Rattle.tpm_session.specs.ParameterHash.{HasFewNames, hashed_parts, parameter_hash_of};

    /// The hash of the parameters: cpHash or rpHash.
    pub fn hash(self, hash: HashAlg) -> Digest
        requires { HasFewNames (hashed_parts self) }
        ensures { result.items ≡ parameter_hash_of hash (hashed_parts self.entry) }
    {
        match self {
            HashedParameters::Command(code, names, parameters) => command_hash(
                hash, code, names, parameters,
            ),
            HashedParameters::Response(code, parameters) => response_hash(hash, code, parameters),
        }
    }
}

//! The hashes of the parameters of one command or response, one for each hash algorithm. Each hash
//! is computed only once, when it is first needed.

ghost use Rattle.std.specs.Prelude.{◌≡◌};
ghost use Rattle.std.specs.Option.{ForSome};
ghost use Rattle.tpm_mac.specs.declared.algorithm.HashAlg.TheVariants as alg;
ghost use Rattle.tpm_session.specs.ParameterHash.{HasFewNames, hashed_parts, parameter_hash_of};

use crate::parameter_hash::HashedParameters;
use std::marker::Model;
use tpm_bytes::copied;
use tpm_mac::{Digest, HashAlg};

/// The hashes of the parameters of one command or successful response. Each hash is computed once,
/// when it is first needed. Contracts represent the hashes by the data that is hashed.
#[derive(Drop)]
pub struct ParameterHashes<'a> {
    hashed: HashedParameters<'a>,
    sha1: Option<Digest>,
    sha256: Option<Digest>,
    ghost few: { HasFewNames (hashed_parts hashed) },
    ghost is_sha1: { ForSome sha1
        (λ d. d.items ≡ parameter_hash_of alg.Sha1 (hashed_parts hashed)) },
    ghost is_sha256: { ForSome sha256
        (λ d. d.items ≡ parameter_hash_of alg.Sha256 (hashed_parts hashed)) },
}

impl<'a> Model for ParameterHashes<'a> {
    ghost use Rattle.tpm_session.specs.ParameterHash.{HashedParts, hashed_parts};

    ghost Value = { HashedParts };

    ghost view = { λ h. hashed_parts h.hashed };
}

impl<'a> ParameterHashes<'a> {
    /// The hashes of these parameters, none of which has been computed yet.
    pub fn new(hashed: HashedParameters<'a>) -> ParameterHashes<'a>
        requires { HasFewNames (hashed_parts hashed) }
        ensures { result ≡ hashed_parts hashed.entry }
    {
        ParameterHashes {
            hashed,
            sha1: None,
            sha256: None,
        }
    }

    /// The hash of the parameters with this algorithm.
    pub fn by(&mut self, hash: HashAlg) -> Digest
        ensures value { result.items ≡ parameter_hash_of hash self.old }
        ensures same { self.new ≡ self.old }
    {
        let known = match hash {
            HashAlg::Sha1 => &self.sha1,
            HashAlg::Sha256 => &self.sha256,
        };
        if let Some(digest) = known {
            return copied(digest.as_slice());
        }
        let digest = self.hashed.hash(hash);
        let kept = Some(copied(digest.as_slice()));
        match hash {
            HashAlg::Sha1 => self.sha1 = kept,
            HashAlg::Sha256 => self.sha256 = kept,
        }
        digest
    }
}

//! Encodes and reads the identifiers of hash algorithms, with or without NULL (TPM_ALG_ID; TPM 2.0
//! Library, Part 2, section 6.3).

ghost use Rattle.std.specs.Prelude.{◌≡◌};
ghost use Rattle.tpm_bytes.specs.Reading.{Reads};
ghost use Rattle.tpm_types_common.specs.Algorithm.{hash_at, hash_named, hash_number, is_policy_size};
ghost use Rattle.tpm_types_common.specs.Algorithm.{hash_or_null_at, hash_or_null_named, hash_or_null_number};

use crate::rc::{Rc, ResponseCode};
use tpm_bytes::Cursor;
use tpm_mac::HashAlg;

/// The wire number of the algorithm NULL: TPM_ALG_NULL.
const NULL: u16 = 0x0010;

/// The wire number of a hash algorithm: TPM_ALG_ID (Part 2, section 6.3).
pub fn hash_number(algorithm: HashAlg) -> u16
    ensures { result ≡ hash_number algorithm }
{
    match algorithm {
        HashAlg::Sha1 => 0x0004,
        HashAlg::Sha256 => 0x000b,
    }
}

/// Whether an authPolicy of this size is allowed with this nameAlg: it must be empty, or have the
/// digest size of nameAlg.
pub fn is_policy_size(name_alg: HashAlg, size: usize) -> bool
    ensures { result ≡ is_policy_size name_alg size }
{
    size == 0 || size == name_alg.size()
}

/// The hash algorithm with this number, or None if it is not supported.
pub fn hash_named(number: u16) -> Option<HashAlg>
    ensures { result ≡ hash_named number }
{
    match number {
        0x0004 => Some(HashAlg::Sha1),
        0x000b => Some(HashAlg::Sha256),
        _ => None,
    }
}

/// Reads a hash algorithm (TPMI_ALG_HASH, Part 2, section 9). Fails with INSUFFICIENT if it is
/// truncated, or with HASH if it is not supported.
#[tactic(auto, unfolding(crate::specs::Algorithm::hash_at))]
pub fn read_hash(text: &mut Cursor) -> Result<HashAlg, Rc>
    ensures { Reads (λ algorithm. algorithm) (hash_at text.old) text.old result text.new }
{
    let mut ahead = Cursor::new(text.rest());
    let Ok(number) = ahead.u16() else {
        return Err(ResponseCode::Insufficient.anywhere());
    };
    let Some(algorithm) = hash_named(number) else {
        return Err(ResponseCode::Hash.anywhere());
    };
    *text = ahead;
    Ok(algorithm)
}

/// The wire number of a hash algorithm. For None, it is TPM_ALG_NULL.
pub fn hash_or_null_number(algorithm: Option<HashAlg>) -> u16
    ensures { result ≡ hash_or_null_number algorithm }
{
    match algorithm {
        Some(algorithm) => hash_number(algorithm),
        None => NULL,
    }
}

/// The hash algorithm with this number. The result is `Some(None)` for TPM_ALG_NULL, and None for
/// an algorithm that is not supported.
pub fn hash_or_null_named(number: u16) -> Option<Option<HashAlg>>
    ensures { result ≡ hash_or_null_named number }
{
    match (number, hash_named(number)) {
        (NULL, _) => Some(None),
        (_, Some(algorithm)) => Some(Some(algorithm)),
        (_, None) => None,
    }
}

/// Reads a hash algorithm or NULL (TPMI_ALG_HASH+, Part 2, section 9). Fails with INSUFFICIENT if
/// it is truncated, or with HASH if it is neither NULL nor a supported algorithm.
#[tactic(auto, unfolding(crate::specs::Algorithm::hash_or_null_at))]
pub fn read_hash_or_null(text: &mut Cursor) -> Result<Option<HashAlg>, Rc>
    ensures { Reads (λ algorithm. algorithm) (hash_or_null_at text.old) text.old result text.new }
{
    let mut ahead = Cursor::new(text.rest());
    let Ok(number) = ahead.u16() else {
        return Err(ResponseCode::Insufficient.anywhere());
    };
    let Some(algorithm) = hash_or_null_named(number) else {
        return Err(ResponseCode::Hash.anywhere());
    };
    *text = ahead;
    Ok(algorithm)
}

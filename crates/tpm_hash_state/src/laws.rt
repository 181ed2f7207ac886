//! Laws of hashes and HMACs, for every message.

ghost use Rattle.tpm_hash_state.specs.Meaning.{AbsorbsInParts, DigestIsHash, HmacAbsorbsInParts, HmacIsHmac};

/// The digest of a state is the hash of all bytes that the state absorbed. Absorbing two parts is
/// the same as absorbing their concatenation. The function does nothing at run time.
#[inline(always)]
#[tactic(auto, using(crate::proofs::Absorbing::absorbs_in_parts, crate::proofs::Absorbing::digest_is_hash))]
pub fn hash_laws()
    ensures hash { DigestIsHash }
    ensures parts { AbsorbsInParts }
{}

/// The digest of an HMAC state is the HMAC of all bytes that the state absorbed. The function does
/// nothing at run time.
#[inline(always)]
#[tactic(auto, using(crate::proofs::HmacLaws::hmac_absorbs_in_parts, crate::proofs::HmacLaws::hmac_is_hmac))]
pub fn hmac_laws()
    ensures hmac { HmacIsHmac }
    ensures parts { HmacAbsorbsInParts }
{}

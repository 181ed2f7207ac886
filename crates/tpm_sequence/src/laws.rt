//! Laws about every sequence.

ghost use Rattle.tpm_sequence.specs.Meaning.{AuthorizesByValue, EventSequenceIsHashes, HashSequenceIsHash, HashSequenceRecordsBeginning, HmacSequenceIsHmac, RecordsGenerated, UpdatesInParts};

/// A `Beginning` records whether the data begin with TPM_GENERATED_VALUE. The function does nothing
/// at run time.
#[inline(always)]
#[tactic(auto, using(crate::proofs::BeginningLaws::records_generated))]
pub fn beginning_laws()
    ensures { RecordsGenerated }
{}

/// The digests of a sequence are the hashes, or the HMAC, of its data, no matter how the data were
/// divided into parts. The function does nothing at run time.
#[inline(always)]
#[tactic(auto, using(crate::proofs::SequenceLaws::updates_in_parts, crate::proofs::SequenceLaws::hash_sequence_is_hash, crate::proofs::SequenceLaws::hash_sequence_records_beginning, crate::proofs::SequenceLaws::event_sequence_is_hashes, crate::proofs::SequenceLaws::hmac_sequence_is_hmac))]
pub fn sequence_laws()
    ensures parts { UpdatesInParts }
    ensures hash { HashSequenceIsHash }
    ensures beginning { HashSequenceRecordsBeginning }
    ensures event { EventSequenceIsHashes }
    ensures hmac { HmacSequenceIsHmac }
{}

/// A password authorizes a sequence object if and only if it equals the authorization value,
/// ignoring trailing zeros. The function does nothing at run time.
#[inline(always)]
pub fn authorization_laws()
    ensures { AuthorizesByValue }
{}

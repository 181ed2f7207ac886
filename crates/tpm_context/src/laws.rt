//! Laws about every context.

ghost use Rattle.tpm_context.specs.Meaning.{IntegrityMeans, OpensAgain, OpensOnlyAsMade, RefusesAnotherBinding, RefusesAnotherOwner, SequenceOpensAgain, SequenceOpensOnlyAsMade};

/// Opening a context returns the object from which it was made. Unless the HMAC has a collision,
/// two contexts with the same integrity value have the same object and sequence number, and were
/// made with the same proof, start number and counts. The function does nothing at run time.
#[inline(always)]
#[tactic(auto, using(crate::proofs::ContextLaws::opens_again, crate::proofs::ContextLaws::integrity_means))]
pub fn context_laws()
    ensures again { OpensAgain }
    ensures integrity { IntegrityMeans }
{}

/// Unless the HMAC has a collision, a context opens only with the proof, start number and counts
/// with which it was made. Therefore, it opens with another start number or another resetCount only
/// if the HMAC has a collision. The same holds for the context of an object of the platform
/// hierarchy after TPM2_Clear changed the proof of the owner hierarchy. The function does nothing at
/// run time.
#[inline(always)]
#[tactic(auto, using(crate::proofs::ContextLaws::opens_only_as_made, crate::proofs::ContextLaws::refuses_another_binding, crate::proofs::ContextLaws::refuses_another_owner))]
pub fn binding_laws()
    ensures made { OpensOnlyAsMade }
    ensures bound { RefusesAnotherBinding }
    ensures owner { RefusesAnotherOwner }
{}

/// Opening the context of a sequence object returns the sequence object from which it was made.
/// Unless the HMAC has a collision, the context opens only with the proof, start number and count
/// of TPM Resets with which it was made. The function does nothing at run time.
#[inline(always)]
#[tactic(auto, using(crate::proofs::SequenceLaws::sequence_opens_again, crate::proofs::SequenceLaws::sequence_opens_only_as_made))]
pub fn sequence_laws()
    ensures again { SequenceOpensAgain }
    ensures made { SequenceOpensOnlyAsMade }
{}

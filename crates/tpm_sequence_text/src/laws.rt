//! Laws about every slot.

ghost use Rattle.tpm_sequence_text.specs.Meaning.{ReadsAgain, ReadsOnlyText, StaysSmall};

/// Decoding the encoding of a slot, followed by any bytes, returns the slot and these bytes. If
/// decoding returns a slot, the bytes begin with its encoding. No encoding is longer than 245
/// bytes. The function does nothing at run time.
#[inline(always)]
#[tactic(auto, using(crate::proofs::SlotLaws::reads_again, crate::proofs::SizeLaws::stays_small))]
pub fn slot_laws()
    ensures again { ReadsAgain }
    ensures only { ReadsOnlyText }
    ensures small { StaysSmall }
{}

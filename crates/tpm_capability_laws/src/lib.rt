#![tactic(auto)]

//! Laws of TPM2_GetCapability on a device of the complete profile: what its values say about the
//! device and about other commands.
//!
//! These are laws about tpm_actions_capability's definitions. Each law is the contract of a function
//! that has no effect at run time. No crate depends on this crate.

ghost use Rattle.tpm_capability_laws.specs.Algorithms.{AlgorithmsAgree};
ghost use Rattle.tpm_capability_laws.specs.Attributes.{PermanentSays, StartupSays};
ghost use Rattle.tpm_capability_laws.specs.Counts.{ListsAreCounted};
ghost use Rattle.tpm_capability_laws.specs.Free.{ObjectsAreLoadedIfFree, SessionsStartIfFree};

/// The listed algorithms are those that TPM2_IncrementalSelfTest tests.
#[inline(always)]
#[tactic(auto, using(crate::proofs::Algorithms::algorithms_agree))]
pub fn algorithm_laws()
    ensures { AlgorithmsAgree }
{}

/// TPMA_PERMANENT says whether ownerAuth, endorsementAuth and lockoutAuth are set, whether TPM2_Clear
/// is disabled, and whether failed tries lock the device. TPMA_STARTUP_CLEAR says whether a TPM
/// Restart or a TPM Resume followed the last TPM Reset.
#[inline(always)]
pub fn attribute_laws()
    ensures permanent { PermanentSays }
    ensures startup { StartupSays }
{}

/// The numbers of commands, NV indices, sessions and persistent objects are the sizes of the lists of
/// these.
#[inline(always)]
pub fn count_laws()
    ensures { ListsAreCounted }
{}

/// TPM2_StartAuthSession finds a slot exactly if TPM_PT_HR_LOADED_AVAIL is not 0, and exactly if
/// TPM_PT_HR_ACTIVE_AVAIL is not 0. A new transient object finds a slot exactly if
/// TPM_PT_HR_TRANSIENT_AVAIL is not 0.
#[inline(always)]
#[tactic(auto, using(crate::proofs::Free::sessions_start, crate::proofs::Free::objects_load))]
pub fn free_laws()
    ensures sessions { SessionsStartIfFree }
    ensures objects { ObjectsAreLoadedIfFree }
{}

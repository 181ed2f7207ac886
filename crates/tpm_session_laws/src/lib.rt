#![tactic(auto)]

//! Laws of sessions on a device with a known history: which events discard a policy session's
//! assertions, which commands a policy with a cpHash allows, and which nonces a session has had.
//!
//! These are laws about tpm_step's definitions. Each law is the contract of a function that has no
//! effect at run time. No crate depends on this crate.

ghost use Rattle.tpm_session_laws.specs.Assertions.{NoneStandsThrough};
ghost use Rattle.tpm_session_laws.specs.CpHash.{NeedsCpHash};
ghost use Rattle.tpm_session_laws.specs.Nonces.{AddsItsNonce};
ghost use Rattle.tpm_step.specs.uses.PolicyReviews.{OfEachAccepted};

/// No assertion of a policy session survives a TPM2_PolicyRestart of the session, the start of
/// another session with the same handle, or a power cycle.
#[inline(always)]
#[tactic(auto, using(crate::proofs::Assertions::none_stands_through))]
pub fn assertion_laws()
    ensures { NoneStandsThrough }
{}

/// Suppose that an object has no userWithAuth, and that its policy is a single TPM2_PolicyCpHash.
/// Unless the hash is broken, only commands with that cpHash have ever used the object.
#[inline(always)]
#[tactic(auto, using(crate::proofs::CpHash::each_needs_cp_hash))]
pub fn cp_hash_laws()
    ensures { OfEachAccepted NeedsCpHash }
{}

/// If a command's only entry names a session, the command adds the session's old nonce to the
/// session's earlier nonces.
#[inline(always)]
#[tactic(auto, using(crate::proofs::Nonces::adds_its_nonce))]
pub fn nonce_laws()
    ensures { AddsItsNonce }
{}

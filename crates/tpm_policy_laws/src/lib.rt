#![tactic(auto)]

//! Laws of the policy commands: what an accepted TPM2_PolicyNV implies about the data of its index.
//!
//! These are laws about tpm_actions_policy's definitions. Each law is the contract of a function
//! that has no effect at run time. No crate depends on this crate.

ghost use Rattle.tpm_policy_laws.specs.Comparing.{ComparisonHolds};

/// If TPM2_PolicyNV is accepted on a policy session, its comparison of the index's current data
/// with the operand holds. In a trial session, nothing is compared.
#[inline(always)]
#[tactic(auto, using(crate::proofs::Comparing::comparison_holds))]
pub fn comparison_laws()
    ensures { ComparisonHolds }
{}

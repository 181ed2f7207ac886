#![tactic(auto)]

//! What a policy session's digest means: written policies, their digests, and what follows if a
//! session's digest equals the digest of a policy.
//!
//! The crate uses the definitions of tpm_policy. It does not refer to sessions, entities or
//! histories. Each law is the contract of a function that has no effect at run time.

ghost use Rattle.tpm_policy_meaning.specs.Asserted.{AcceptedFindDigest, DemandsValue};
ghost use Rattle.tpm_policy_meaning.specs.Asserted.{SessionHashesTexts};
ghost use Rattle.tpm_policy_meaning.specs.Examples.{ComputesDigests};
ghost use Rattle.tpm_policy_meaning.specs.Meaning.{DigestMeans};
ghost use Rattle.tpm_policy_meaning.specs.Trial.{TrialComputes};

/// If a policy session's digest equals the digest of a policy, one of two things holds. Either the
/// session made the assertions that the policy requires, on one branch at each TPM2_PolicyOR; or
/// the hash is broken in one of three ways. The inputs that break it can be computed from the
/// policy and the session's assertions.
#[inline(always)]
pub fn meaning_laws()
    ensures { DigestMeans }
{}

/// Asserting a policy in a trial session yields the digest of the policy, whatever the current
/// values of the PCRs are.
#[inline(always)]
pub fn trial_laws()
    ensures { TrialComputes }
{}

/// Laws of a session's digest. If a policy session accepts a TPM2_PolicyOR, the session's digest at
/// that time is in the list. A session's digest is the hash of the latest input that it hashed, or
/// zeros if it has hashed no input. If TPM2_PolicyAuthValue or TPM2_PolicyPassword was asserted,
/// the session requires the authorization value, in an HMAC key or as a password.
#[inline(always)]
pub fn session_laws()
    ensures find { AcceptedFindDigest }
    ensures texts { SessionHashesTexts }
    ensures demand { DemandsValue }
{}

/// Examples of policies with their digests. Some digests are published; another program computed
/// the other digests.
#[inline(always)]
pub fn example_laws()
    ensures { ComputesDigests }
{}

//! An assertion changes the policy as defined, and the new policy digest is as long as a digest of
//! the session's hash algorithm.

ghost use Rattle.std.specs.Prelude.{◌≡◌, Bool, Ok, length};
ghost use Rattle.tpm_mac.specs.Digest.{digest_size};
ghost use Rattle.tpm_mac.specs.declared.algorithm.HashAlg.{HashAlg};
ghost use Rattle.tpm_policy.specs.Assertion.{Assertion, asserted_policy};
ghost use Rattle.tpm_policy.specs.Made.{policy_with};
ghost use Rattle.tpm_policy.specs.State.{Policy};

/// If an assertion passes its checks, the new policy is the result of `policy_with`, which is
/// defined without checks. The new policy digest is as long as a digest of the session's hash
/// algorithm. This function is only a proof: it has no effect at run time.
#[inline(always)]
#[tactic(auto, using(crate::proofs::Made::policy_made, crate::proofs::Sizes::made_sized))]
pub fn assertion_laws()
    ensures made { (hash : HashAlg) (trial : Bool) (a : Assertion) (old new : Policy)
        → asserted_policy hash trial a old ≡ Ok new → new ≡ policy_with hash trial a old }
    ensures sized { (hash : HashAlg) (trial : Bool) (a : Assertion) (old new : Policy)
        → asserted_policy hash trial a old ≡ Ok new → length new.digest ≡ digest_size hash }
{}

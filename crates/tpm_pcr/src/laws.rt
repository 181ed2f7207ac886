//! Laws about how a change of the banks affects each PCR's value and the update counter.

ghost use Rattle.std.specs.Prelude.{◌≡◌, ◌<◌, ◌+◌, ◌==◌, ℕ, List, cond, fold, length, replicate};
ghost use Rattle.tpm_mac.specs.Digest.{digest_size};
ghost use Rattle.tpm_mac.specs.declared.algorithm.HashAlg.{HashAlg};
ghost use Rattle.tpm_mac.specs.declared.algorithm.HashAlg.TheVariants as alg;
ghost use Rattle.tpm_types_common.specs.declared.digest_values.DigestValue.{DigestValue};
ghost use Rattle.tpm_pcr.specs.Banks.{HaveAll, HaveValues, new_banks, pcr_value, starting_value};
ghost use Rattle.tpm_pcr.specs.Changes.{value_extended, with_extension, with_value};
ghost use Rattle.tpm_pcr.specs.Values.{BankValues};

/// New banks contain the starting value of each PCR. When a PCR is extended with several digests,
/// each digest in turn extends the PCR's value in the bank of the digest's hash algorithm. A reset
/// replaces a PCR's value by zeros in both banks. All other values are unchanged. Each digest
/// counts as an update. This function is only a proof: it has no effect at run time.
#[inline(always)]
#[tactic(auto, using(crate::proofs::OneValue::new_all, crate::proofs::OneValue::new_values, crate::proofs::OneValue::extensions_at, crate::proofs::OneValue::extensions_count, crate::proofs::OneValue::zeros_at))]
pub fn value_laws()
    ensures all { HaveAll new_banks }
    ensures starting { HaveValues new_banks starting_value }
    ensures extended { (pcr : ℕ) (digests : List DigestValue) (banks : BankValues)
        (bank : HashAlg) (n : ℕ) → HaveAll banks → n < 24
        → pcr_value (fold (with_extension pcr) banks digests) bank n
        ≡ cond (pcr == n) (fold (value_extended bank) (pcr_value banks bank n) digests)
        (pcr_value banks bank n) }
    ensures counted { (pcr : ℕ) (digests : List DigestValue) (banks : BankValues)
        → (fold (with_extension pcr) banks digests).update_count
        ≡ banks.update_count + length digests }
    ensures zeros { (pcr : ℕ) (banks : BankValues) (bank : HashAlg) (n : ℕ)
        → HaveAll banks → n < 24
        → pcr_value (with_value alg.Sha256 pcr (replicate 32 0)
        (with_value alg.Sha1 pcr (replicate 20 0) banks)) bank n
        ≡ cond (pcr == n) (replicate (digest_size bank) 0) (pcr_value banks bank n) }
{}

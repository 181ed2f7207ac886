//! The commands that change PCRs, TPM2_PCR_Extend, TPM2_PCR_Event and TPM2_PCR_Reset, and the
//! localities from which each PCR allows them (TPM 2.0 Library, Part 1, section 17).

ghost use Rattle.std.specs.Prelude.{◌≡◌, ◌+◌, ◌-◌, ◌<◌, ◌^◌, ◌++◌};
ghost use Rattle.std.specs.Prelude.{List, ℕ, [], ◌∷◌, fold, length, replicate};
ghost use Rattle.tpm_mac.specs.Digest.{digest_size, hash_of};
ghost use Rattle.tpm_types_common.specs.DigestValues.{digest_of, hash_of_value};
ghost use Rattle.tpm_types_common.specs.Locality.{locality_number};
ghost use Rattle.tpm_pcr.specs.Banks.{pcr_value};
ghost use Rattle.tpm_pcr.specs.Changes.{AnswersDigests, ChangesBanks, change_check, clear_counted};
ghost use Rattle.tpm_pcr.specs.Changes.{event_digests, extend_of};
ghost use Rattle.tpm_pcr.specs.Changes.{may_extend, may_reset, reset_of, use_of};
ghost use Rattle.tpm_pcr.specs.Changes.{with_extension, with_value};

use crate::banks::Banks;
use arrayvec::ArrayVec;
use tpm_mac::{Digest, HashAlg, digest_parts};
use tpm_types_common::{DigestValue, DigestValues, Locality, PcrIndex};

/// The reason why no PCR was changed.
#[derive(Clone, Copy, PartialEq, Eq)]
pub enum ChangeFault {
    /// The PCR does not allow this change from this locality.
    Locality,
    /// The update counter would exceed 2^64 - 1.
    Failure,
}

/// The use of a PCR, which determines the localities from which it may be changed.
#[derive(Clone, Copy, PartialEq, Eq)]
pub enum PcrUse {
    /// PCRs 0 to 15 measure the platform's startup. They may be extended from any locality, and
    /// never reset.
    Static,
    /// PCR 16 is for debugging. It may be extended and reset from any locality.
    Debug,
    /// PCRs 17 to 22 measure a dynamic launch. They may be extended from localities 2 to 4, and
    /// reset from locality 4.
    Dynamic,
    /// PCR 23 is for applications. It may be extended and reset from any locality.
    Application,
}

impl PcrUse {
    /// The use of this PCR.
    pub fn of(pcr: PcrIndex) -> PcrUse
        ensures { result ≡ use_of pcr }
    {
        match pcr.number() {
            0..=15 => PcrUse::Static,
            16 => PcrUse::Debug,
            17..=22 => PcrUse::Dynamic,
            _ => PcrUse::Application,
        }
    }

    /// Whether PCRs with this use may be extended from this locality.
    pub fn may_extend(self, locality: Locality) -> bool
        ensures { result ≡ may_extend self (locality_number locality) }
    {
        match self {
            PcrUse::Static | PcrUse::Debug | PcrUse::Application => true,
            PcrUse::Dynamic => locality.number() >= 2,
        }
    }

    /// Whether PCRs with this use may be reset from this locality.
    pub fn may_reset(self, locality: Locality) -> bool
        ensures { result ≡ may_reset self (locality_number locality) }
    {
        match self {
            PcrUse::Static => false,
            PcrUse::Debug | PcrUse::Application => true,
            PcrUse::Dynamic => locality.number() == 4,
        }
    }
}

/// The digests of an event's data, one for each bank.
pub fn event_digests(event: &[u8]) -> DigestValues
    ensures { result.values.items ≡ event_digests event.now }
{
    let mut sha1 = [0; 20];
    sha1.copy_from_slice(digest_parts(HashAlg::Sha1, &[event]).as_slice());
    let mut sha256 = [0; 32];
    sha256.copy_from_slice(digest_parts(HashAlg::Sha256, &[event]).as_slice());
    let mut values = ArrayVec::new();
    values.push(DigestValue::Sha1(sha1));
    values.push(DigestValue::Sha256(sha256));
    DigestValues { values }
}

fn hash_of_two<'a>(hash: HashAlg, first: &'a [u8], second: &'a [u8]) -> Digest
    ensures value { result.items ≡ hash_of hash (first.now ++ second.now) }
    ensures size { length result.items ≡ digest_size hash }
{
    digest_parts(hash, &[first, second])
}

fn check(banks: &Banks, may: bool, updates: u64) -> Result<(), ChangeFault>
    requires { updates < 2 ^ 32 }
    ensures { result ≡ change_check may updates banks.now }
{
    if !may {
        return Err(ChangeFault::Locality);
    }
    if banks.update_count() > u64::MAX - updates {
        return Err(ChangeFault::Failure);
    }
    Ok(())
}

impl Banks {
    /// Extends a PCR with each digest in turn (TPM2_PCR_Extend). Returns `Locality` if the PCR may
    /// not be extended from this locality, or else `Failure` if the update counter would overflow.
    #[tactic(auto, unfolding(crate::specs::Changes::extend_of))]
    pub fn extend(
        &mut self,
        pcr: PcrIndex,
        locality: Locality,
        digests: &DigestValues,
    ) -> Result<(), ChangeFault>
        ensures { ChangesBanks
            (extend_of pcr (locality_number locality) digests.now.values.items self.old)
            self.old result self.new }
    {
        let values = digests.values.as_slice();
        check(
            self,
            PcrUse::of(pcr).may_extend(locality),
            values.len() as u64,
        )?;
        self.extend_all(pcr, values);
        Ok(())
    }

    /// Extends a PCR with the digests of the data (TPM2_PCR_Event), and returns the digests.
    /// Returns the same faults as `extend`.
    pub fn event(
        &mut self,
        pcr: PcrIndex,
        locality: Locality,
        event: &[u8],
    ) -> Result<DigestValues, ChangeFault>
        ensures { AnswersDigests (event_digests event.now)
            (extend_of pcr (locality_number locality) (event_digests event.now) self.old)
            self.old result self.new }
    {
        let digests = event_digests(event);
        self.extend(pcr, locality, &digests)?;
        Ok(digests)
    }

    /// Sets a PCR to zeros in both banks (TPM2_PCR_Reset). Returns `Locality` if the PCR may not be
    /// reset from this locality, or else `Failure` if the update counter would overflow.
    #[tactic(auto, unfolding(crate::specs::Changes::reset_of))]
    pub fn reset(&mut self, pcr: PcrIndex, locality: Locality) -> Result<(), ChangeFault>
        ensures { ChangesBanks (reset_of pcr (locality_number locality) self.old)
            self.old result self.new }
    {
        check(self, PcrUse::of(pcr).may_reset(locality), 2)?;
        self.write_sha1(pcr, [0; 20]);
        self.write_sha256(pcr, [0; 32]);
        Ok(())
    }

    /// Counts a TPM2_Clear as an update, although it changes no value. Returns `Failure` if the
    /// update counter would overflow.
    #[tactic(auto, unfolding(crate::specs::Changes::clear_counted))]
    pub fn count_clear(&mut self) -> Result<(), ChangeFault>
        ensures { ChangesBanks (clear_counted self.old) self.old result self.new }
    {
        check(self, true, 1)?;
        self.count_update();
        Ok(())
    }

    fn extend_all(&mut self, pcr: PcrIndex, digests: &[DigestValue])
        requires { self.old.update_count + length digests.now < 2 ^ 64 }
        ensures { self.new ≡ fold (with_extension pcr) self.old digests.now }
    {
        for digest in digests {
            self.extend_by(pcr, digest);
        }
    }

    #[tactic(auto, unfolding(crate::specs::Changes::with_extension))]
    fn extend_by(&mut self, pcr: PcrIndex, digest: &DigestValue)
        requires { self.old.update_count < 2 ^ 64 - 1 }
        ensures { self.new ≡ with_extension pcr self.old digest.now }
    {
        let old = self.value(digest.hash(), pcr);
        let value = hash_of_two(digest.hash(), old.as_slice(), digest.digest());
        match digest {
            DigestValue::Sha1(_) => {
                let mut octets = [0; 20];
                octets.copy_from_slice(value.as_slice());
                self.write_sha1(pcr, octets);
            }
            DigestValue::Sha256(_) => {
                let mut octets = [0; 32];
                octets.copy_from_slice(value.as_slice());
                self.write_sha256(pcr, octets);
            }
        }
    }
}

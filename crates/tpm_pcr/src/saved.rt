//! The values of PCRs 0 to 15 that TPM2_Shutdown(STATE) saves for TPM2_Startup(STATE).

ghost use Rattle.std.specs.Prelude.{◌≡◌, ◌<◌, slice_set};
ghost use Rattle.tpm_pcr.specs.Saved.{IsSavedBank};

use std::marker::Model;

/// The values of PCRs 0 to 15 in each bank that TPM2_Shutdown(STATE) saves for
/// TPM2_Startup(STATE).
#[derive(Drop)]
pub struct SavedPcrs {
    pub(crate) sha1: [[u8; 20]; 16],
    pub(crate) sha256: [[u8; 32]; 16],
    ghost is_sha1: { IsSavedBank 20 sha1 },
    ghost is_sha256: { IsSavedBank 32 sha256 },
}

impl Model for SavedPcrs {
    ghost use Rattle.tpm_pcr.specs.Saved.{SavedValues};

    ghost Value = { SavedValues };

    ghost view = { λ s. record { sha1 = s.sha1; sha256 = s.sha256 } };
}

impl SavedPcrs {
    ghost use Rattle.tpm_pcr.specs.Saved.{IsSaved, no_values};

    /// The initial saved values, which are all zeros.
    pub fn new() -> SavedPcrs
        ensures { result ≡ no_values }
    {
        SavedPcrs {
            sha1: [[0; 20]; 16],
            sha256: [[0; 32]; 16],
        }
    }

    /// Sets the saved value of a PCR in the SHA-1 bank.
    pub fn set_sha1(&mut self, place: usize, value: [u8; 20])
        requires { place < 16 }
        ensures { self.new ≡ record self.old { sha1 = slice_set self.old.sha1 place value } }
    {
        self.sha1[place] = value;
    }

    /// Sets the saved value of a PCR in the SHA-256 bank.
    pub fn set_sha256(&mut self, place: usize, value: [u8; 32])
        requires { place < 16 }
        ensures { self.new ≡ record self.old { sha256 = slice_set self.old.sha256 place value } }
    {
        self.sha256[place] = value;
    }

    /// The saved values in the SHA-1 bank.
    pub fn sha1(&self) -> &[[u8; 20]; 16]
        ensures { result.now ≡ self.now.sha1 }
    {
        &self.sha1
    }

    /// The saved values in the SHA-256 bank.
    pub fn sha256(&self) -> &[[u8; 32]; 16]
        ensures { result.now ≡ self.now.sha256 }
    {
        &self.sha256
    }

    /// States that each bank contains sixteen values, each as long as a digest of the bank's
    /// algorithm. This function is only a proof: it has no effect at run time.
    #[inline(always)]
    pub fn read_sizes(&self)
        ensures { IsSaved self.now }
    {
        let _bank = &self.sha1;
    }
}

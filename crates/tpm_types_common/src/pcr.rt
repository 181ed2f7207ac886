//! The numbers of PCRs, 0 to 23, and selections of PCRs in one bank (TPM 2.0 Library, Part 2,
//! section 10.6.2).

ghost use Rattle.std.specs.Prelude.{◌≡◌, ◌<◌, ◌^◌, ℕ};

use std::marker::Model;

/// The number of PCRs in a bank.
pub const PCR_COUNT: u8 = 24;

/// The number of octets in a selection of PCRs.
pub const SELECT_SIZE: u8 = 3;

/// The number of a PCR, 0 to 23 (Part 1, section 17).
#[derive(Clone, Copy, PartialEq, Eq)]
pub struct PcrIndex {
    number: u8,
}

impl Model for PcrIndex {
    ghost Value = { ℕ };

    ghost view = { λ p. p.number };

    ghost invariant = { λ p. p.number < 24 };

    ghost inverse = { λ n. record { number = n } };
}

impl PcrIndex {
    ghost use Rattle.tpm_types_common.specs.Pcr.{SomePcr};

    /// The PCR with this number, or None if the number is over 23.
    pub fn new(number: u8) -> Option<PcrIndex>
        ensures { SomePcr number result }
    {
        if number < PCR_COUNT {
            Some(PcrIndex { number })
        } else {
            None
        }
    }

    /// The number of the PCR, 0 to 23.
    pub fn number(self) -> u8
        ensures value { result ≡ self }
        ensures in_range { result < 24 }
    {
        self.number
    }
}

/// The selected PCRs of a bank: `pcrSelect` of TPMS_PCR_SELECTION (Part 2, section 10.6.2).
/// Contracts represent it by a number whose bit n stands for PCR n.
#[derive(Clone, Copy, PartialEq, Eq)]
pub struct PcrSelect {
    bits: u32,
}

impl Model for PcrSelect {
    ghost Value = { ℕ };

    ghost view = { λ s. s.bits };

    ghost invariant = { λ s. s.bits < 2 ^ 24 };

    ghost inverse = { λ n. record { bits = n } };
}

impl PcrSelect {
    ghost use Rattle.tpm_types_common.specs.Pcr.{is_selected, select_of, select_text, with_pcr};

    /// The empty selection.
    pub fn none() -> PcrSelect
        ensures { result ≡ 0 }
    {
        PcrSelect { bits: 0 }
    }

    /// The PCRs that these three octets select.
    pub fn from_octets(octets: [u8; 3]) -> PcrSelect
        ensures { result ≡ select_of octets }
    {
        PcrSelect {
            bits: u32::from_le_bytes([octets[0], octets[1], octets[2], 0]),
        }
    }

    /// The three octets that select these PCRs.
    pub fn octets(self) -> [u8; 3]
        ensures { result ≡ select_text self }
    {
        let octets = self.bits.to_le_bytes();
        [octets[0], octets[1], octets[2]]
    }

    /// Whether the PCR is selected.
    #[tactic(auto, using(std::proofs::lemmas::Nat::Bits::shr_and_one))]
    pub fn contains(self, pcr: PcrIndex) -> bool
        ensures { result ≡ is_selected self pcr }
    {
        (self.bits >> pcr.number()) & 1 == 1
    }

    /// Adds a PCR to the selection.
    pub fn insert(&mut self, pcr: PcrIndex)
        ensures { self.new ≡ with_pcr self.old pcr }
    {
        self.bits |= 1 << pcr.number();
    }
}

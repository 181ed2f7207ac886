//! The PCR banks: the value of each PCR for each hash algorithm, the update counter, and how
//! values are read, hashed, saved and restored.

ghost use Rattle.std.specs.Prelude.{◌≡◌, ◌+◌, ◌-◌, [], ◌∷◌, ◌++◌, ◌&&◌, nat_lt, if◌then◌else◌};
ghost use Rattle.std.specs.Prelude.{◌<◌, ◌^◌, length, take, replicate, slice_set};
ghost use Rattle.std.specs.List.{concat, flat_map};
ghost use Rattle.tpm_types_common.specs.Pcr.{is_selected, with_pcr};
ghost use Rattle.tpm_types_common.specs.DigestList.{digests_of};
ghost use Rattle.tpm_mac.specs.Digest.{digest_size};
ghost use Rattle.tpm_mac.specs.Hasher.{Takes};
ghost use Rattle.tpm_mac.specs.declared.algorithm.HashAlg.TheVariants.{Sha1, Sha256};
ghost use Rattle.tpm_pcr.specs.Changes.{with_value};
ghost use Rattle.tpm_pcr.specs.Values.{IsBank};
ghost use Rattle.tpm_pcr.specs.Banks.{answer_selection, new_banks, pcr_value, read_values};
ghost use Rattle.tpm_pcr.specs.Banks.{select_digest_of, select_with, selected_pcrs};
ghost use Rattle.tpm_pcr.specs.Banks.{selected_values};
ghost use Rattle.tpm_pcr.specs.Saved.{restored_in, saved_of};

use crate::saved::SavedPcrs;
use arrayvec::ArrayVec;
use std::marker::Model;
use tpm_bytes::append;
use tpm_mac::{Digest, HashAlg, Hasher};
use tpm_types_common::{BankSelection, DigestList, PCR_COUNT, PcrIndex, PcrSelect, PcrSelection};

/// The values of all PCRs, bank by bank, and the update counter.
#[derive(Drop)]
pub struct Banks {
    sha1: [[u8; 20]; 24],
    sha256: [[u8; 32]; 24],
    update_count: u64,
    ghost is_sha1: { IsBank 20 sha1 },
    ghost is_sha256: { IsBank 32 sha256 },
}

impl Model for Banks {
    ghost use Rattle.tpm_pcr.specs.Values.{BankValues};

    ghost Value = { BankValues };

    ghost view = { λ b.
        record { sha1 = b.sha1; sha256 = b.sha256; update_count = b.update_count } };
}

/// The result of reading PCRs: their values in the order of the selection, at most eight, and a
/// selection of exactly the PCRs that were read.
#[derive(Drop)]
pub struct PcrReading {
    pub selection: PcrSelection,
    pub values: DigestList,
}

impl Banks {
    ghost use Rattle.tpm_pcr.specs.Values.{IsBanks};

    /// The banks after manufacture and after a power cycle.
    #[tactic(auto, unfolding(crate::specs::Banks::all_pcrs, crate::specs::Banks::starting_values))]
    pub fn new() -> Banks
        ensures { result ≡ new_banks }
    {
        Banks {
            sha1: starting_values([0; 20], [0xff; 20]),
            sha256: starting_values([0; 32], [0xff; 32]),
            update_count: 0,
        }
    }

    /// The update counter: the number of values written to a bank since the last TPM2_Startup,
    /// plus one for each TPM2_Clear.
    pub fn update_count(&self) -> u64
        ensures value { result ≡ self.now.update_count }
        // Each bank contains 24 values, each as long as a digest of the bank's algorithm.
        ensures is_banks { IsBanks self.now }
    {
        self.update_count
    }

    /// The values of all PCRs in the SHA-1 bank.
    pub fn sha1(&self) -> &[[u8; 20]; 24]
        ensures { result.now ≡ self.now.sha1 }
    {
        &self.sha1
    }

    /// The values of all PCRs in the SHA-256 bank.
    pub fn sha256(&self) -> &[[u8; 32]; 24]
        ensures { result.now ≡ self.now.sha256 }
    {
        &self.sha256
    }

    /// Sets a PCR's value in the SHA-1 bank, without changing the update counter.
    pub fn put_sha1(&mut self, place: usize, value: [u8; 20])
        requires { place < 24 }
        ensures { self.new ≡ record self.old { sha1 = slice_set self.old.sha1 place value } }
    {
        self.sha1[place] = value;
    }

    /// Sets a PCR's value in the SHA-256 bank, without changing the update counter.
    pub fn put_sha256(&mut self, place: usize, value: [u8; 32])
        requires { place < 24 }
        ensures { self.new ≡ record self.old { sha256 = slice_set self.old.sha256 place value } }
    {
        self.sha256[place] = value;
    }

    /// Sets the update counter, without changing any PCR.
    pub fn set_update_count(&mut self, update_count: u64)
        ensures { self.new ≡ record self.old { update_count = update_count } }
    {
        self.update_count = update_count;
    }

    /// Sets a PCR's value in the SHA-1 bank and counts an update.
    pub(crate) fn write_sha1(&mut self, pcr: PcrIndex, value: [u8; 20])
        requires { self.old.update_count < 2 ^ 64 - 1 }
        ensures { self.new ≡ with_value Sha1 pcr value self.old }
    {
        self.sha1[usize::from(pcr.number())] = value;
        self.update_count += 1;
    }

    /// Sets a PCR's value in the SHA-256 bank and counts an update.
    pub(crate) fn write_sha256(&mut self, pcr: PcrIndex, value: [u8; 32])
        requires { self.old.update_count < 2 ^ 64 - 1 }
        ensures { self.new ≡ with_value Sha256 pcr value self.old }
    {
        self.sha256[usize::from(pcr.number())] = value;
        self.update_count += 1;
    }

    /// Counts one more update.
    pub(crate) fn count_update(&mut self)
        requires { self.old.update_count < 2 ^ 64 - 1 }
        ensures { self.new ≡ record self.old { update_count = self.old.update_count + 1 } }
    {
        self.update_count += 1;
    }

    /// Resets the update counter to zero, for a TPM2_Startup.
    pub fn restart_update_count(&mut self)
        ensures { self.new ≡ record self.old { update_count = 0 } }
    {
        self.update_count = 0;
    }

    /// The value of this PCR in this bank.
    pub fn value(&self, bank: HashAlg, pcr: PcrIndex) -> Digest
        ensures { result.items ≡ pcr_value self.now bank pcr }
    {
        let number = usize::from(pcr.number());
        let mut value = Digest::new();
        match bank {
            HashAlg::Sha1 => append(&mut value, &self.sha1[number]),
            HashAlg::Sha256 => append(&mut value, &self.sha256[number]),
        }
        value
    }
}

impl Banks {
    /// Reads the first eight PCRs in a selection (Part 3, section 22.4).
    pub fn read(&self, selection: &PcrSelection) -> PcrReading
        ensures selection { result.selection.banks.items
            ≡ answer_selection 8 selection.now.banks.items }
        ensures values { digests_of result.values.digests.items
            ≡ read_values self.now 8 selection.now.banks.items }
        ensures own { digests_of result.values.digests.items
            ≡ flat_map (selected_values self.now) result.selection.banks.items }
    {
        let mut values = ArrayVec::new();
        let mut banks = ArrayVec::new();
        for bank in selection.banks.as_slice() {
            let select = self.read_bank(bank, &mut values);
            let hash = bank.hash;
            banks.push(BankSelection { hash, select });
        }
        PcrReading {
            selection: PcrSelection { banks },
            values: DigestList { digests: values },
        }
    }

    /// Reads the PCRs in one bank's selection until there are eight values. Returns the selection
    /// of the PCRs that were read.
    fn read_bank(&self, bank: &BankSelection, values: &mut ArrayVec<Digest, 8>) -> PcrSelect
        ensures select { result
            ≡ select_with (take (8 - length values.old.items) (selected_pcrs bank.now)) }
        ensures values { digests_of values.new.items
            ≡ digests_of values.old.items
            ++ take (8 - length values.old.items) (selected_values self.now bank.now) }
    {
        let mut select = PcrSelect::none();
        for number in 0..PCR_COUNT {
            let pcr = PcrIndex::new(number).unwrap();
            self.read_pcr(bank, pcr, &mut select, values);
        }
        select
    }

    /// Reads one PCR if it is selected and fewer than eight values have been read.
    fn read_pcr(
        &self,
        bank: &BankSelection,
        pcr: PcrIndex,
        select: &mut PcrSelect,
        values: &mut ArrayVec<Digest, 8>,
    )
        ensures select { select.new
            ≡ (if is_selected bank.now.select pcr && nat_lt (length values.old.items) 8
            then with_pcr select.old pcr else select.old) }
        ensures values { digests_of values.new.items
            ≡ (if is_selected bank.now.select pcr && nat_lt (length values.old.items) 8
            then digests_of values.old.items ++ pcr_value self.now bank.now.hash pcr ∷ []
            else digests_of values.old.items) }
    {
        if bank.select.contains(pcr) && !values.is_full() {
            select.insert(pcr);
            values.push(self.value(bank.hash, pcr));
        }
    }
}

impl Banks {
    /// The digest of the values of all PCRs in a selection, in the selection's order and without a
    /// limit on their number (Part 3, section 23.7). Copies only one value at a time.
    #[tactic(auto, unfolding(crate::specs::Banks::select_digest_of))]
    pub fn select_digest(&self, hash: HashAlg, selection: &PcrSelection) -> Digest
        ensures value { result.items
            ≡ select_digest_of self.now hash selection.now.banks.items }
        ensures size { length result.items ≡ digest_size hash }
    {
        let mut hasher = Hasher::new(hash);
        for bank in selection.banks.as_slice() {
            self.hash_bank(bank, &mut hasher);
        }
        hasher.finish()
    }

    /// Feeds the values of one bank's selection to the hasher.
    fn hash_bank(&self, bank: &BankSelection, hasher: &mut Hasher)
        ensures { Takes hasher.old (concat (selected_values self.now bank.now)) hasher.new }
    {
        for number in 0..PCR_COUNT {
            let pcr = PcrIndex::new(number).unwrap();
            self.hash_pcr(bank, pcr, hasher);
        }
    }

    /// Feeds the value of one PCR to the hasher, if the PCR is selected.
    fn hash_pcr(&self, bank: &BankSelection, pcr: PcrIndex, hasher: &mut Hasher)
        ensures { Takes hasher.old
            (if is_selected bank.now.select pcr then pcr_value self.now bank.now.hash pcr else [])
            hasher.new }
    {
        if bank.select.contains(pcr) {
            hasher.update(self.value(bank.hash, pcr).as_slice());
        }
    }
}

impl Banks {
    /// Saves the values of PCRs 0 to 15.
    pub fn save(&self, saved: &mut SavedPcrs)
        ensures { saved.new ≡ saved_of self.now }
    {
        let (mut sha1, mut sha256) = ([[0; 20]; 16], [[0; 32]; 16]);
        sha1.copy_from_slice(&self.sha1[..16]);
        sha256.copy_from_slice(&self.sha256[..16]);
        saved.sha1 = sha1;
        saved.sha256 = sha256;
    }

    /// Sets PCRs 0 to 15 to the saved values. The other PCRs and the update counter do not change.
    pub fn restore(&mut self, saved: &SavedPcrs)
        ensures { self.new ≡ restored_in saved.now self.old }
    {
        let (mut sha1, mut sha256) = (self.sha1, self.sha256);
        sha1[..16].copy_from_slice(&saved.sha1);
        sha256[..16].copy_from_slice(&saved.sha256);
        self.sha1 = sha1;
        self.sha256 = sha256;
    }
}

/// The starting value of each PCR: `high` for PCRs 17 to 22 until a dynamic launch, and `low` for
/// all other PCRs.
fn starting_values<T: Copy>(low: T, high: T) -> [T; 24]
    ensures { result ≡ replicate 17 low ++ replicate 6 high ++ low ∷ [] }
{
    [
        low, low, low, low, low, low, low, low, low, low, low, low, low, low, low, low, low, high,
        high, high, high, high, high, low,
    ]
}

//! Reads and writes selections of PCRs in one or several banks (TPML_PCR_SELECTION; TPM 2.0
//! Library, Part 2, section 10.9.7).

ghost use Rattle.std.specs.Prelude.{◌≡◌, ◌+◌, ◌*◌, ◌≤◌, ◌<◌, ℕ, List, ◌++◌, length, IfOk};
ghost use Rattle.tpm_bytes.specs.Reading.{AreBytes, Reads};
ghost use Rattle.tpm_bytes.specs.Writing.{Puts};
ghost use Rattle.tpm_types_common.specs.declared.pcr_selection.BankSelection.{BankSelection};

use crate::algorithm::{hash_number, read_hash};
use crate::pcr::{PcrSelect, SELECT_SIZE};
use crate::rc::{Rc, ResponseCode};
use arrayvec::ArrayVec;
use tpm_bytes::{Cursor, Full, Readable, Sink, read_many};
use tpm_mac::HashAlg;

/// The maximum number of banks in a selection.
pub const BANK_LIMIT: u32 = 16;

/// The selected PCRs of one bank: TPMS_PCR_SELECTION (Part 2, section 10.6.2).
#[derive(Clone, Copy, PartialEq, Eq)]
pub struct BankSelection {
    pub hash: HashAlg,
    pub select: PcrSelect,
}

impl Default for BankSelection {
    fn default() -> BankSelection
        ensures { result ≡ record { hash = HashAlg.Sha256; select = 0 } }
    {
        BankSelection {
            hash: HashAlg::Sha256,
            select: PcrSelect::none(),
        }
    }
}

impl BankSelection {
    ghost use Rattle.tpm_types_common.specs.PcrSelection.{bank_at, bank_text};

    /// Reads the PCR selection for one bank. Fails with INSUFFICIENT if it is truncated, with HASH
    /// if its algorithm is not supported, or with VALUE if it is not three octets long.
    #[tactic(auto, unfolding(crate::specs::PcrSelection::bank_at))]
    pub fn read(text: &mut Cursor) -> Result<BankSelection, Rc>
        ensures { Reads (λ bank. bank) (bank_at text.old) text.old result text.new }
    {
        let mut ahead = Cursor::new(text.rest());
        let hash = read_hash(&mut ahead)?;
        let Ok(size) = ahead.u8() else {
            return Err(ResponseCode::Insufficient.anywhere());
        };
        if size != SELECT_SIZE {
            return Err(ResponseCode::Value.anywhere());
        }
        let Ok(octets) = ahead.take(3) else {
            return Err(ResponseCode::Insufficient.anywhere());
        };
        let select = PcrSelect::from_octets([octets[0], octets[1], octets[2]]);
        *text = ahead;
        Ok(BankSelection { hash, select })
    }

    /// Appends the encoded selection, which is six bytes long. If it does not fit, writes nothing
    /// and returns an error.
    #[tactic(auto, unfolding(crate::specs::PcrSelection::bank_text))]
    pub fn write<const N: usize>(&self, sink: &mut Sink<N>) -> Result<(), Full>
        ensures { Puts N (bank_text self.now) sink.old result sink.new }
    {
        if N - sink.len() < 6 {
            return Err(Full);
        }
        self.append_to(sink);
        Ok(())
    }

    /// Appends the encoded selection. The sink must have room for six bytes.
    #[tactic(auto, unfolding(crate::specs::PcrSelection::bank_text))]
    pub fn append_to<const N: usize>(&self, sink: &mut Sink<N>)
        requires { length sink.old + 6 ≤ N }
        ensures { sink.new ≡ sink.old ++ bank_text self.now }
    {
        sink.append_u16(hash_number(self.hash));
        sink.append_u8(SELECT_SIZE);
        sink.append(&self.select.octets());
    }
}

impl<'a> Readable<'a> for BankSelection {
    ghost use Rattle.tpm_types_common.specs.PcrSelection.{bank_at};

    type Fault = Rc;

    ghost Seen = { BankSelection };

    ghost seen = { λ bank. bank };

    ghost at = { bank_at };

    fn read(text: &mut Cursor<'a>) -> Result<BankSelection, Rc> {
        BankSelection::read(text)
    }
}

/// The selected PCRs of up to sixteen banks, in the order of the request: TPML_PCR_SELECTION (Part
/// 2, section 10.9.7).
#[derive(Drop)]
pub struct PcrSelection {
    pub banks: ArrayVec<BankSelection, 16>,
}

impl PcrSelection {
    ghost use Rattle.std.specs.Prelude.{Ok};
    ghost use Rattle.tpm_types_common.specs.PcrSelection.{IsSelection, selection_at, selection_text};

    /// Reads a PCR selection. Fails with INSUFFICIENT if it is truncated, with SIZE if it names
    /// more than sixteen banks, or else with the first fault of a bank.
    pub fn read(text: &mut Cursor) -> Result<PcrSelection, Rc>
        // The result is the decoded value, or the first fault.
        ensures exact { Reads (λ selection. selection.banks.items) (selection_at text.old)
            text.old result text.new }
        // If decoding succeeds, the input starts with the encoding of the returned value.
        ensures found { IfOk result (λ selection. IsSelection selection.banks.items
            × (text.old ≡ selection_text selection.banks.items ++ text.new)) }
        // The encoding of a value decodes to that value, whatever bytes follow.
        ensures only { (banks : List BankSelection) (rest : List ℕ) → IsSelection banks
            → text.old ≡ selection_text banks ++ rest
            → Reads (λ selection. selection.banks.items) (Ok (banks, rest))
            text.old result text.new }
    {
        PcrSelection::read_fields(text)
    }

    #[tactic(auto, unfolding(crate::specs::PcrSelection::selection_at))]
    fn read_fields(text: &mut Cursor) -> Result<PcrSelection, Rc>
        ensures exact { Reads (λ selection. selection.banks.items) (selection_at text.old)
            text.old result text.new }
        ensures bytes { AreBytes text.old }
    {
        let mut ahead = Cursor::new(text.rest());
        let Ok(count) = ahead.u32() else {
            return Err(ResponseCode::Insufficient.anywhere());
        };
        if count > BANK_LIMIT {
            return Err(ResponseCode::Size.anywhere());
        }
        let banks = read_many(&mut ahead, count as usize)?;
        *text = ahead;
        Ok(PcrSelection { banks })
    }

    /// Appends the encoded selection, which is at most 100 bytes long. If it does not fit, writes
    /// nothing and returns an error.
    pub fn write<const N: usize>(&self, sink: &mut Sink<N>) -> Result<(), Full>
        ensures written { Puts N (selection_text self.now.banks.items) sink.old result sink.new }
        ensures small { length (selection_text self.now.banks.items) ≤ 100 }
    {
        let banks = self.banks.as_slice();
        if N - sink.len() < 4 + 6 * banks.len() {
            return Err(Full);
        }
        append_selection(banks, sink);
        Ok(())
    }

    /// Appends the encoded selection. The sink must have room for the longest encoding, 100 bytes.
    pub fn append_to<const N: usize>(&self, sink: &mut Sink<N>)
        requires { length sink.old + 100 ≤ N }
        ensures written { sink.new ≡ sink.old ++ selection_text self.now.banks.items }
        ensures small { length sink.new ≤ length sink.old + 100 }
    {
        append_selection(self.banks.as_slice(), sink);
    }
}

ghost use Rattle.tpm_types_common.specs.PcrSelection.{banks_text, selection_text};

/// Appends the number of banks, then the PCR selection for each bank.
#[tactic(auto, using(crate::proofs::BanksLemmas::writing_banks))]
fn append_selection<const N: usize>(banks: &[BankSelection], sink: &mut Sink<N>)
    requires few { length banks.now ≤ 16 }
    requires room { length sink.old + (4 + 6 * length banks.now) ≤ N }
    ensures written { sink.new ≡ sink.old ++ selection_text banks.now }
    ensures size { length sink.new ≡ length sink.old + (4 + 6 * length banks.now) }
{
    sink.append_u32(banks.len() as u32);
    append_banks(banks, sink);
}

#[tactic(auto, using(crate::proofs::BanksLemmas::writing_banks))]
fn append_banks<const N: usize>(banks: &[BankSelection], sink: &mut Sink<N>)
    requires { length sink.old + 6 * length banks.now ≤ N }
    ensures written { sink.new ≡ sink.old ++ banks_text banks.now }
    ensures size { length sink.new ≡ length sink.old + 6 * length banks.now }
{
    for bank in banks {
        bank.append_to(sink);
    }
}

//! The PCR banks in a state text.

ghost use Rattle.std.specs.Prelude.{◌≡◌, ◌≤◌, ◌+◌, ◌*◌, ◌++◌, length};
ghost use Rattle.tpm_bytes.specs.Reading.{Reads};
ghost use Rattle.tpm_image_text.specs.Sizes.{text_size};
ghost use Rattle.tpm_state_text.specs.Banks.{bank_in, bank_text, banks_in, banks_text};
ghost use Rattle.tpm_state_text.specs.Sizes.{banks_size};

use tpm_bytes::Cursor;
use tpm_image_text::{Malformed, Text, read_array, read_u64, write_array, write_u64};
use tpm_pcr::Banks;

/// Reads the values of the SHA-1 bank and overwrites those in `banks`.
#[tactic(auto, using(crate::proofs::Loops::bank_laws))]
fn read_sha1(banks: &mut Banks, text: &mut Cursor) -> Result<(), Malformed>
    ensures values { Reads (λ done. banks.new.sha1) (bank_in 20 text.old) text.old
        result text.new }
    ensures sha256 { banks.new.sha256 ≡ banks.old.sha256 }
    ensures count { banks.new.update_count ≡ banks.old.update_count }
{
    let _count = banks.update_count();
    let mut ahead = Cursor::new(text.rest());
    for place in 0..24 {
        banks.put_sha1(place, read_array(&mut ahead)?);
    }
    *text = ahead;
    Ok(())
}

/// Reads the values of the SHA-256 bank and overwrites those in `banks`.
#[tactic(auto, using(crate::proofs::Loops::bank_laws))]
fn read_sha256(banks: &mut Banks, text: &mut Cursor) -> Result<(), Malformed>
    ensures values { Reads (λ done. banks.new.sha256) (bank_in 32 text.old) text.old
        result text.new }
    ensures sha1 { banks.new.sha1 ≡ banks.old.sha1 }
    ensures count { banks.new.update_count ≡ banks.old.update_count }
{
    let _count = banks.update_count();
    let mut ahead = Cursor::new(text.rest());
    for place in 0..24 {
        banks.put_sha256(place, read_array(&mut ahead)?);
    }
    *text = ahead;
    Ok(())
}

/// Reads the banks and their update counter.
#[tactic(auto, unfolding(crate::specs::Banks::banks_in))]
pub fn read_banks(text: &mut Cursor) -> Result<Banks, Malformed>
    ensures { Reads (λ banks. banks) (banks_in text.old) text.old result text.new }
{
    let mut ahead = Cursor::new(text.rest());
    let mut banks = Banks::new();
    read_sha1(&mut banks, &mut ahead)?;
    read_sha256(&mut banks, &mut ahead)?;
    banks.set_update_count(read_u64(&mut ahead)?);
    *text = ahead;
    Ok(banks)
}

fn write_bank<const N: usize>(values: &[[u8; N]; 24], text: &mut Text)
    requires few { N ≤ 32 }
    requires room { length text.old + 24 * N ≤ text_size }
    ensures written { text.new ≡ text.old ++ bank_text values.now }
    ensures small { length text.new ≡ length text.old + 24 * N }
{
    for value in values {
        write_array(value, text);
    }
}

/// Writes the banks and their update counter.
#[tactic(auto, unfolding(crate::specs::Banks::banks_text))]
pub fn write_banks(banks: &Banks, text: &mut Text)
    requires { length text.old + banks_size ≤ text_size }
    ensures written { text.new ≡ text.old ++ banks_text banks.now }
    ensures small { length text.new ≡ length text.old + banks_size }
{
    write_bank(banks.sha1(), text);
    write_bank(banks.sha256(), text);
    write_u64(banks.update_count(), text);
}

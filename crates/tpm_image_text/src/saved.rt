//! Reads and writes the part of an image that contains the state saved by the last TPM2_Shutdown.

ghost use Rattle.tpm_image_text.specs.Sizes.{text_size};
ghost use Rattle.std.specs.Prelude.{◌≡◌, ◌≤◌, ◌+◌, ◌*◌, ◌++◌, length};
ghost use Rattle.std.specs.List.{flat_map};
ghost use Rattle.tpm_bytes.specs.Reading.{Reads};
ghost use Rattle.tpm_image_text.specs.Body.{bank_in, saved_in, saved_text, values_in, values_text};

use crate::fault::Malformed;
use crate::fields::{Text, read_array, read_u8, write_array};
use tpm_bytes::Cursor;
use tpm_pcr::SavedPcrs;
use tpm_record::{Saved, SavedKind};

/// Reads the values of the SHA-1 bank, and stores them in `values`.
#[tactic(auto, using(crate::proofs::BankLaws::bank_laws))]
fn read_sha1(values: &mut SavedPcrs, text: &mut Cursor) -> Result<(), Malformed>
    ensures values { Reads (λ done. values.new.sha1) (bank_in 20 text.old)
        text.old result text.new }
    ensures others { values.new.sha256 ≡ values.old.sha256 }
{
    values.read_sizes();
    let mut ahead = Cursor::new(text.rest());
    for place in 0..16 {
        values.set_sha1(place, read_array(&mut ahead)?);
    }
    *text = ahead;
    Ok(())
}

/// Reads the values of the SHA-256 bank, and stores them in `values`.
#[tactic(auto, using(crate::proofs::BankLaws::bank_laws))]
fn read_sha256(values: &mut SavedPcrs, text: &mut Cursor) -> Result<(), Malformed>
    ensures values { Reads (λ done. values.new.sha256) (bank_in 32 text.old) text.old
        result text.new }
    ensures others { values.new.sha1 ≡ values.old.sha1 }
{
    values.read_sizes();
    let mut ahead = Cursor::new(text.rest());
    for place in 0..16 {
        values.set_sha256(place, read_array(&mut ahead)?);
    }
    *text = ahead;
    Ok(())
}

#[tactic(auto, unfolding(crate::specs::Body::values_in))]
fn read_values(text: &mut Cursor) -> Result<SavedPcrs, Malformed>
    ensures { Reads (λ values. values) (values_in text.old) text.old result text.new }
{
    let mut ahead = Cursor::new(text.rest());
    let mut values = SavedPcrs::new();
    read_sha1(&mut values, &mut ahead)?;
    read_sha256(&mut values, &mut ahead)?;
    *text = ahead;
    Ok(values)
}

/// Reads what the latest TPM2_Shutdown saved.
#[tactic(auto, unfolding(crate::specs::Body::saved_in))]
pub fn read_saved(text: &mut Cursor) -> Result<Saved, Malformed>
    ensures { Reads (λ saved. saved) (saved_in text.old) text.old result text.new }
{
    let mut ahead = Cursor::new(text.rest());
    let saved = match read_u8(&mut ahead)? {
        0 => Saved::nothing(),
        1 => Saved::clear(),
        2 => Saved::state(read_values(&mut ahead)?),
        _ => return Err(Malformed),
    };
    *text = ahead;
    Ok(saved)
}

/// Writes the values of a bank.
fn write_bank<const N: usize>(values: &[[u8; N]; 16], text: &mut Text)
    requires few { N ≤ 32 }
    requires room { length text.old + 16 * N ≤ text_size }
    ensures written { text.new ≡ text.old ++ flat_map (λ value. value) values.now }
    ensures small { length text.new ≡ length text.old + 16 * N }
{
    for value in values {
        write_array(value, text);
    }
}

fn write_values(values: &SavedPcrs, text: &mut Text)
    requires { length text.old + 832 ≤ text_size }
    ensures written { text.new ≡ text.old ++ values_text values.now }
    ensures small { length text.new ≡ length text.old + 832 }
{
    write_bank(values.sha1(), text);
    write_bank(values.sha256(), text);
}

/// Writes the state that the last TPM2_Shutdown saved, at most 833 bytes.
#[tactic(auto, unfolding(crate::specs::Body::saved_text))]
pub fn write_saved(saved: &Saved, text: &mut Text)
    requires { length text.old + 833 ≤ text_size }
    ensures written { text.new ≡ text.old ++ saved_text saved.now }
    ensures small { length text.new ≤ length text.old + 833 }
{
    text.append_u8(match saved.kind() {
        SavedKind::Nothing => 0,
        SavedKind::Clear => 1,
        SavedKind::State => 2,
    });
    if let Some(values) = saved.values() {
        write_values(values, text);
    }
}

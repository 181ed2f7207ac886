//! Optional values in a state text: a byte that says whether there is a value, and the value.

ghost use Rattle.std.specs.Prelude.{◌≡◌, ◌≤◌, ◌+◌, ◌++◌, length, option_map};
ghost use Rattle.std.specs.Int.{w32, w64, to_be_bytes};
ghost use Rattle.tpm_bytes.specs.Reading.{Reads};
ghost use Rattle.tpm_bytes.specs.Writing.{sized_text};
ghost use Rattle.tpm_image_text.specs.Fields.{buffer_in, number_in, yes_no_in, yes_no_text};
ghost use Rattle.tpm_image_text.specs.Sizes.{text_size};
ghost use Rattle.tpm_state_text.specs.Places.{optional_in, optional_text};

use tpm_bytes::{Cursor, copied};
use tpm_image_text::{
    Malformed, Text, read_bool, read_sized, read_u32, read_u64, write_bool, write_sized, write_u32,
    write_u64,
};
use tpm_mac::Digest;

/// Reads an optional number: a byte that says whether there is a number, and then the number's
/// eight bytes.
pub fn read_optional_u64(text: &mut Cursor) -> Result<Option<u64>, Malformed>
    ensures { Reads (λ value. value) (optional_in (number_in w64) text.old) text.old
        result text.new }
{
    let mut ahead = Cursor::new(text.rest());
    let value = if read_bool(&mut ahead)? {
        Some(read_u64(&mut ahead)?)
    } else {
        None
    };
    *text = ahead;
    Ok(value)
}

/// Reads an optional number: a byte that says whether there is a number, and then the number's four
/// bytes.
pub fn read_optional_u32(text: &mut Cursor) -> Result<Option<u32>, Malformed>
    ensures { Reads (λ value. value) (optional_in (number_in w32) text.old) text.old
        result text.new }
{
    let mut ahead = Cursor::new(text.rest());
    let value = if read_bool(&mut ahead)? {
        Some(read_u32(&mut ahead)?)
    } else {
        None
    };
    *text = ahead;
    Ok(value)
}

/// Reads an optional bool: a byte that says whether there is a value, and then the value.
pub fn read_optional_bool(text: &mut Cursor) -> Result<Option<bool>, Malformed>
    ensures { Reads (λ value. value) (optional_in yes_no_in text.old) text.old result text.new }
{
    let mut ahead = Cursor::new(text.rest());
    let value = if read_bool(&mut ahead)? {
        Some(read_bool(&mut ahead)?)
    } else {
        None
    };
    *text = ahead;
    Ok(value)
}

/// Reads a digest as a sized buffer of at most 32 bytes.
pub fn read_digest(text: &mut Cursor) -> Result<Digest, Malformed>
    ensures { Reads (λ digest. digest.items) (buffer_in 32 text.old) text.old result text.new }
{
    let bytes = read_sized(text, 32)?;
    Ok(copied(bytes))
}

/// Reads an optional digest: a byte that says whether there is a digest, and then the sized digest.
pub fn read_optional_digest(text: &mut Cursor) -> Result<Option<Digest>, Malformed>
    ensures { Reads (λ value. option_map (λ digest. digest.items) value)
        (optional_in (buffer_in 32) text.old) text.old result text.new }
{
    let mut ahead = Cursor::new(text.rest());
    let value = if read_bool(&mut ahead)? {
        Some(read_digest(&mut ahead)?)
    } else {
        None
    };
    *text = ahead;
    Ok(value)
}

/// Writes an optional number: a byte that says whether there is a number, and then the number's
/// eight bytes.
pub fn write_optional_u64(value: Option<u64>, text: &mut Text)
    requires { length text.old + 9 ≤ text_size }
    ensures written { text.new ≡ text.old ++ optional_text (to_be_bytes w64) value }
    ensures small { length text.new ≤ length text.old + 9 }
{
    match value {
        Some(number) => {
            write_bool(true, text);
            write_u64(number, text);
        }
        None => write_bool(false, text),
    }
}

/// Writes an optional number: a byte that says whether there is a number, and then the number's
/// four bytes.
pub fn write_optional_u32(value: Option<u32>, text: &mut Text)
    requires { length text.old + 5 ≤ text_size }
    ensures written { text.new ≡ text.old ++ optional_text (to_be_bytes w32) value }
    ensures small { length text.new ≤ length text.old + 5 }
{
    match value {
        Some(number) => {
            write_bool(true, text);
            write_u32(number, text);
        }
        None => write_bool(false, text),
    }
}

/// Writes an optional bool: a byte that says whether there is a value, and then the value.
pub fn write_optional_bool(value: Option<bool>, text: &mut Text)
    requires { length text.old + 2 ≤ text_size }
    ensures written { text.new ≡ text.old ++ optional_text yes_no_text value }
    ensures small { length text.new ≤ length text.old + 2 }
{
    match value {
        Some(is_yes) => {
            write_bool(true, text);
            write_bool(is_yes, text);
        }
        None => write_bool(false, text),
    }
}

/// Writes an optional digest: a byte that says whether there is a digest, and then the sized
/// digest.
pub fn write_optional_digest(value: Option<&Digest>, text: &mut Text)
    requires { length text.old + 35 ≤ text_size }
    ensures written { text.new ≡ text.old
        ++ optional_text sized_text (option_map (λ digest. digest.now.items) value.entry) }
    ensures small { length text.new ≤ length text.old + 35 }
{
    match value {
        Some(digest) => {
            write_bool(true, text);
            write_sized(digest.as_slice(), 32, text);
        }
        None => write_bool(false, text),
    }
}

//! The fields of an image: their sizes, how they are read, and how they are written.

ghost use Rattle.tpm_image_text.specs.Sizes.{text_size};
ghost use Rattle.tpm_types_common.specs.Limits.{nv_space_limit};
ghost use Rattle.std.specs.Prelude.{◌≡◌, ◌≤◌, ◌+◌, ◌++◌, IfOk, length, true};
ghost use Rattle.tpm_types_common.specs.AuthValue.{trimmed};
ghost use Rattle.std.specs.Int.{w8, w16, w32, w64, to_be_bytes};
ghost use Rattle.tpm_bytes.specs.Reading.{Reads};
ghost use Rattle.tpm_bytes.specs.Writing.{sized_text};
ghost use Rattle.tpm_types_common.specs.Filled.{filled_by};
ghost use Rattle.tpm_image_text.specs.Fields.{auth_value_in, buffer_in, bytes_in, in_body, is_trimmed, number_in, yes_no_in, yes_no_text};

use crate::fault::Malformed;
use tpm_bytes::{Cursor, Readable, Sink};
use tpm_types_common::{
    AuthValue, NV_INDEX_LIMIT, NV_SPACE_LIMIT, PERSISTENT_LIMIT, Rc, read_buffer, read_filled,
    read_yes_no, trimmed,
};

/// The size of the encoded limits, in bytes.
const LIMITS_SIZE: usize = 6;

/// The largest size of the fixed part, in bytes.
const STATE_SIZE: usize = 1_269;

/// The largest size of the persistent objects, in bytes.
const OBJECTS_SIZE: usize = 2 + PERSISTENT_LIMIT * 330;

/// The largest size of the NV indices, in bytes.
const INDICES_SIZE: usize = 2 + NV_INDEX_LIMIT * 84 + NV_SPACE_LIMIT;

/// The largest size of what a state text contains in addition to the body of an image.
const MORE_SIZE: usize = 8_569;

/// The largest size of the body of an image or a state text, including the digest after it.
pub const TEXT_LIMIT: usize = LIMITS_SIZE
    + STATE_SIZE
    + OBJECTS_SIZE
    + INDICES_SIZE
    + MORE_SIZE
    + 32;

/// A body that is being written.
pub type Text = Sink<TEXT_LIMIT>;

/// Reads a byte.
pub fn read_u8(text: &mut Cursor) -> Result<u8, Malformed>
    ensures { Reads (λ number. number) (number_in w8 text.old) text.old result text.new }
{
    match text.u8() {
        Ok(number) => Ok(number),
        Err(_) => Err(Malformed),
    }
}

/// Reads a big-endian number of two bytes.
pub fn read_u16(text: &mut Cursor) -> Result<u16, Malformed>
    ensures { Reads (λ number. number) (number_in w16 text.old) text.old result text.new }
{
    match text.u16() {
        Ok(number) => Ok(number),
        Err(_) => Err(Malformed),
    }
}

/// Reads a big-endian number of four bytes.
pub fn read_u32(text: &mut Cursor) -> Result<u32, Malformed>
    ensures { Reads (λ number. number) (number_in w32 text.old) text.old result text.new }
{
    match text.u32() {
        Ok(number) => Ok(number),
        Err(_) => Err(Malformed),
    }
}

/// Reads a big-endian number of eight bytes.
pub fn read_u64(text: &mut Cursor) -> Result<u64, Malformed>
    ensures { Reads (λ number. number) (number_in w64 text.old) text.old result text.new }
{
    match text.u64() {
        Ok(number) => Ok(number),
        Err(_) => Err(Malformed),
    }
}

/// Reads a byte that is 0 (no) or 1 (yes). Any other byte is malformed.
pub fn read_bool(text: &mut Cursor) -> Result<bool, Malformed>
    ensures { Reads (λ is_yes. is_yes) (yes_no_in text.old) text.old result text.new }
{
    match read_yes_no(text) {
        Ok(is_yes) => Ok(is_yes),
        Err(_) => Err(Malformed),
    }
}

/// Reads `count` bytes.
pub fn read_bytes<'a>(text: &mut Cursor<'a>, count: usize) -> Result<&'a [u8], Malformed>
    ensures exact { Reads (λ bytes. bytes.now) (bytes_in count text.old) text.old result text.new }
    ensures size { IfOk result (λ bytes. length bytes.now ≡ count) }
{
    match text.take(count) {
        Ok(bytes) => Ok(bytes),
        Err(_) => Err(Malformed),
    }
}

/// Reads a digest or a secret of N bytes.
pub fn read_array<const N: usize>(text: &mut Cursor) -> Result<[u8; N], Malformed>
    ensures { Reads (λ bytes. bytes) (bytes_in N text.old) text.old result text.new }
{
    let bytes = read_bytes(text, N)?;
    let mut array = [0; N];
    array.copy_from_slice(bytes);
    Ok(array)
}

/// Reads a sized buffer of at most the given size.
pub fn read_sized<'a>(text: &mut Cursor<'a>, most: usize) -> Result<&'a [u8], Malformed>
    ensures exact { Reads (λ bytes. bytes.now) (buffer_in most text.old) text.old result text.new }
    ensures few { IfOk result (λ bytes. length bytes.now ≤ most) }
{
    match read_buffer(text, most) {
        Ok(bytes) => Ok(bytes),
        Err(_) => Err(Malformed),
    }
}

/// Whether bytes can be a stored authorization value: they do not end with a zero byte.
pub fn is_trimmed(bytes: &[u8]) -> bool
    ensures value { result ≡ is_trimmed bytes.now }
    ensures same { result ≡ true → trimmed bytes.now ≡ bytes.now }
{
    trimmed(bytes) == bytes
}

/// Reads an authorization value, which must not end with a zero byte.
#[tactic(auto, unfolding(crate::specs::Fields::auth_value_in))]
pub fn read_auth_value(text: &mut Cursor) -> Result<AuthValue, Malformed>
    ensures { Reads (λ value. value) (auth_value_in text.old) text.old result text.new }
{
    let mut ahead = Cursor::new(text.rest());
    let bytes = read_sized(&mut ahead, 32)?;
    if !is_trimmed(bytes) {
        return Err(Malformed);
    }
    *text = ahead;
    Ok(AuthValue::of(bytes))
}

/// Reads a structure that takes up a whole sized buffer.
pub fn read_structure<'a, T: Readable<'a, Fault = Rc> + Drop>(
    text: &mut Cursor<'a>,
) -> Result<T, Malformed>
    ensures { Reads T.seen (in_body (filled_by T.at) text.old) text.old result text.new }
{
    match read_filled(text) {
        Ok(structure) => Ok(structure),
        Err(_) => Err(Malformed),
    }
}

/// Writes the bytes of an array.
pub fn write_array<const N: usize>(bytes: &[u8; N], text: &mut Text)
    requires { length text.old + N ≤ text_size }
    ensures written { text.new ≡ text.old ++ bytes.now }
    ensures small { length text.new ≡ length text.old + N }
{
    text.append(bytes);
}

/// Writes a number as two bytes, big-endian.
pub fn write_u16(number: u16, text: &mut Text)
    requires { length text.old + 2 ≤ text_size }
    ensures written { text.new ≡ text.old ++ to_be_bytes w16 number }
    ensures small { length text.new ≡ length text.old + 2 }
{
    text.append_u16(number);
}

/// Writes a number as four bytes, big-endian.
pub fn write_u32(number: u32, text: &mut Text)
    requires { length text.old + 4 ≤ text_size }
    ensures written { text.new ≡ text.old ++ to_be_bytes w32 number }
    ensures small { length text.new ≡ length text.old + 4 }
{
    text.append_u32(number);
}

/// Writes a number as eight bytes, big-endian.
pub fn write_u64(number: u64, text: &mut Text)
    requires { length text.old + 8 ≤ text_size }
    ensures written { text.new ≡ text.old ++ to_be_bytes w64 number }
    ensures small { length text.new ≡ length text.old + 8 }
{
    text.append_u64(number);
}

/// Writes 1 for yes and 0 for no, as one byte.
pub fn write_bool(is_yes: bool, text: &mut Text)
    requires { length text.old + 1 ≤ text_size }
    ensures written { text.new ≡ text.old ++ yes_no_text is_yes }
    ensures small { length text.new ≡ length text.old + 1 }
{
    text.append_u8(u8::from(is_yes));
}

/// Writes a sized buffer of at most the given size.
pub fn write_sized(bytes: &[u8], most: usize, text: &mut Text)
    requires few { length bytes.now ≤ most }
    requires most { most ≤ nv_space_limit }
    requires room { length text.old + (2 + most) ≤ text_size }
    ensures written { text.new ≡ text.old ++ sized_text bytes.now }
    ensures small { length text.new ≤ length text.old + (2 + most) }
{
    text.append_sized(bytes);
}

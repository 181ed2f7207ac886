//! Finds the line that encodes a buffer: writes a line, assembles it again, and compares the result
//! with the buffer.

ghost use Rattle.std.specs.Prelude.{◌≡◌, IfOk, Ok, OnOk, true};
ghost use Rattle.std.specs.String.{string_bytes};
ghost use Rattle.tpm_text.specs.Line.{assembled_bytes};

use crate::entry::{put_area, put_handles};
use crate::fault::SpellFault;
use crate::parameter::put_parameters;
use arrayvec::ArrayString;
use std::alloc::Global;
use std::fmt::Write;
use tpm_bytes::Cursor;
use tpm_commands::{CommandCode, Profile};
use tpm_text::{Draft, assemble_in};
use tpm_types_command::Tag;

/// The largest size of a line in a script.
pub const LINE_LIMIT: usize = 65_536;

/// Returns a line that encodes this buffer. The error NoLine means that no line was found; the
/// contract does not say when that happens.
pub fn line_of(alloc: Global, buffer: &[u8]) -> Result<String, SpellFault>
    ensures { IfOk result (λ line. assembled_bytes (string_bytes line) ≡ Ok buffer.now) }
{
    let mut line = String::new(alloc);
    spell(buffer, &mut line)?;
    check(line.as_bytes(), buffer)?;
    Ok(line)
}

/// Writes a line that encodes this buffer, like [`line_of`], to the caller's memory. The error
/// NoMemory means that the line would be longer than LINE_LIMIT bytes.
pub fn write_line(buffer: &[u8], line: &mut ArrayString<LINE_LIMIT>) -> Result<(), SpellFault>
    ensures { OnOk result (assembled_bytes line.new.bytes ≡ Ok buffer.now) }
{
    line.clear();
    spell(buffer, line)?;
    check(line.as_str().as_bytes(), buffer)
}

/// Checks that a line encodes this buffer.
fn check(line: &[u8], buffer: &[u8]) -> Result<(), SpellFault>
    ensures { OnOk result (assembled_bytes line.now ≡ Ok buffer.now) }
{
    if is_spelled(line, buffer) {
        Ok(())
    } else {
        Err(SpellFault::NoLine)
    }
}

/// Whether a line encodes this buffer.
fn is_spelled(line: &[u8], buffer: &[u8]) -> bool
    ensures { result ≡ true → assembled_bytes line.now ≡ Ok buffer.now }
{
    let mut draft = Draft::new();
    match assemble_in(Profile::Symmetric, line, &mut draft) {
        Ok(bytes) => bytes == buffer,
        Err(_) => false,
    }
}

/// Writes the words for the parts of a buffer. Ignores any remaining bytes.
fn spell<W: Write>(buffer: &[u8], line: &mut W) -> Result<(), SpellFault> {
    let fields = &mut Cursor::new(buffer);
    let tag = fields.u16()?;
    let _size = fields.u32()?;
    let Some(code) = CommandCode::named(fields.u32()?) else {
        return Err(SpellFault::NoLine);
    };
    line.write_str(code.name())?;
    put_handles(code.shape().handles.len(), fields, line)?;
    if Tag::named(tag) == Some(Tag::Sessions) {
        put_area(fields, line)?;
    }
    put_parameters(code, fields, line)
}

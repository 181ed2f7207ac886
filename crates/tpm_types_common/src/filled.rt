//! Reads a structure that must fill its sized buffer (TPM2B; TPM 2.0 Library, Part 2, section
//! 10.4.1).

ghost use Rattle.std.specs.Prelude.{◌≡◌};
ghost use Rattle.tpm_bytes.specs.Reading.{AreBytes, Reads};
ghost use Rattle.tpm_types_common.specs.Filled.{filled_by, within_buffer};

use crate::buffer::read_buffer;
use crate::rc::{Rc, ResponseCode};
use tpm_bytes::{Cursor, Readable};

/// Maps a fault inside a sized buffer: INSUFFICIENT becomes SIZE, and other faults stay the same.
fn within_buffer(fault: Rc) -> Rc
    ensures { result ≡ record fault { code = within_buffer fault.code } }
{
    match fault.code {
        ResponseCode::Insufficient => Rc {
            code: ResponseCode::Size,
            place: fault.place,
        },
        _ => fault,
    }
}

/// Reads a structure that fills a sized buffer (TPM2B, Part 2, section 10.4.1). Fails with
/// INSUFFICIENT if the buffer is truncated, or with SIZE if the buffer is shorter or longer than
/// the structure. A fault in the structure has priority over surplus bytes.
#[tactic(auto, unfolding(crate::specs::Filled::filled_by))]
pub fn read_filled<'a, T: Readable<'a, Fault = Rc> + Drop>(text: &mut Cursor<'a>) -> Result<T, Rc>
    ensures exact { Reads T.seen (filled_by T.at text.old) text.old result text.new }
    // The input consists of bytes.
    ensures bytes { AreBytes text.old }
{
    let mut ahead = Cursor::new(text.rest());
    let mut buffer = Cursor::new(read_buffer(&mut ahead, 0xffff)?);
    let content = match T::read(&mut buffer) {
        Ok(content) => content,
        Err(fault) => return Err(within_buffer(fault)),
    };
    if !buffer.is_empty() {
        return Err(ResponseCode::Size.anywhere());
    }
    *text = ahead;
    Ok(content)
}

//! Reads a sized buffer (TPM2B) by borrowing its bytes from the input, without a copy. Also
//! defines the maximum size of a digest.

ghost use Rattle.std.specs.Prelude.{◌≤◌, IfOk, length};
ghost use Rattle.tpm_bytes.specs.Reading.{Reads};
ghost use Rattle.tpm_types_common.specs.Buffer.{buffer_at};

use crate::rc::{Rc, ResponseCode};
use tpm_bytes::{Cursor, SizedFault};

/// The maximum size in bytes of a digest, and therefore of a nonce and of an HMAC.
pub const DIGEST_LIMIT: usize = 32;

/// Reads a sized buffer of at most `limit` bytes (TPM2B of TPM 2.0 Library, Part 2, section 10.4).
/// Fails with SIZE if its size is over the limit, or else with INSUFFICIENT if it is truncated.
pub fn read_buffer<'a>(text: &mut Cursor<'a>, limit: usize) -> Result<&'a [u8], Rc>
    ensures exact { Reads (λ buffer. buffer.now) (buffer_at limit text.old) text.old
        result text.new }
    ensures fits { IfOk result (λ buffer. length buffer.now ≤ limit) }
{
    read_sized(text, limit)
}

#[tactic(auto, unfolding(crate::specs::Buffer::buffer_at))]
fn read_sized<'a>(text: &mut Cursor<'a>, limit: usize) -> Result<&'a [u8], Rc>
    ensures { Reads (λ buffer. buffer.now) (buffer_at limit text.old) text.old result text.new }
{
    match text.sized(limit) {
        Ok(bytes) => Ok(bytes),
        Err(SizedFault::TooLong) => Err(ResponseCode::Size.anywhere()),
        Err(SizedFault::Short) => Err(ResponseCode::Insufficient.anywhere()),
    }
}

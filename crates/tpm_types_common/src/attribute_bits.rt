//! Reads attributes that are stored as the bits of a 32-bit number (TPMA_OBJECT and TPMA_NV; TPM
//! 2.0 Library, Part 2, sections 8.3 and 13.4).

ghost use Rattle.std.specs.Prelude.{◌≡◌, bit_and, IfOk};
ghost use Rattle.tpm_bytes.specs.Reading.{Reads};
ghost use Rattle.tpm_types_common.specs.AttributeBits.{attribute_bits_at};

use crate::rc::{Rc, ResponseCode};
use tpm_bytes::Cursor;

/// Reads attributes. Fails with INSUFFICIENT if they are truncated, or with RESERVED_BITS if any of
/// the `reserved` bits is set.
#[tactic(auto, unfolding(crate::specs::AttributeBits::attribute_bits_at))]
pub fn read_attribute_bits(text: &mut Cursor, reserved: u32) -> Result<u32, Rc>
    ensures exact { Reads (λ bits. bits) (attribute_bits_at reserved text.old) text.old
        result text.new }
    ensures named { IfOk result (λ bits. bit_and bits reserved ≡ 0) }
{
    let mut ahead = Cursor::new(text.rest());
    let Ok(bits) = ahead.u32() else {
        return Err(ResponseCode::Insufficient.anywhere());
    };
    if bits & reserved != 0 {
        return Err(ResponseCode::ReservedBits.anywhere());
    }
    *text = ahead;
    Ok(bits)
}

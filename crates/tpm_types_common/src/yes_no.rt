//! Reads a yes-or-no value (TPMI_YES_NO; TPM 2.0 Library, Part 2, section 9.2).

ghost use Rattle.tpm_bytes.specs.Reading.{Reads};
ghost use Rattle.tpm_types_common.specs.YesNo.{yes_no_at};

use crate::rc::{Rc, ResponseCode};
use tpm_bytes::Cursor;

/// Reads a yes-or-no value (TPMI_YES_NO, Part 2, section 9.2). Fails with INSUFFICIENT if it is
/// truncated, or with VALUE if it is neither 0 nor 1.
#[tactic(auto, unfolding(crate::specs::YesNo::yes_no_at))]
pub fn read_yes_no(text: &mut Cursor) -> Result<bool, Rc>
    ensures { Reads (λ is_yes. is_yes) (yes_no_at text.old) text.old result text.new }
{
    let mut ahead = Cursor::new(text.rest());
    let Ok(byte) = ahead.u8() else {
        return Err(ResponseCode::Insufficient.anywhere());
    };
    let is_yes = match byte {
        0 => false,
        1 => true,
        _ => return Err(ResponseCode::Value.anywhere()),
    };
    *text = ahead;
    Ok(is_yes)
}

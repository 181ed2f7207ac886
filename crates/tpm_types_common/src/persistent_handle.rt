//! Reads the handle of a persistent object (TPMI_DH_PERSISTENT; TPM 2.0 Library, Part 2, section
//! 9.5).

ghost use Rattle.tpm_bytes.specs.Reading.{Reads};
ghost use Rattle.tpm_types_common.specs.PersistentHandle.{persistent_handle_at};

use crate::handle::Handle;
use crate::rc::{Rc, ResponseCode};
use tpm_bytes::Cursor;

/// Reads the handle of a persistent object (TPMI_DH_PERSISTENT, Part 2, section 9.5). Fails with
/// INSUFFICIENT if it is truncated, or with VALUE if its most significant byte is not 0x81.
#[tactic(auto, unfolding(crate::specs::PersistentHandle::persistent_handle_at))]
pub fn read_persistent_handle(text: &mut Cursor) -> Result<Handle, Rc>
    ensures { Reads (λ handle. handle) (persistent_handle_at text.old) text.old result text.new }
{
    let mut ahead = Cursor::new(text.rest());
    let Ok(number) = ahead.u32() else {
        return Err(ResponseCode::Insufficient.anywhere());
    };
    let handle = Handle { number };
    if !handle.is_persistent() {
        return Err(ResponseCode::Value.anywhere());
    }
    *text = ahead;
    Ok(handle)
}

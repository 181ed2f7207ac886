//! Reads a command's handles, and refuses a handle whose kind the command's [`Shape`] does not
//! allow (TPM 2.0 Library, Part 3, section 5.4).

ghost use Rattle.std.specs.Prelude.{◌≡◌, IfOk, length};
ghost use Rattle.tpm_bytes.specs.Reading.{Reads};
ghost use Rattle.tpm_commands.specs.HandleArea.{allowed_handle_at, allowed_handles_at};
ghost use Rattle.tpm_commands.specs.CommandCode.{handle_count};

use crate::command_code::CommandCode;
use crate::shape::HandleRule;
use arrayvec::ArrayVec;
use tpm_bytes::{Cursor, ReadableBy, read_each};
use tpm_types_common::{Handle, Rc, ResponseCode};

impl<'a> ReadableBy<'a, HandleRule> for Handle {
    ghost use Rattle.tpm_types_common.specs.declared.handle.Handle.{Handle};

    type Fault = Rc;

    ghost Seen = { Handle };

    ghost seen = { λ handle. handle };

    ghost at = { allowed_handle_at };

    #[tactic(auto, unfolding(crate::specs::HandleArea::allowed_handle_at))]
    fn read(number: u8, key: &HandleRule, text: &mut Cursor<'a>) -> Result<Handle, Rc> {
        let mut ahead = Cursor::new(text.rest());
        let Ok(field) = ahead.u32() else {
            return Err(ResponseCode::Insufficient.anywhere().at_handle(number));
        };
        let handle = Handle { number: field };
        if !key.kind.allows(handle) {
            return Err(ResponseCode::Value.anywhere().at_handle(number));
        }
        *text = ahead;
        Ok(handle)
    }
}

/// Reads the handles of a command, each according to its rule (Part 3, section 5.4). Fails with
/// INSUFFICIENT if a handle is truncated, or with VALUE if it is of the wrong kind. The response
/// code includes the number of the handle.
pub fn read_handles(code: CommandCode, text: &mut Cursor) -> Result<ArrayVec<Handle, 3>, Rc>
    ensures exact { Reads (λ handles. handles.items) (allowed_handles_at code text.old)
        text.old result text.new }
    ensures all { IfOk result (λ handles. length handles.items ≡ handle_count code) }
{
    read_each(code.shape().handles, text)
}

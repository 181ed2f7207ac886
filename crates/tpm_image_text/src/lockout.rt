//! The state of the dictionary-attack protection in an image.

ghost use Rattle.tpm_image_text.specs.Sizes.{text_size};
ghost use Rattle.std.specs.Prelude.{◌≡◌, ◌≤◌, ◌+◌, ◌++◌, length};
ghost use Rattle.tpm_bytes.specs.Reading.{Reads};
ghost use Rattle.tpm_image_text.specs.Body.{lockout_in, lockout_text};

use crate::fault::Malformed;
use crate::fields::{Text, read_bool, read_u32, write_bool, write_u32};
use tpm_bytes::Cursor;
use tpm_lockout::LockoutFields;

/// Reads the fields of the lockout state.
#[tactic(auto, unfolding(crate::specs::Body::lockout_in))]
pub fn read_lockout(text: &mut Cursor) -> Result<LockoutFields, Malformed>
    ensures { Reads (λ fields. fields) (lockout_in text.old) text.old result text.new }
{
    let mut ahead = Cursor::new(text.rest());
    let failed_tries = read_u32(&mut ahead)?;
    let max_tries = read_u32(&mut ahead)?;
    let recovery_time = read_u32(&mut ahead)?;
    let lockout_recovery = read_u32(&mut ahead)?;
    let closed = read_bool(&mut ahead)?;
    *text = ahead;
    Ok(LockoutFields {
        failed_tries,
        max_tries,
        recovery_time,
        lockout_recovery,
        closed,
    })
}

/// Writes the state of the dictionary-attack protection that survives a power cycle: 17 bytes.
#[tactic(auto, unfolding(crate::specs::Body::lockout_text))]
pub fn write_lockout(fields: LockoutFields, text: &mut Text)
    requires { length text.old + 17 ≤ text_size }
    ensures written { text.new ≡ text.old ++ lockout_text fields }
    ensures small { length text.new ≡ length text.old + 17 }
{
    write_u32(fields.failed_tries, text);
    write_u32(fields.max_tries, text);
    write_u32(fields.recovery_time, text);
    write_u32(fields.lockout_recovery, text);
    write_bool(fields.closed, text);
}

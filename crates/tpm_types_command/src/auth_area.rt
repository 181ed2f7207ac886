//! The authorization area of a command: its size, then one to three entries (TPM 2.0 Library, Part
//! 1, section 18.6).

ghost use Rattle.std.specs.Prelude.{◌≡◌, [], map};
ghost use Rattle.tpm_bytes.specs.Reading.{Reads};

use crate::auth_entry::AuthEntry;
use arrayvec::ArrayVec;
use tpm_bytes::Cursor;
use tpm_types_common::{Rc, ResponseCode};

/// The maximum number of entries in an authorization area.
pub const ENTRY_LIMIT: usize = 3;

/// The minimum size in bytes of an authorization area: one entry with an empty nonce and HMAC.
pub const LEAST_AREA: usize = 9;

ghost use Rattle.tpm_types_command.specs.AuthEntry.{entry_of};
ghost use Rattle.tpm_types_command.specs.AuthArea.{AreEntries, area_at};

/// Reads an authorization area: authorizationSize, then one to three entries (Part 1, section
/// 18.6). Adds the entries to an empty array. Fails with AUTHSIZE if authorizationSize is
/// truncated, is less than nine, or exceeds the number of bytes that follow. Fails with AUTHSIZE
/// too if an entry is truncated, or if there is a fourth entry. After a fault, the contents of the
/// array are unspecified.
#[tactic(auto, unfolding(crate::specs::AuthArea::area_at))]
pub fn read_area<'a>(
    text: &mut Cursor<'a>,
    entries: &mut ArrayVec<AuthEntry<'a>, 3>,
) -> Result<(), Rc>
    requires { entries.old.items ≡ [] }
    ensures { Reads (λ done. map entry_of entries.new.items) (area_at text.old)
        text.old result text.new }
{
    let mut ahead = Cursor::new(text.rest());
    let Ok(size) = ahead.u32() else {
        return Err(ResponseCode::Authsize.anywhere());
    };
    let size = size as usize;
    if size < LEAST_AREA {
        return Err(ResponseCode::Authsize.anywhere());
    }
    let Ok(bytes) = ahead.take(size) else {
        return Err(ResponseCode::Authsize.anywhere());
    };
    read_entries(bytes, entries)?;
    *text = ahead;
    Ok(())
}

fn read_entries<'a>(bytes: &'a [u8], entries: &mut ArrayVec<AuthEntry<'a>, 3>) -> Result<(), Rc>
    requires { entries.old.items ≡ [] }
    ensures { AreEntries bytes.now result entries.new.items }
{
    let mut left = Cursor::new(bytes);
    for _ in 0..ENTRY_LIMIT {
        if !left.is_empty() {
            entries.push(AuthEntry::read(&mut left)?);
        }
    }
    if left.is_empty() {
        Ok(())
    } else {
        Err(ResponseCode::Authsize.anywhere())
    }
}

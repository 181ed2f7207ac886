//! Writes handles and authorization entries in words.

use crate::fault::SpellFault;
use crate::word::put_bytes;
use std::fmt::{self, Write};
use tpm_bytes::Cursor;
use tpm_types_command::AuthEntry;
use tpm_types_common::Handle;

/// The largest number of entries in a line.
const ENTRIES: u8 = 3;

/// Adds a handle to the line: the name of a permanent entity, or eight hex digits.
pub fn put_handle<W: Write>(handle: Handle, line: &mut W) -> fmt::Result {
    if handle == Handle::OWNER {
        line.write_str("OWNER")
    } else if handle == Handle::NULL {
        line.write_str("NULL")
    } else if handle == Handle::LOCKOUT {
        line.write_str("LOCKOUT")
    } else if handle == Handle::ENDORSEMENT {
        line.write_str("ENDORSEMENT")
    } else if handle == Handle::PLATFORM {
        line.write_str("PLATFORM")
    } else {
        let number = handle.number;
        write!(line, "{number:08x}")
    }
}

/// Adds `count` handles to the line.
pub fn put_handles<W: Write>(
    count: usize,
    fields: &mut Cursor,
    line: &mut W,
) -> Result<(), SpellFault> {
    for _ in 0..count {
        let number = fields.u32()?;
        line.write_str(" ")?;
        put_handle(Handle { number }, line)?;
    }
    Ok(())
}

/// Adds the entries of an authorization area to the line.
pub fn put_area<W: Write>(fields: &mut Cursor, line: &mut W) -> Result<(), SpellFault> {
    let size = fields.u32()?;
    let mut area = Cursor::new(fields.take(size as usize)?);
    for _ in 0..ENTRIES {
        if area.is_empty() {
            break;
        }
        put_entry(&AuthEntry::read(&mut area)?, line)?;
    }
    Ok(())
}

/// Adds an entry to the line. An entry whose session is TPM_RS_PW, whose nonce is empty and whose
/// attributes are 01 is written as a password. Any other entry is written as a session.
fn put_entry<W: Write>(entry: &AuthEntry, line: &mut W) -> fmt::Result {
    let attributes = entry.attributes.octet;
    if entry.session == Handle::PASSWORD && entry.nonce.is_empty() && attributes == 1 {
        line.write_str(" pw:")?;
    } else {
        line.write_str(" s:")?;
        put_handle(entry.session, line)?;
        line.write_str(":")?;
        put_bytes(entry.nonce, line)?;
        write!(line, ":{attributes:02x}:")?;
    }
    put_bytes(entry.hmac, line)
}

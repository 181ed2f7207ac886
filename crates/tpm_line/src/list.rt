//! Writes lists in words: lists of PCR selections, of digests with their algorithms, of sized buffers,
//! and of algorithms.

use crate::fault::SpellFault;
use crate::number::{Form, put_number};
use crate::word::{hash_word, put_buffer, put_digits};
use std::fmt::Write;
use tpm_bytes::Cursor;
use tpm_types_common::{PCR_COUNT, read_hash};

/// The kinds of elements in a list.
#[derive(Clone, Copy, PartialEq, Eq)]
pub enum Element {
    /// The PCR selection for one bank: TPMS_PCR_SELECTION.
    Bank,
    /// A digest with its algorithm: TPMT_HA.
    Digest,
    /// A digest in a sized buffer: TPM2B_DIGEST.
    Buffer,
    /// The number of an algorithm: TPM_ALG_ID.
    Algorithm,
}

/// Adds the elements of a list to the line, separated by `+`, or `-` for an empty list.
pub fn put_list<W: Write>(
    element: Element,
    fields: &mut Cursor,
    line: &mut W,
) -> Result<(), SpellFault> {
    let count = fields.u32()?;
    if count == 0 {
        line.write_str("-")?;
    }
    for place in 0..count {
        if place > 0 {
            line.write_str("+")?;
        }
        match element {
            Element::Bank => put_bank(fields, line)?,
            Element::Digest => put_digest(fields, line)?,
            Element::Buffer => put_buffer(fields, line)?,
            Element::Algorithm => put_number(u64::from(fields.u16()?), Form::Hexadecimal, line)?,
        }
    }
    Ok(())
}

/// Adds the PCR selection for one bank to the line.
fn put_bank<W: Write>(fields: &mut Cursor, line: &mut W) -> Result<(), SpellFault> {
    let hash = read_hash(fields)?;
    let _size = fields.u8()?;
    let selected = u32::from_le_bytes([fields.u8()?, fields.u8()?, fields.u8()?, 0]);
    line.write_str(hash_word(hash))?;
    let mut separator = ":";
    for pcr in 0..PCR_COUNT as u32 {
        if selected >> pcr & 1 == 1 {
            write!(line, "{separator}{pcr}")?;
            separator = ",";
        }
    }
    Ok(())
}

/// Adds a digest with its hash algorithm to the line.
fn put_digest<W: Write>(fields: &mut Cursor, line: &mut W) -> Result<(), SpellFault> {
    let hash = read_hash(fields)?;
    line.write_str(hash_word(hash))?;
    line.write_str(":")?;
    put_digits(fields.take(hash.size())?, line)?;
    Ok(())
}

//! Writes each parameter of a command in words.

use crate::entry::put_handle;
use crate::fault::SpellFault;
use crate::list::{Element, put_list};
use crate::number::{Form, put_number};
use crate::word::{put_buffer, put_bytes, put_hash, put_symmetric};
use std::fmt::Write;
use tpm_bytes::Cursor;
use tpm_commands::{CommandCode, ParameterKind};
use tpm_types_common::Handle;

/// Adds the parameters of a command to the line.
pub fn put_parameters<W: Write>(
    code: CommandCode,
    fields: &mut Cursor,
    line: &mut W,
) -> Result<(), SpellFault> {
    let kinds = code.shape().parameters;
    for place in 0..kinds.len() {
        line.write_str(" ")?;
        put_parameter(kinds[place], Form::of(code, place), fields, line)?;
    }
    Ok(())
}

/// Adds a parameter of this kind to the line. A number of at most four bytes is written in the
/// given form.
fn put_parameter<W: Write>(
    kind: ParameterKind,
    form: Form,
    fields: &mut Cursor,
    line: &mut W,
) -> Result<(), SpellFault> {
    match kind {
        ParameterKind::SessionType | ParameterKind::U8 | ParameterKind::YesNo => {
            put_number(u64::from(fields.u8()?), form, line)?;
        }
        ParameterKind::StartupType | ParameterKind::U16 | ParameterKind::Operation => {
            put_number(u64::from(fields.u16()?), form, line)?;
        }
        ParameterKind::U32 | ParameterKind::PersistentHandle => {
            put_number(u64::from(fields.u32()?), form, line)?;
        }
        // The only parameter of eight bytes, `bits` of TPM2_NV_SetBits, is a bit mask. It is
        // written in hexadecimal.
        ParameterKind::U64 => put_number(fields.u64()?, Form::Hexadecimal, line)?,
        ParameterKind::Hash | ParameterKind::HashOrNull => put_hash(fields, line)?,
        ParameterKind::Symmetric => put_symmetric(fields, line)?,
        ParameterKind::Selection => put_list(Element::Bank, fields, line)?,
        ParameterKind::Digests => put_list(Element::Digest, fields, line)?,
        ParameterKind::DigestList => put_list(Element::Buffer, fields, line)?,
        ParameterKind::AlgorithmList => put_list(Element::Algorithm, fields, line)?,
        ParameterKind::Hierarchy => {
            put_handle(
                Handle {
                    number: fields.u32()?,
                },
                line,
            )?;
        }
        // The only command with such a parameter, TPM2_TestParms, has no other parameter.
        ParameterKind::PublicParameters => put_bytes(fields.take(fields.len())?, line)?,
        ParameterKind::Buffer(_)
        | ParameterKind::SensitiveCreate
        | ParameterKind::Public
        | ParameterKind::NvPublic => put_buffer(fields, line)?,
    }
    Ok(())
}

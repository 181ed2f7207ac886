//! Writes bytes and algorithms as words of a line.

use crate::fault::SpellFault;
use std::fmt::{self, Write};
use tpm_bytes::Cursor;
use tpm_mac::HashAlg;
use tpm_types_common::{SymmetricDefinition, read_hash_or_null};

/// Adds bytes as hex digits to the line.
pub fn put_digits<W: Write>(bytes: &[u8], line: &mut W) -> fmt::Result {
    for byte in bytes {
        let byte = *byte;
        write!(line, "{byte:02x}")?;
    }
    Ok(())
}

/// Adds bytes in hex to the line, or `-` for an empty list of bytes.
pub fn put_bytes<W: Write>(bytes: &[u8], line: &mut W) -> fmt::Result {
    if bytes.is_empty() {
        line.write_str("-")
    } else {
        put_digits(bytes, line)
    }
}

/// Adds the bytes of a sized buffer to the line.
pub fn put_buffer<W: Write>(fields: &mut Cursor, line: &mut W) -> Result<(), SpellFault> {
    put_bytes(fields.sized(0xffff)?, line)?;
    Ok(())
}

/// The word for a hash algorithm.
pub fn hash_word(hash: HashAlg) -> &'static str {
    match hash {
        HashAlg::Sha1 => "sha1",
        HashAlg::Sha256 => "sha256",
    }
}

/// Adds the word for a hash algorithm, or `null` for TPM_ALG_NULL, to the line.
pub fn put_hash<W: Write>(fields: &mut Cursor, line: &mut W) -> Result<(), SpellFault> {
    let word = match read_hash_or_null(fields)? {
        Some(hash) => hash_word(hash),
        None => "null",
    };
    line.write_str(word)?;
    Ok(())
}

/// Adds the word for a symmetric definition to the line.
pub fn put_symmetric<W: Write>(fields: &mut Cursor, line: &mut W) -> Result<(), SpellFault> {
    let word = match SymmetricDefinition::read(fields)? {
        SymmetricDefinition::Null => "null",
        SymmetricDefinition::Aes128Cfb => "aes",
        SymmetricDefinition::Xor(HashAlg::Sha1) => "xor-sha1",
        SymmetricDefinition::Xor(HashAlg::Sha256) => "xor-sha256",
    };
    line.write_str(word)?;
    Ok(())
}

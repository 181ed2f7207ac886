//! Encodes commands and seeds for the tests.

use std::alloc::{AllocError, Global};

/// The seed of a new device: its kind, the clock, the start number and 256 random bytes.
pub fn seed(alloc: Global, now_ms: u64, random: u8) -> Result<Vec<u8>, AllocError> {
    let mut text = Vec::new(alloc);
    text.push(0)?;
    text.extend_from_slice(&now_ms.to_be_bytes())?;
    text.extend_from_slice(&7u64.to_be_bytes())?;
    text.extend_from_slice(&[random; 256])?;
    Ok(text)
}

/// A TPM command from locality 0, with the completing layer and 256 random bytes.
pub fn given(alloc: Global, now_ms: u64, random: u8, buffer: &[u8]) -> Result<Vec<u8>, AllocError> {
    let mut text = Vec::new(alloc);
    text.push(0)?;
    text.extend_from_slice(&now_ms.to_be_bytes())?;
    text.extend_from_slice(&[0, 1])?;
    text.extend_from_slice(&[random; 256])?;
    text.extend_from_slice(buffer)?;
    Ok(text)
}

/// A TPM command that arrives this many milliseconds after the previous command.
pub fn given_after(
    alloc: Global,
    elapsed_ms: u32,
    random: u8,
    buffer: &[u8],
) -> Result<Vec<u8>, AllocError> {
    let mut text = Vec::new(alloc);
    text.push(3)?;
    text.extend_from_slice(&elapsed_ms.to_be_bytes())?;
    text.extend_from_slice(&[0, 1])?;
    text.extend_from_slice(&[random; 256])?;
    text.extend_from_slice(buffer)?;
    Ok(text)
}

/// A power cycle.
pub fn cycle(alloc: Global, now_ms: u64) -> Result<Vec<u8>, AllocError> {
    let mut text = Vec::new(alloc);
    text.push(1)?;
    text.extend_from_slice(&now_ms.to_be_bytes())?;
    text.extend_from_slice(&8u64.to_be_bytes())?;
    Ok(text)
}

/// A command that restores a device from a state text at this time.
pub fn restoring(alloc: Global, now_ms: u64, state: &[u8]) -> Result<Vec<u8>, AllocError> {
    let mut text = Vec::new(alloc);
    text.extend_from_slice(&[2, 2])?;
    text.extend_from_slice(&now_ms.to_be_bytes())?;
    text.extend_from_slice(&9u64.to_be_bytes())?;
    text.extend_from_slice(state)?;
    Ok(text)
}

//! Bytes as hex.

use std::alloc::Global;
use zx_base::Memory;

/// The bytes that `digits` spells in hex, `-` for none; `None` where it is no hex.
pub fn bytes_of(alloc: Global, digits: &str) -> Result<Option<Vec<u8>>, Memory> {
    if digits == "-" {
        return Ok(Some(Vec::new(alloc)));
    }
    match hex::decode(alloc, digits) {
        Ok(bytes) => Ok(Some(bytes)),
        Err(hex::FromHexError::OutOfMemory) => Err(Memory),
        Err(_) => Ok(None),
    }
}

/// Bytes as hex, `-` for none.
pub fn hex_of(alloc: Global, bytes: &[u8]) -> Result<String, Memory> {
    if bytes.is_empty() {
        return Ok(String::from_str(alloc, "-")?);
    }
    Ok(hex::encode(alloc, bytes)?)
}

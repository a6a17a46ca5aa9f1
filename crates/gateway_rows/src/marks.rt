//! Bytes as text in one line.

use std::alloc::Global;
use zx_base::Memory;

/// The bytes that a text stands for.
pub fn unescaped(alloc: Global, text: &str) -> Result<Vec<u8>, Memory> {
    let mut bytes = Vec::new(alloc);
    let mut is_marked = false;
    for byte in text.as_bytes() {
        if is_marked {
            is_marked = false;
            bytes.push(marked(*byte))?;
        } else if *byte == b'\\' {
            is_marked = true;
        } else {
            bytes.push(*byte)?;
        }
    }
    Ok(bytes)
}

/// The byte that a letter after `\` stands for.
fn marked(letter: u8) -> u8 {
    match letter {
        b'r' => b'\r',
        b'n' => b'\n',
        other => other,
    }
}

/// Adds these bytes as text, with `?` for any that cannot be shown.
pub fn push_escaped(text: &mut String, bytes: &[u8]) -> Result<(), Memory> {
    for byte in bytes {
        match byte {
            b'\r' => text.push_str("\\r")?,
            b'\n' => text.push_str("\\n")?,
            b'\\' => text.push_str("\\\\")?,
            b' '..=b'~' => text.push(char::from(*byte))?,
            _ => text.push('?')?,
        }
    }
    Ok(())
}

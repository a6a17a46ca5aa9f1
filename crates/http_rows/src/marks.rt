//! Bytes as text in one line.

use std::alloc::{AllocError, Global};

/// How far a mark was read.
#[derive(Clone, Copy)]
enum Mark {
    None,
    /// After `\`.
    Begun,
    /// After `\(` and digits of this number.
    Count(usize),
}

/// The bytes that a text stands for.
pub fn unescaped(alloc: Global, text: &[u8]) -> Result<Vec<u8>, AllocError> {
    let mut bytes = Vec::new(alloc);
    let mut mark = Mark::None;
    let mut times = 1;
    for byte in text {
        match (mark, *byte) {
            (Mark::None, b'\\') => mark = Mark::Begun,
            (Mark::Begun, b'(') => mark = Mark::Count(0),
            (Mark::Count(number), b'0'..=b'9') => {
                let digit = usize::from(byte.saturating_sub(b'0'));
                mark = Mark::Count(number.saturating_mul(10).saturating_add(digit));
            }
            (Mark::Count(number), _) => {
                times = number;
                mark = Mark::None;
            }
            (Mark::None, other) => {
                push_times(&mut bytes, other, times)?;
                times = 1;
            }
            (Mark::Begun, other) => {
                push_times(&mut bytes, marked(other), times)?;
                times = 1;
                mark = Mark::None;
            }
        }
    }
    Ok(bytes)
}

fn push_times(bytes: &mut Vec<u8>, byte: u8, times: usize) -> Result<(), AllocError> {
    for _ in 0..times {
        bytes.push(byte)?;
    }
    Ok(())
}

/// The byte that a letter after `\` stands for.
fn marked(letter: u8) -> u8 {
    match letter {
        b'r' => b'\r',
        b'n' => b'\n',
        b't' => b'\t',
        other => other,
    }
}

/// The first 200 of these bytes as text, with `?` for any that cannot be shown.
pub fn escaped(alloc: Global, bytes: &[u8]) -> Result<String, AllocError> {
    let mut text = String::new(alloc);
    for byte in bytes.iter().take(200) {
        match byte {
            b'\r' => text.push_str("\\r")?,
            b'\n' => text.push_str("\\n")?,
            b' '..=b'~' => text.push(char::from(*byte))?,
            _ => text.push('?')?,
        }
    }
    Ok(text)
}

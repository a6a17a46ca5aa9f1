//! The longest line of a script, which stands in no file.

use std::alloc::Global;
use zt_text::{MAX_LINE, read_line};
use zx_base::Memory;

/// Whether a line of the greatest length is unreadable, or one of a byte more is not.
pub fn problem(alloc: Global) -> Result<bool, Memory> {
    let longest = line_of(alloc, b"bytes 1 ", MAX_LINE)?;
    let longer = line_of(alloc, b"bytes 10 ", MAX_LINE + 1)?;
    Ok(
        read_line(alloc, longest.as_slice())?.is_none()
            || read_line(alloc, longer.as_slice())?.is_some(),
    )
}

/// A line that begins so, and then has zeros, up to this length.
fn line_of(alloc: Global, front: &[u8], length: usize) -> Result<Vec<u8>, Memory> {
    let mut line = Vec::from_slice(alloc, front)?;
    line.resize(length, b'0')?;
    Ok(line)
}

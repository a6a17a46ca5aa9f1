//! Rows of lines of scripts.

use std::alloc::Global;
use zt_text::read_line;
use zx_base::Memory;

/// What a line of a script says, as its happening is printed; `None` where it says nothing.
pub fn read(alloc: Global, line: &str) -> Result<Option<String>, Memory> {
    let happening = read_line(alloc, line.as_bytes())?;
    Ok(Some(format!(in alloc; "{happening:?}")?))
}

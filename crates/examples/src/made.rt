//! Texts that are made by a rule.

use anyhow::{Result, bail};
use std::alloc::Global;

/// The number that a text spells.
pub fn number(text: &str) -> Result<u64> {
    match text.parse::<u64>() {
        Ok(number) => Ok(number),
        Err(_) => bail!("no number: {text}"),
    }
}

/// Adds a text, with a line feed where it has `@`.
pub fn add(bytes: &mut Vec<u8>, text: &str) -> Result<()> {
    for byte in text.as_bytes() {
        bytes.push(if *byte == b'@' { b'\n' } else { *byte })?;
    }
    Ok(())
}

/// Adds a text and a line feed.
pub fn add_line(bytes: &mut Vec<u8>, text: &str) -> Result<()> {
    add(bytes, text)?;
    bytes.push(b'\n')?;
    Ok(())
}

/// Adds the text after a count as many times as the count says.
pub fn add_times(bytes: &mut Vec<u8>, rest: &str) -> Result<()> {
    let (count, text) = counted(rest)?;
    for _time in 0..count {
        add(bytes, text)?;
    }
    Ok(())
}

/// Adds the text after a count for each number from 1 to the count; `<MORE>` in it stands for the sum of the number and MORE.
pub fn add_each(alloc: Global, bytes: &mut Vec<u8>, rest: &str) -> Result<()> {
    let (count, text) = counted(rest)?;
    for before in 0..count {
        for part in text.split('<') {
            match part.split_once('>') {
                Some((more, later)) => {
                    add_number(alloc, bytes, before.saturating_add(1), more)?;
                    add(bytes, later)?;
                }
                None => add(bytes, part)?,
            }
        }
    }
    Ok(())
}

/// Adds the sum of a number and `more`: in decimal, or as 16 hex digits where `more` ends in `x`.
fn add_number(alloc: Global, bytes: &mut Vec<u8>, counted: u64, more: &str) -> Result<()> {
    match more.strip_suffix("x") {
        Some(more) => {
            let sum = counted.saturating_add(number(more)?);
            add(bytes, hex::encode(alloc, &sum.to_be_bytes())?.as_str())
        }
        None => {
            let sum = counted.saturating_add(number(more)?);
            add(bytes, format!(in alloc; "{sum}")?.as_str())
        }
    }
}

/// A count, and the text after it.
fn counted(rest: &str) -> Result<(u64, &str)> {
    let Some((count, text)) = rest.split_once(' ') else {
        bail!("a count and a text are wanted");
    };
    Ok((number(count)?, text))
}

//! Values as the layout's tables in `docs/FORMATS.md` spell them.

use row_files::Words;
use row_words::content;
use std::alloc::Global;
use zx_base::Memory;

fn long(out: &mut Vec<u8>, number: i64) -> Result<(), Memory> {
    out.extend_from_slice(&number.to_be_bytes())?;
    Ok(())
}

fn int(out: &mut Vec<u8>, number: i32) -> Result<(), Memory> {
    out.extend_from_slice(&number.to_be_bytes())?;
    Ok(())
}

/// The value that the rest of a row spells: `node CZXID VERSION CTIME MTIME OWNER DATA`, `counts CREATES CHILDREN`,
/// `life TIMEOUT`, `nodes COUNT PATH..` (at most 40 paths), `head` (without triggers), or `hex DIGITS`.
pub fn value(alloc: Global, words: &mut Words) -> Result<Option<Vec<u8>>, Memory> {
    let Some(kind) = words.word() else {
        return Ok(None);
    };
    match kind {
        "node" => node(alloc, words),
        "counts" => counts(alloc, words),
        "nodes" => nodes(alloc, words),
        "life" => life(alloc, words),
        "head" => Ok(Some(vec![in alloc; 1, 0, 0, 0, 0]?)),
        "hex" => match words.word() {
            Some(digits) => row_files::bytes_of(alloc, digits),
            None => Ok(None),
        },
        _ => Ok(None),
    }
}

fn node(alloc: Global, words: &mut Words) -> Result<Option<Vec<u8>>, Memory> {
    let (Some(czxid), Some(version), Some(ctime)) = (words.long(), words.int(), words.long()) else {
        return Ok(None);
    };
    let (Some(mtime), Some(owner), Some(data)) = (words.long(), words.long(), words.word()) else {
        return Ok(None);
    };
    let mut out = vec![in alloc; 1]?;
    long(&mut out, czxid)?;
    int(&mut out, version)?;
    long(&mut out, ctime)?;
    long(&mut out, mtime)?;
    long(&mut out, owner)?;
    out.extend_from_slice(content(alloc, data)?.as_slice())?;
    Ok(Some(out))
}

fn counts(alloc: Global, words: &mut Words) -> Result<Option<Vec<u8>>, Memory> {
    let (Some(creates), Some(children)) = (words.int(), words.int()) else {
        return Ok(None);
    };
    let mut out = vec![in alloc; 1]?;
    int(&mut out, creates)?;
    int(&mut out, children)?;
    Ok(Some(out))
}

/// The life of a session that was attached once, with a password of zeros.
fn life(alloc: Global, words: &mut Words) -> Result<Option<Vec<u8>>, Memory> {
    let Some(timeout) = words.int() else {
        return Ok(None);
    };
    let mut out = vec![in alloc; 1]?;
    int(&mut out, timeout)?;
    long(&mut out, 1)?;
    out.extend_from_slice(&[0; 16])?;
    Ok(Some(out))
}

fn nodes(alloc: Global, words: &mut Words) -> Result<Option<Vec<u8>>, Memory> {
    let Some(count) = words.int() else {
        return Ok(None);
    };
    let mut out = vec![in alloc; 1]?;
    int(&mut out, count)?;
    for _ in 0..40 {
        let Some(path) = words.word() else {
            break;
        };
        let Ok(length) = i32::try_from(path.len()) else {
            return Ok(None);
        };
        int(&mut out, length)?;
        out.extend_from_slice(path.as_bytes())?;
    }
    Ok(Some(out))
}

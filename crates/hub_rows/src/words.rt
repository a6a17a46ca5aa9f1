//! The words of a line, and of an answer.

use std::io;
use zw_hub::{Fed, FeedEnd};

/// A line's first word, and what follows the blank after it.
pub fn split(line: &str) -> (&str, &str) {
    match line.split_once(' ') {
        Some(parts) => parts,
        None => (line, ""),
    }
}

/// A word in decimal, perhaps with a sign; a fault where it is none.
pub fn number_of(word: &str) -> io::Result<i64> {
    match word.parse::<i64>() {
        Ok(number) => Ok(number),
        Err(_) => Err(io::Error::from(io::ErrorKind::InvalidInput)),
    }
}

/// The end that the words of a `close` name; a fault where they name none.
pub fn end_of(rest: &str) -> io::Result<FeedEnd> {
    let (word, rest) = split(rest);
    match word {
        "compacted" => Ok(FeedEnd::Compacted {
            rev: number_of(rest)?,
        }),
        "gap" => {
            let (expected, found) = split(rest);
            Ok(FeedEnd::Gap {
                expected: number_of(expected)?,
                found: number_of(found)?,
            })
        }
        "no" => Ok(FeedEnd::NoLine),
        "memory" => Ok(FeedEnd::Memory),
        _ => Err(io::Error::from(io::ErrorKind::InvalidInput)),
    }
}

/// Writes a line with what was asked and what was answered.
pub fn print_fed<R: Print>(rt: &R, asked: &str, fed: &Fed) -> io::Result<()> {
    match fed {
        Fed::Entry(entry) => {
            let (number, zxid) = (entry.number, entry.zxid);
            println!(rt; "{asked}: entry {number} zxid {zxid}")
        }
        Fed::None => println!(rt; "{asked}: none"),
        Fed::Lagged { cursor, floor } => println!(rt; "{asked}: lagged {cursor} {floor}"),
        Fed::Closed(end) => {
            let end: &FeedEnd = end;
            println!(rt; "{asked}: closed {end:?}")
        }
        Fed::Memory => println!(rt; "{asked}: memory"),
    }
}

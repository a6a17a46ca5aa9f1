//! Many answers, and large ones.

use anyhow::{Result as Outcome, bail};
use base64::engine::general_purpose::STANDARD;
use ev_json::{JsonFault, read_answer, read_ask, write_answer};
use ev_types::{ActAns, Answer, Ask, Kv, RangeAns, Route};
use row_files::{Piece, joined};
use serde_json::Value;
use std::alloc::Global;
use std::process::ExitCode;
use std::time::Instant;
use zx_base::{Bytes, Memory, Seq};

/// The ask that is answered: one range.
const ASK: &str = "{\"success\":[{\"request_range\":{\"key\":\"emsvZC8wMDAxL2E=\"}}]}";

/// An answer with one key, whose value has `size` bytes.
fn answer_of(alloc: Global, size: u32) -> Result<Answer, Memory> {
    let mut value = Vec::new(alloc);
    for _ in 0..size {
        value.push(120)?;
    }
    let mut kvs = Seq::new(alloc);
    kvs.push(Kv {
        key: Bytes::copy_of(alloc, b"zk/d/0001/a")?,
        value: Seq::from_vec(value),
        create_revision: 1_000,
        mod_revision: 1_234_567,
        version: 12,
        lease: 0,
    })?;
    let mut parts = Seq::new(alloc);
    parts.push(ActAns::Range(RangeAns {
        kvs,
        more: false,
        count: 1,
    }))?;
    Ok(Answer::Txn {
        revision: 1_234_567,
        succeeded: true,
        parts,
    })
}

/// Writes an answer `count` times, and counts the bytes written.
fn write_all(alloc: Global, count: u32, answer: &Answer) -> Result<u64, Memory> {
    let mut bytes: u64 = 0;
    for _ in 0..count {
        let text = write_answer(alloc, answer)?;
        bytes = bytes.saturating_add(text.len() as u64);
    }
    Ok(bytes)
}

/// How many bytes the first value of an answer has.
fn value_of(answer: &Answer) -> u64 {
    if let Answer::Txn { parts, .. } = answer {
        if let Some(ActAns::Range(found)) = parts.as_slice().first() {
            if let Some(kv) = found.kvs.as_slice().first() {
                return kv.value.len() as u64;
            }
        }
    }
    0
}

/// Reads an answer `count` times, and counts the bytes of its value each time.
fn read_all(alloc: Global, count: u32, ask: &Ask, text: &[u8]) -> Result<u64, JsonFault> {
    let mut bytes: u64 = 0;
    for _ in 0..count {
        let answer = read_answer(alloc, ask, text)?;
        bytes = bytes.saturating_add(value_of(&answer));
    }
    Ok(bytes)
}

/// `SIZE | COUNT`: the bytes that are written of so many answers with a value of so many bytes, and those of the values that are read
pub fn counted(alloc: Global, given: &str) -> Result<String, Memory> {
    let Some((size, count)) = given.split_once(" | ") else {
        return Ok(String::from_str(alloc, "no count")?);
    };
    let (size, count) = (number(size), number(count));
    let answer = answer_of(alloc, size)?;
    let text = write_answer(alloc, &answer)?;
    let written = write_all(alloc, count, &answer)?;
    match read_back(alloc, count, text.as_slice()) {
        Ok(read) => counts_text(alloc, written, read),
        Err(JsonFault::Memory) => Err(Memory),
        Err(_) => Ok(String::from_str(alloc, "not read")?),
    }
}

fn counts_text(alloc: Global, written: u64, read: u64) -> Result<String, Memory> {
    let pieces = [
        Piece::Count(written),
        Piece::Text(" bytes written, "),
        Piece::Count(read),
        Piece::Text(" bytes of values read"),
    ];
    joined(alloc, &pieces)
}

/// Reads an answer so many times, as that to the ask of one range.
fn read_back(alloc: Global, count: u32, text: &[u8]) -> Result<u64, JsonFault> {
    let ask = read_ask(alloc, Route::Txn, ASK.as_bytes())?;
    read_all(alloc, count, &ask, text)
}

fn number(word: &str) -> u32 {
    word.parse::<u32>().unwrap_or(0)
}

/// The value of an answer with `size` bytes, in base64.
fn spelled(alloc: Global, size: u32) -> Result<String, Memory> {
    let mut value = Vec::new(alloc);
    for _ in 0..size {
        value.push(120)?;
    }
    match STANDARD.encode(alloc, value.as_slice()) {
        Ok(text) => Ok(text),
        Err(_) => Err(Memory),
    }
}

/// Does `count` times the least of a reader by values: parses a text with `serde_json`, and decodes a value with `base64`. Counts 1
/// for each text parsed, and the bytes decoded.
fn parse_all(alloc: Global, count: u32, text: &[u8], value: &str) -> u64 {
    let mut bytes: u64 = 0;
    for _ in 0..count {
        if Value::from_slice(alloc, text).is_ok() {
            bytes = bytes.saturating_add(1);
        }
        if let Ok(decoded) = STANDARD.decode(alloc, value.as_bytes()) {
            bytes = bytes.saturating_add(decoded.len() as u64);
        }
    }
    bytes
}

/// Prints the microseconds of so many writes, of so many reads, and of the least of a reader by values.
pub fn print_times(rt: &HostRuntime, size: &str, count: &str) -> Outcome<ExitCode> {
    let (size, count) = (number(size), number(count));
    let Ok(answer) = answer_of(rt.alloc(), size) else {
        bail!("out of memory");
    };
    let (Ok(text), Ok(value)) = (write_answer(rt.alloc(), &answer), spelled(rt.alloc(), size))
    else {
        bail!("out of memory");
    };
    let start = Instant::now(rt)?;
    if write_all(rt.alloc(), count, &answer).is_err() {
        bail!("out of memory");
    }
    let writing = start.elapsed(rt)?.as_micros();
    let start = Instant::now(rt)?;
    if read_back(rt.alloc(), count, text.as_slice()).is_err() {
        bail!("not read");
    }
    let reading = start.elapsed(rt)?.as_micros();
    let start = Instant::now(rt)?;
    let parsed = parse_all(rt.alloc(), count, text.as_slice(), value.as_str());
    let parsing = start.elapsed(rt)?.as_micros();
    println!(rt; "{parsed} parsed")?;
    println!(rt; "{writing} {reading} {parsing}")?;
    Ok(ExitCode::SUCCESS)
}

/// About how many bytes a hostile body has: its pieces have this many or slightly fewer.
const BODY: usize = 8_388_608;

/// A text, and then a piece again and again.
fn hostile_body(alloc: Global, head: &[u8], piece: &[u8]) -> Result<Vec<u8>, Memory> {
    let mut body = Vec::with_capacity(alloc, BODY)?;
    body.extend_from_slice(head)?;
    let pieces = BODY.checked_div(piece.len()).unwrap_or(0);
    for _ in 0..pieces {
        body.extend_from_slice(piece)?;
    }
    Ok(body)
}

/// What a body is refused for: `not json`, or the member at fault; `read` where it is not refused.
fn refusal(alloc: Global, body: &[u8]) -> Result<&'static str, Memory> {
    match read_back(alloc, 1, body) {
        Ok(_) => Ok("read"),
        Err(JsonFault::NotJson) => Ok("not json"),
        Err(JsonFault::Unreadable { field }) => Ok(field.snake()),
        Err(JsonFault::Memory) => Err(Memory),
    }
}

/// Prints what a body of some 8,388,608 bytes is refused for.
pub fn print_refusal(rt: &HostRuntime, head: &str, piece: &str) -> Outcome<ExitCode> {
    let Ok(body) = hostile_body(rt.alloc(), head.as_bytes(), piece.as_bytes()) else {
        bail!("out of memory");
    };
    let Ok(refused) = refusal(rt.alloc(), body.as_slice()) else {
        bail!("out of memory");
    };
    println!(rt; "{refused}")?;
    Ok(ExitCode::SUCCESS)
}

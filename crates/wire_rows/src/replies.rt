//! Rows of replies.

use crate::packets::{frame_of, is_written, note_of, push_texts};
use crate::requests::fault_of;
use row_files::{Piece, Words, bytes_of, hex_of, joined, push, push_number, push_word, word_of};
use std::alloc::Global;
use zk_model::{Body, PartResult, Reply, Stat};
use zk_wire::{read_reply, reply_can_be_sent, write_reply};
use zx_base::Memory;

/// The fields of a reply's packet, or its fault. On the left stand the type of the request that it answers and the packet.
pub fn read(alloc: Global, row: &str) -> Result<Option<String>, Memory> {
    let mut words = Words::new(row);
    let (Some(kind), Some(packet)) = (words.int(), words.word()) else {
        return Ok(None);
    };
    match bytes_of(alloc, packet)? {
        Some(packet) => read_packet(alloc, packet.as_slice(), kind),
        None => Ok(None),
    }
}

fn read_packet(alloc: Global, packet: &[u8], kind: i32) -> Result<Option<String>, Memory> {
    match frame_of(alloc, packet)? {
        Some(frame) => Ok(Some(read_frame(alloc, frame.as_slice(), packet, kind)?)),
        None => Ok(None),
    }
}

/// The fields of the frame that a packet holds.
fn read_frame(alloc: Global, frame: &[u8], packet: &[u8], kind: i32) -> Result<String, Memory> {
    match read_reply(alloc, frame, kind) {
        Ok((xid, zxid, reply)) => {
            let again = again(alloc, xid, zxid, &reply)?;
            numbered_text(alloc, xid, zxid, &reply, is_written(&again, packet))
        }
        Err(fault) => fault_of(alloc, fault),
    }
}

fn numbered_text(
    alloc: Global,
    xid: i32,
    zxid: i64,
    reply: &Reply,
    same: bool,
) -> Result<String, Memory> {
    let said = said_of(alloc, reply)?;
    let pieces = [
        Piece::Text("xid "),
        Piece::Number(i64::from(xid)),
        Piece::Text(" zxid "),
        Piece::Number(zxid),
        Piece::Text(" "),
        Piece::Text(said.as_str()),
        Piece::Text(note_of(same)),
    ];
    joined(alloc, &pieces)
}

/// The packet of a reply, empty where it cannot be sent.
fn again(alloc: Global, xid: i32, zxid: i64, reply: &Reply) -> Result<Vec<u8>, Memory> {
    if reply_can_be_sent(reply) {
        write_reply(alloc, xid, zxid, reply)
    } else {
        Ok(Vec::new(alloc))
    }
}

fn said_of(alloc: Global, reply: &Reply) -> Result<String, Memory> {
    match reply {
        Reply::Refused(code) => Ok(format!(in alloc; "err {code}")?),
        Reply::Good(body) => {
            let mut all = String::from_str(alloc, "err 0")?;
            push_body(alloc, &mut all, body)?;
            Ok(all)
        }
    }
}

fn push_body(alloc: Global, all: &mut String, body: &Body) -> Result<(), Memory> {
    match body {
        Body::Empty => Ok(()),
        Body::Path(path) => push_named(all, "path", word_of(path.as_slice())),
        Body::Stat(stat) => push_stat(alloc, all, stat),
        Body::Content(content, stat) => {
            push_data(alloc, all, content.as_slice())?;
            push_stat(alloc, all, stat)
        }
        Body::Names(names) => push_texts(all, "children", names.as_slice()),
        Body::NamesStat(names, stat) => {
            push_texts(all, "children", names.as_slice())?;
            push_stat(alloc, all, stat)
        }
        Body::OpenAcl(stat) => {
            push_named(all, "acl", "31:world:anyone")?;
            push_stat(alloc, all, stat)
        }
        Body::Parts(results) => push_results(alloc, all, results.as_slice()),
        Body::PathStat(path, stat) => {
            push_named(all, "path", word_of(path.as_slice()))?;
            push_stat(alloc, all, stat)
        }
    }
}

fn push_data(alloc: Global, all: &mut String, content: &[u8]) -> Result<(), Memory> {
    push_named(all, "data", hex_of(alloc, content)?.as_str())
}

fn push_named(all: &mut String, name: &str, word: &str) -> Result<(), Memory> {
    push_word(all, name)?;
    push_word(all, word)
}

/// The results of a multi, with `;` after each.
fn push_results(alloc: Global, all: &mut String, results: &[PartResult]) -> Result<(), Memory> {
    push_word(all, "multi")?;
    for outcome in results {
        push_result(alloc, all, outcome)?;
        push(all, ";")?;
    }
    Ok(())
}

fn push_result(alloc: Global, all: &mut String, outcome: &PartResult) -> Result<(), Memory> {
    match outcome {
        PartResult::Created(path) => push_named(all, "create path", word_of(path.as_slice())),
        PartResult::Deleted => push_word(all, "delete"),
        PartResult::Set(stat) => {
            push_word(all, "setData")?;
            push_stat(alloc, all, stat)
        }
        PartResult::Checked => push_word(all, "check"),
        PartResult::Code(code) => push_number(alloc, all, " err ", i64::from(*code)),
    }
}

/// The fields of a Stat in the order of zookeeper.jute.
fn push_stat(alloc: Global, all: &mut String, stat: &Stat) -> Result<(), Memory> {
    let fields = [
        (" stat czxid ", stat.czxid),
        (" mzxid ", stat.mzxid),
        (" ctime ", stat.ctime),
        (" mtime ", stat.mtime),
        (" version ", i64::from(stat.version)),
        (" cversion ", i64::from(stat.cversion)),
        (" aversion ", i64::from(stat.aversion)),
        (" ephemeralOwner ", stat.ephemeral_owner),
        (" dataLength ", i64::from(stat.data_length)),
        (" numChildren ", i64::from(stat.num_children)),
        (" pzxid ", stat.pzxid),
    ];
    for (name, number) in fields {
        push_number(alloc, all, name, number)?;
    }
    Ok(())
}

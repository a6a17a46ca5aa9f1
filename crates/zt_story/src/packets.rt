//! Packets of a server in words.
//!
//! The answer to a connect is `connected timeout N session ID PW`. A notification is `notification`, the event's type and the path. A
//! reply is `xid N zxid N`, and then `error NAME` or what it has; a number of a Stat that is 0 is left out.

use crate::requests::push_read_only;
use crate::words::{push_hex_after, push_number_after, push_text, push_text_after, push_word};
use byteorder::{BigEndian, ByteOrder};
use std::alloc::Global;
use zk_model::{Body, ConnectResponse, Notice, PartResult, Reply, Stat, code};
use zk_wire::{WireFault, notice_can_be_sent, read_reply, write_connect, write_notice};
use zt_text::{push_hex, push_signed};
use zx_base::{Memory, Text};

/// The bytes of a packet's length.
const LENGTH: usize = 4;

/// Where the type of the event stands in a notification, and its path.
const EVENT: usize = 20;

const EVENT_PATH: usize = 32;

/// Adds the words of a notification, and says whether the packet is one.
pub fn push_notice(alloc: Global, line: &mut Vec<u8>, packet: &[u8]) -> Result<bool, Memory> {
    if packet.len() < EVENT_PATH {
        return Ok(false);
    }
    let kind = BigEndian::read_i32(&packet[EVENT..]);
    let path = Text::copy_of(alloc, &packet[EVENT_PATH..])?;
    let notice = Notice { kind, path };
    if !notice_can_be_sent(&notice) {
        return Ok(false);
    }
    let written = write_notice(alloc, &notice)?;
    if written.as_slice() != packet {
        return Ok(false);
    }
    let event: &[u8] = match kind {
        1 => b"NodeCreated",
        2 => b"NodeDeleted",
        3 => b"NodeDataChanged",
        4 => b"NodeChildrenChanged",
        _ => return Ok(false),
    };
    push_word(line, b"notification")?;
    push_text_after(line, event, notice.path.as_slice())?;
    Ok(true)
}

/// Where the timeout stands in the answer to a connect, and what comes after it.
const TIMEOUT: usize = 8;

const SESSION: usize = 12;

const PASSWD: usize = 24;

const READ_ONLY: usize = 40;

/// Adds the words of the answer to a connect, and says whether the packet is one.
pub fn push_connected(alloc: Global, line: &mut Vec<u8>, packet: &[u8]) -> Result<bool, Memory> {
    if packet.len() < READ_ONLY {
        return Ok(false);
    }
    let mut passwd = [0; 16];
    passwd.copy_from_slice(&packet[PASSWD..READ_ONLY]);
    let response = ConnectResponse {
        timeout: BigEndian::read_i32(&packet[TIMEOUT..]),
        session: BigEndian::read_i64(&packet[SESSION..]),
        passwd,
        read_only: match &packet[READ_ONLY..] {
            [] => None,
            [flag, ..] => Some(*flag != 0),
        },
    };
    let written = write_connect(alloc, &response)?;
    if written.as_slice() != packet {
        return Ok(false);
    }
    push_word(line, b"connected")?;
    push_number_after(line, b"timeout", i64::from(response.timeout))?;
    push_hex_after(line, b"session", &response.session.to_be_bytes())?;
    line.push(b' ')?;
    push_hex(line, &passwd)?;
    push_read_only(line, response.read_only)?;
    Ok(true)
}

/// The type of a ping (`ZooDefs.OpCode`).
const PING: i32 = 11;

/// Adds the words of the reply to a request of this type, and says whether the packet is one.
pub fn push_reply(
    alloc: Global,
    line: &mut Vec<u8>,
    packet: &[u8],
    kind: i32,
) -> Result<bool, Memory> {
    if packet.len() < LENGTH {
        return Ok(false);
    }
    let frame = &packet[LENGTH..];
    let read = match read_reply(alloc, frame, kind) {
        // A request of a type that is not served is answered with an error, which is read alike whatever the type.
        Err(WireFault::Unknown { .. }) => read_reply(alloc, frame, PING),
        read => read,
    };
    match read {
        Ok((xid, zxid, reply)) => {
            push_number_after(line, b"xid", i64::from(xid))?;
            push_number_after(line, b"zxid", zxid)?;
            match reply {
                Reply::Refused(code) => push_code(line, code)?,
                Reply::Good(body) => push_body(line, &body)?,
            }
            Ok(true)
        }
        Err(WireFault::Memory) => Err(Memory),
        Err(_) => Ok(false),
    }
}

fn push_body(line: &mut Vec<u8>, body: &Body) -> Result<(), Memory> {
    match body {
        Body::Empty => push_word(line, b"ok"),
        Body::Path(path) => push_text_after(line, b"path", path.as_slice()),
        Body::Stat(stat) => push_stat(line, stat),
        Body::Content(content, stat) => {
            push_text_after(line, b"data", content.as_slice())?;
            push_stat(line, stat)
        }
        Body::Names(names) => push_names(line, names.as_slice()),
        Body::NamesStat(names, stat) => {
            push_names(line, names.as_slice())?;
            push_stat(line, stat)
        }
        Body::OpenAcl(stat) => {
            push_word(line, b"acl 31 \"world\" \"anyone\"")?;
            push_stat(line, stat)
        }
        Body::Parts(results) => push_results(line, results.as_slice()),
        Body::PathStat(path, stat) => {
            push_text_after(line, b"path", path.as_slice())?;
            push_stat(line, stat)
        }
    }
}

fn push_names(line: &mut Vec<u8>, names: &[Text]) -> Result<(), Memory> {
    push_word(line, b"children")?;
    for name in names {
        push_text(line, name.as_slice())?;
    }
    Ok(())
}

fn push_results(line: &mut Vec<u8>, results: &[PartResult]) -> Result<(), Memory> {
    push_word(line, b"multi")?;
    for (place, outcome) in results.iter().enumerate() {
        if place > 0 {
            push_word(line, b"and")?;
        }
        match outcome {
            PartResult::Created(path) => push_text_after(line, b"create", path.as_slice())?,
            PartResult::Deleted => push_word(line, b"delete")?,
            PartResult::Set(stat) => {
                push_word(line, b"setData")?;
                push_stat(line, stat)?;
            }
            PartResult::Checked => push_word(line, b"check")?,
            PartResult::Code(code) => push_code(line, *code)?,
        }
    }
    Ok(())
}

fn push_stat(line: &mut Vec<u8>, stat: &Stat) -> Result<(), Memory> {
    push_word(line, b"stat")?;
    push_unless_0(line, b"czxid", stat.czxid)?;
    push_unless_0(line, b"mzxid", stat.mzxid)?;
    push_unless_0(line, b"ctime", stat.ctime)?;
    push_unless_0(line, b"mtime", stat.mtime)?;
    push_unless_0(line, b"version", i64::from(stat.version))?;
    push_unless_0(line, b"cversion", i64::from(stat.cversion))?;
    push_unless_0(line, b"aversion", i64::from(stat.aversion))?;
    if stat.ephemeral_owner != 0 {
        push_hex_after(line, b"ephemeralOwner", &stat.ephemeral_owner.to_be_bytes())?;
    }
    push_unless_0(line, b"dataLength", i64::from(stat.data_length))?;
    push_unless_0(line, b"numChildren", i64::from(stat.num_children))?;
    push_unless_0(line, b"pzxid", stat.pzxid)
}

fn push_unless_0(line: &mut Vec<u8>, name: &[u8], number: i64) -> Result<(), Memory> {
    if number == 0 {
        Ok(())
    } else {
        push_number_after(line, name, number)
    }
}

/// Adds an error by its name (`KeeperException.Code`), or by its number where no reply of the service has it.
fn push_code(line: &mut Vec<u8>, code: i32) -> Result<(), Memory> {
    match code {
        code::OK => push_word(line, b"ok"),
        code::SYSTEM_ERROR => push_word(line, b"error SystemError"),
        code::RUNTIME_INCONSISTENCY => push_word(line, b"error RuntimeInconsistency"),
        code::MARSHALLING_ERROR => push_word(line, b"error MarshallingError"),
        code::UNIMPLEMENTED => push_word(line, b"error Unimplemented"),
        code::BAD_ARGUMENTS => push_word(line, b"error BadArguments"),
        code::NO_NODE => push_word(line, b"error NoNode"),
        code::BAD_VERSION => push_word(line, b"error BadVersion"),
        code::NO_CHILDREN_FOR_EPHEMERALS => push_word(line, b"error NoChildrenForEphemerals"),
        code::NODE_EXISTS => push_word(line, b"error NodeExists"),
        code::NOT_EMPTY => push_word(line, b"error NotEmpty"),
        code::SESSION_EXPIRED => push_word(line, b"error SessionExpired"),
        code::INVALID_ACL => push_word(line, b"error InvalidACL"),
        code::AUTH_FAILED => push_word(line, b"error AuthFailed"),
        code::SESSION_MOVED => push_word(line, b"error SessionMoved"),
        code::NO_WATCHER => push_word(line, b"error NoWatcher"),
        _ => {
            push_word(line, b"error ")?;
            push_signed(line, i64::from(code))
        }
    }
}

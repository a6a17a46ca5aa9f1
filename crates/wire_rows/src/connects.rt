//! Rows of connects, of their answers and of notifications.

use crate::packets::frame_of;
use row_files::{Piece, Words, bytes_of, hex_of, joined};
use std::alloc::Global;
use zk_model::{ConnectRequest, ConnectResponse, Notice};
use zk_wire::{WireFault, notice_can_be_sent, read_connect, write_connect, write_notice};
use zx_base::{Memory, Text};

/// The fields of a connect's packet, or that it is none.
pub fn read(alloc: Global, packet: &str) -> Result<Option<String>, Memory> {
    match bytes_of(alloc, packet)? {
        Some(packet) => read_packet(alloc, packet.as_slice()),
        None => Ok(None),
    }
}

fn read_packet(alloc: Global, packet: &[u8]) -> Result<Option<String>, Memory> {
    match frame_of(alloc, packet)? {
        Some(frame) => Ok(Some(read_frame(alloc, frame.as_slice())?)),
        None => Ok(None),
    }
}

fn read_frame(alloc: Global, frame: &[u8]) -> Result<String, Memory> {
    match read_connect(alloc, frame) {
        Ok(connect) => said_of(alloc, &connect),
        Err(WireFault::Memory) => Err(Memory),
        Err(_) => Ok(String::from_str(alloc, "no connect")?),
    }
}

fn said_of(alloc: Global, connect: &ConnectRequest) -> Result<String, Memory> {
    let passwd = hex_of(alloc, connect.passwd.as_slice())?;
    let read_only = match connect.read_only {
        Some(true) => "true",
        Some(false) => "false",
        None => "-",
    };
    let pieces = [
        Piece::Text("protocolVersion "),
        Piece::Number(i64::from(connect.protocol)),
        Piece::Text(" lastZxidSeen "),
        Piece::Number(connect.last_zxid),
        Piece::Text(" timeOut "),
        Piece::Number(i64::from(connect.timeout)),
        Piece::Text(" sessionId "),
        Piece::Number(connect.session),
        Piece::Text(" passwd "),
        Piece::Text(passwd.as_str()),
        Piece::Text(" readOnly "),
        Piece::Text(read_only),
    ];
    joined(alloc, &pieces)
}

/// The packet of a notification. On the left stand its type and its path.
pub fn notice(alloc: Global, row: &str) -> Result<Option<String>, Memory> {
    let mut words = Words::new(row);
    let (Some(kind), Some(path)) = (words.int(), words.word()) else {
        return Ok(None);
    };
    let notice = Notice {
        kind,
        path: Text::copy_of(alloc, path.as_bytes())?,
    };
    if !notice_can_be_sent(&notice) {
        return Ok(None);
    }
    let packet = write_notice(alloc, &notice)?;
    exact(alloc, &packet)
}

/// The packet of an answer to a connect. On the left stand its timeOut, sessionId, passwd and readOnly.
pub fn answer(alloc: Global, row: &str) -> Result<Option<String>, Memory> {
    let mut words = Words::new(row);
    let (Some(timeout), Some(session)) = (words.int(), words.long()) else {
        return Ok(None);
    };
    let (Some(digits), Some(flag)) = (words.word(), words.word()) else {
        return Ok(None);
    };
    let mut passwd = [0u8; 16];
    if hex::decode_to_slice(digits, &mut passwd).is_err() {
        return Ok(None);
    }
    let read_only = match flag {
        "true" => Some(true),
        "false" => Some(false),
        _ => None,
    };
    let response = ConnectResponse {
        timeout,
        session,
        passwd,
        read_only,
    };
    let packet = write_connect(alloc, &response)?;
    exact(alloc, &packet)
}

/// A packet as hex; None where it has more room than it needs.
fn exact(alloc: Global, packet: &Vec<u8>) -> Result<Option<String>, Memory> {
    if packet.capacity() == packet.len() {
        Ok(Some(hex_of(alloc, packet.as_slice())?))
    } else {
        Ok(None)
    }
}

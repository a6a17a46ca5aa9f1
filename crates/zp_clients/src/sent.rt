//! What the lines of a transcript say of a client and its replies.

ghost use Rattle.std.specs.Prelude.{◌≡◌, ◌≤◌};
ghost use Rattle.zp_clients.specs.Sent.{awaited_by, awaits_reply, int_at, is_notice, is_refusal, is_reply};

use zk_transcript::TranscriptLine;
use zk_wire::byte_at;

/// The xid of a notification, -1, as an unsigned number.
const NOTICE_XID: u32 = 4_294_967_295;

/// Where the xid and the error stand in a packet, whose length comes first.
const XID_PLACE: usize = 4;

const CODE_PLACE: usize = 16;

/// The int at a place of a packet, as an unsigned number.
fn int_at(packet: &[u8], place: usize) -> u32
    requires { place ≤ 16 }
    ensures { result ≡ int_at packet.now place }
{
    u32::from_be_bytes([
        byte_at(packet, place),
        byte_at(packet, place + 1),
        byte_at(packet, place + 2),
        byte_at(packet, place + 3),
    ])
}

/// Whether a packet is a notification.
pub fn is_notice(packet: &[u8]) -> bool
    ensures { result ≡ is_notice packet.now }
{
    int_at(packet, XID_PLACE) == NOTICE_XID
}

/// Whether a packet is a reply, and not the answer to a connect.
pub fn is_reply(packet: &[u8]) -> bool
    ensures { result ≡ is_reply packet.now }
{
    !is_notice(packet) && int_at(packet, XID_PLACE) != 0
}

/// Whether a packet is a reply with an error.
pub fn is_refusal(packet: &[u8]) -> bool
    ensures { result ≡ is_refusal packet.now }
{
    is_reply(packet) && int_at(packet, CODE_PLACE) != 0
}

/// Whether a connection awaits a reply after this line; `None` where the line does not tell.
fn awaited_by(connection: u32, line: &TranscriptLine) -> Option<bool>
    ensures { result ≡ awaited_by connection line.now }
{
    match line {
        TranscriptLine::Frame {
            connection: sender,
            ..
        } => {
            if connection == *sender {
                Some(true)
            } else {
                None
            }
        }
        TranscriptLine::Send {
            connection: receiver,
            bytes,
        } => {
            if connection == *receiver && !is_notice(bytes.as_slice()) {
                Some(false)
            } else {
                None
            }
        }
        _ => None,
    }
}

/// Whether a connection awaits a reply: the last line of its frames and of the answers to them is a frame's.
pub fn awaits_reply(connection: u32, lines: &[TranscriptLine]) -> bool
    ensures { result ≡ awaits_reply connection lines.now }
{
    let mut left = lines.len();
    'lines: while left > 0 {
        left -= 1;
        if let Some(awaits) = awaited_by(connection, &lines[left]) {
            return awaits;
        }
    }
    false
}

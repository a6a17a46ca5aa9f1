//! The packets that are due, and those that a connection was sent.

ghost use Rattle.std.specs.Prelude.{◌≡◌, ◌&&◌, ◌++◌, [], ℕ, List, bytes_eq, drop, length, nat_le, take, if◌then◌else◌, slice_get, Some, None, option_map, IfOk, IsTrue, OnOk, ◌≤◌};
ghost use Rattle.std.specs.Int.{from_be_bytes, w32, w64};
ghost use Rattle.std.specs.List.{All};
ghost use Rattle.zk_jute.specs.Packets.{CanBeSent, NoticeCanBeSent, notice_packet as notice_packet_of, reply_packet as reply_packet_of};
ghost use Rattle.zk_transcript.specs.Walks.{due_notices};
ghost use Rattle.zk_least.specs.LeastWalk.{rest_after, next_reply as next_reply_of, zxid_in as zxid_in_of};
ghost use Rattle.zk_least.specs.LeastMoments.{code_in as code_in_of};
ghost use Rattle.zk_history.specs.Shown.{placed_bytes};
ghost use Rattle.zk_judge.specs.Sent.{packets_in};
ghost use Rattle.zk_least.specs.LeastQueues.{is_apart as is_apart_of, is_front as is_front_of};

use crate::sent::Packets;
use std::alloc::Global;
use zk_model::{Notice, Reply};
use zk_wire::{byte_at, write_notice, write_reply};
use zx_base::{Bytes, Memory};

/// A packet that is due, and the first place where its line may stand.
pub type Due = (usize, Bytes);

/// The first packet, with its place.
pub fn first_packet<'a>(packets: Packets<'a>) -> Option<(usize, &'a [u8])>
    ensures { option_map placed_bytes result ≡ slice_get (packets_in packets.entry) 0 }
{
    match packets.split() {
        Some((place, bytes, _)) => Some((place, bytes)),
        None => None,
    }
}

/// The packet of a reply.
pub fn reply_packet(alloc: Global, xid: i32, zxid: i64, reply: &Reply) -> Result<Bytes, Memory>
    requires { CanBeSent reply.now }
    ensures { IfOk result (λ b. b ≡ reply_packet_of xid zxid reply.now) }
{
    Ok(Bytes::from_vec(write_reply(alloc, xid, zxid, reply)?))
}

/// The packet of a notice.
fn notice_packet(alloc: Global, notice: &Notice) -> Result<Bytes, Memory>
    requires { NoticeCanBeSent notice.now }
    ensures { IfOk result (λ b. b ≡ notice_packet_of notice.now) }
{
    Ok(Bytes::from_vec(write_notice(alloc, notice)?))
}

/// Adds the packets of notices, which are due from a place on.
pub fn add_notices(
    alloc: Global,
    due: &mut Vec<Due>,
    place: usize,
    notices: &[Notice],
) -> Result<(), Memory>
    requires { All NoticeCanBeSent notices.now }
    ensures { OnOk result (due.new.items ≡ due.old.items ++ due_notices place notices.now) }
{
    for notice in notices {
        due.push((place, notice_packet(alloc, notice)?))?;
    }
    Ok(())
}

/// The eight bytes after a packet's length and its xid.
fn zxid_bytes(packet: &[u8]) -> [u8; 8]
    ensures { from_be_bytes w64 result ≡ from_be_bytes w64 (take 8 (drop 8 packet.now)) }
{
    [
        byte_at(packet, 8),
        byte_at(packet, 9),
        byte_at(packet, 10),
        byte_at(packet, 11),
        byte_at(packet, 12),
        byte_at(packet, 13),
        byte_at(packet, 14),
        byte_at(packet, 15),
    ]
}

/// The zxid in a packet's header, after its length and its xid (`ReplyHeader`); a notice's is -1.
#[tactic(auto, unfolding(zk_least::specs::LeastWalk::zxid_in))]
pub fn zxid_in(packet: &[u8]) -> i64
    ensures { result ≡ zxid_in_of packet.now }
{
    u64::from_be_bytes(zxid_bytes(packet)).cast_signed()
}

/// The four bytes after a reply's zxid.
fn code_bytes(packet: &[u8]) -> [u8; 4]
    ensures { from_be_bytes w32 result ≡ from_be_bytes w32 (take 4 (drop 16 packet.now)) }
{
    [
        byte_at(packet, 16),
        byte_at(packet, 17),
        byte_at(packet, 18),
        byte_at(packet, 19),
    ]
}

/// The code in a reply's header, after its zxid (`ReplyHeader`).
#[tactic(auto, unfolding(zk_least::specs::LeastMoments::code_in))]
pub fn code_in(packet: &[u8]) -> i32
    ensures { result ≡ code_in_of packet.now }
{
    u32::from_be_bytes(code_bytes(packet)).cast_signed()
}

/// The first packet that is no notice.
pub fn next_reply<'a>(packets: Packets<'a>) -> Option<&'a [u8]>
    ensures { option_map (λ b. b.now) result ≡ next_reply_of (packets_in packets.entry) }
{
    let mut left = packets;
    'packets: while let Some((_, bytes, rest)) = left.split() {
        if zxid_in(bytes) != -1 {
            return Some(bytes);
        }
        left = rest;
    }
    None
}

/// Whether a packet is the one that is due, and does not stand before the first place where it may.
fn is_given(due: &Due, place: usize, bytes: &[u8]) -> bool
    ensures { result ≡ (nat_le due.now.0 place && bytes_eq due.now.1 bytes.now) }
{
    let (first, wanted) = due;
    *first <= place && wanted.is(bytes)
}

/// Whether the packets that are due come next, none before the first place where it may stand.
pub fn come_first(due: &[Due], packets: Packets<'_>) -> bool
    ensures within { IsTrue result → length due.now ≤ length (packets_in packets.entry) }
    ensures rest { rest_after due.now (packets_in packets.entry) ≡ (if result then Some (drop (length due.now) (packets_in packets.entry)) else None) }
{
    let mut left = packets;
    for wanted in due {
        let Some((place, bytes, rest)) = left.split() else {
            return false;
        };
        if !is_given(wanted, place, bytes) {
            return false;
        }
        left = rest;
    }
    true
}

/// Whether the next notice, if there is one, is another update's.
fn is_apart(place: usize, later: &[Due]) -> bool
    ensures { (bytes : List ℕ) → result ≡ is_apart_of (place, bytes) later.now }
{
    match later {
        [] => true,
        [(next, _), ..] => place != *next,
    }
}

/// Whether the packets are the front of a queue, which ends with the last notice of an update.
pub fn is_front(packets: Packets<'_>, queue: &[Due]) -> bool
    ensures { result ≡ is_front_of (packets_in packets.entry) queue.now }
{
    let mut left = packets;
    for (at, wanted) in queue.iter().enumerate() {
        let Some((place, bytes, rest)) = left.split() else {
            return true;
        };
        if !is_given(wanted, place, bytes) {
            return false;
        }
        if rest.len() == 0 {
            return is_apart(wanted.0, &queue[at + 1..]);
        }
        left = rest;
    }
    left.len() == 0
}

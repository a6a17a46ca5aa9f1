//! Writing packets, each a frame after its length. Each call reserves the packet once and copies each field once.

ghost use Rattle.std.specs.Prelude.{◌≡◌, ◌↔◌, length, pos, IfOk, IsTrue};
ghost use Rattle.zk_jute.specs.Connects.{connect_response_values};
ghost use Rattle.zk_jute.specs.JuteWriting.{written};
ghost use Rattle.zk_jute.specs.Packets.{CanBeSent, NoticeCanBeSent, notice_values, reply_bytes, reply_packet, notice_packet, connect_packet};
ghost use Rattle.zk_jute.specs.Sending.{RequestCanBeSent, request_bytes, request_packet};
ghost use Rattle.zk_wire.specs.Putting.{counted};

use crate::reply_fields::{put_connect, put_notice, put_reply};
use crate::request_fields::put_request;
use crate::sink::Size;
use crate::writer::Writer;
use std::alloc::Global;
use zk_model::{ConnectResponse, Notice, Reply, Request};
use zx_base::Memory;

/// The most bytes of a frame whose length fits its int.
const LONGEST: u64 = 0x7fff_ffff;

/// The packet of an answer to a connect (zookeeper.jute, `ConnectResponse`).
pub fn write_connect(alloc: Global, response: &ConnectResponse) -> Result<Vec<u8>, Memory>
    ensures { IfOk result (λ packet. packet.items ≡ connect_packet response.now) }
{
    // Proof only: an array that is read has the length of its type, 16.
    let _passwd = response.passwd;
    let mut packet = Writer::new(alloc, connect_size(response))?;
    put_connect(&mut packet, response)?;
    Ok(packet.finish())
}

/// The packet of a reply to the request with this xid (`ReplyHeader`). Ask [`reply_can_be_sent`] first.
pub fn write_reply(alloc: Global, xid: i32, zxid: i64, reply: &Reply) -> Result<Vec<u8>, Memory>
    requires { CanBeSent reply.now }
    ensures { IfOk result (λ packet. packet.items ≡ reply_packet xid zxid reply.now) }
{
    let mut packet = Writer::new(alloc, reply_size(reply))?;
    put_reply(&mut packet, xid, zxid, reply)?;
    Ok(packet.finish())
}

/// The packet of a notification (`WatcherEvent`). Ask [`notice_can_be_sent`] first.
pub fn write_notice(alloc: Global, notice: &Notice) -> Result<Vec<u8>, Memory>
    requires { NoticeCanBeSent notice.now }
    ensures { IfOk result (λ packet. packet.items ≡ notice_packet notice.now) }
{
    let mut packet = Writer::new(alloc, notice_size(notice))?;
    put_notice(&mut packet, notice)?;
    Ok(packet.finish())
}

/// The packet of a request, as clients write it. Ask [`request_can_be_sent`] first.
pub fn write_request(alloc: Global, xid: i32, request: &Request) -> Result<Vec<u8>, Memory>
    requires { RequestCanBeSent request.now }
    ensures { IfOk result (λ packet. packet.items ≡ request_packet xid request.now) }
{
    let mut packet = Writer::new(alloc, request_size(request))?;
    put_request(&mut packet, xid, request)?;
    Ok(packet.finish())
}

/// Whether the length of a reply's frame fits its int, 2,147,483,647 bytes at most. Goes through the fields and copies none.
pub fn reply_can_be_sent(reply: &Reply) -> bool
    ensures { IsTrue result ↔ CanBeSent reply.now }
{
    reply_size(reply) <= LONGEST
}

/// Whether the length of a notification's frame fits its int, 2,147,483,647 bytes at most.
pub fn notice_can_be_sent(notice: &Notice) -> bool
    ensures { IsTrue result ↔ NoticeCanBeSent notice.now }
{
    notice_size(notice) <= LONGEST
}

/// Whether the length of a request's frame fits its int, 2,147,483,647 bytes at most; a server takes 1,048,575. Goes through the
/// fields and copies none.
pub fn request_can_be_sent(request: &Request) -> bool
    ensures { IsTrue result ↔ RequestCanBeSent request.now }
{
    request_size(request) <= LONGEST
}

fn connect_size(response: &ConnectResponse) -> u64
    ensures { result ≡ counted (length (written (connect_response_values response.now))) }
{
    let mut size = Size::new();
    let Ok(()) = put_connect(&mut size, response);
    size.bytes()
}

/// The bytes of a reply's frame, which are as many whatever its xid and zxid.
fn reply_size(reply: &Reply) -> u64
    ensures { result ≡ counted (length (reply_bytes (pos 0) (pos 0) reply.now)) }
{
    let mut size = Size::new();
    let Ok(()) = put_reply(&mut size, 0, 0, reply);
    size.bytes()
}

fn notice_size(notice: &Notice) -> u64
    ensures { result ≡ counted (length (written (notice_values notice.now))) }
{
    let mut size = Size::new();
    let Ok(()) = put_notice(&mut size, notice);
    size.bytes()
}

/// The bytes of a request's frame, which are as many whatever its xid.
fn request_size(request: &Request) -> u64
    ensures { result ≡ counted (length (request_bytes (pos 0) request.now)) }
{
    let mut size = Size::new();
    let Ok(()) = put_request(&mut size, 0, request);
    size.bytes()
}

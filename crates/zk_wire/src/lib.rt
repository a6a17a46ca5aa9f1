//! ZooKeeper's wire protocol, both ways: a stream as frames, frames as records, records as packets (zookeeper.jute, release
//! 3.4, and the three requests of release 3.5 that are answered).
//!
//! A packet is a length of four bytes and a frame of that many bytes. [`Cutter`] takes a stream in whatever pieces it
//! comes and hands out its frames. The first frame of a connection is read by [`read_connect`], each later one by
//! [`read_request`]; the answers are written by [`write_connect`], [`write_reply`] and [`write_notice`]. Tools and tests
//! read and write the other side too, by [`write_request`] and [`read_reply`].
//!
//! # Faults
//!
//! A frame that cannot be read is a [`WireFault`], with the place of the first byte that is to blame: an offset in the
//! frame, without its length. The places are those of `read_request` and `read_reply` in zk_jute's `specs/`:
//!
//! - the first byte of the first value that cannot be read, which for a text or a buffer is its length's first byte;
//! - where a vector has fewer items than its count, the first value that is missing;
//! - the first byte after the body, where bytes stand there;
//! - a header of a multi, where its type is not listed;
//! - in a reply, the count of an access list that is not the open one, and a result's header that is of no form or whose
//!   error the code after it does not repeat.
//!
//! # Cost
//!
//! Every call takes time in proportion to the bytes that it is given or gives. Where nothing is held, cutting copies each
//! frame once, straight from the piece, and holds a copy of what is not whole. Where bytes are held, it first copies the
//! whole piece after them, and all of this once more from there. Reading copies each text and each buffer once and allocates
//! once for each of them and for each vector; only the parts and results of a multi are grown one by one. Writing reserves
//! the packet's length once and copies each text and each buffer once, and the numbers of a Stat together. `bench/wire.sh`
//! runs it beside the same work in plain Rust.
#![tactic(auto)]

mod connects;
mod cutter;
mod fault;
mod laws;
mod packets;
mod places;
mod reader;
mod replies;
mod reply_fields;
mod request_fields;
mod requests;
mod sink;
mod stat_bytes;
mod writer;

pub use connects::read_connect;
pub use cutter::{CutFault, Cutter};
pub use fault::WireFault;
pub use laws::frames_in_any_pieces;
pub use packets::{
    notice_can_be_sent, reply_can_be_sent, request_can_be_sent, write_connect, write_notice,
    write_reply, write_request,
};
pub use places::byte_at;
pub use replies::read_reply;
pub use request_fields::{put_body, put_part_fields};
pub use requests::read_request;
pub use sink::FieldSink;

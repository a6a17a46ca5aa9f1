//! The wire format of ZooKeeper as definitions and laws: frames, records, packets (zookeeper.jute, release 3.4, and the
//! three requests of release 3.5 that are answered).
//!
//! The codec, `zk_wire`, is proved to be these definitions, and transcripts cite them, so that neither is checked again when
//! the other changes.
//!
//! In reading order: `JuteValues` (values of jute and the bytes that spell them); `Numbers`, `Records`, `Connects`,
//! `Results`, `Replies`, `Packets` (the values of each record); `Grammar`, `Frames` (what a frame and a stream spell). That
//! is what a reader has to believe. `JuteReading`, `FromValues`, `Requests`, `ReplyReading` say how frames are read, faults
//! and their places included, and `JuteWriting`, `Sending` which spelling is written. The functions of [`laws`] do nothing:
//! their contracts are the laws, which tie reading and writing to the grammar.
#![tactic(auto)]

mod laws;
mod opcode;

pub use laws::{
    connect_responses_are_spelled, connects_are_spelled, notices_are_spelled, replies_are_spelled,
    replies_come_back, requests_are_spelled, requests_come_back,
};
pub use opcode::{Opcode, PartKind};

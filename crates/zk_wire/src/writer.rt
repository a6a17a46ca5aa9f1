//! Writing a packet: a frame after its length.

ghost use Rattle.std.specs.Prelude.{◌≡◌, ◌<◌, ◌^◌, [], ◌++◌, length, OnOk, IfOk};
ghost use Rattle.zk_jute.specs.JuteValues.{open_acl};
ghost use Rattle.zk_jute.specs.JuteWriting.{int_bytes, long_bytes, count_bytes, string_bytes, acl_bytes, canonical, CanBeWritten, IsShort, IsShortAcl, FitsLength, with_length};

use crate::sink::FieldSink;
use crate::stat_bytes::stat_bytes;
use byteorder::{BigEndian, ByteOrder};
use std::alloc::Global;
use std::marker::Model;
use zk_model::{Acl, Stat};
use zx_base::{Memory, Text};

/// The bytes of a packet's length.
const LENGTH: usize = 4;

/// A packet as far as it is written. Contracts see its frame, without the four bytes for its length.
#[derive(Drop)]
pub struct Writer {
    packet: Vec<u8>,
}

impl Model for Writer {
    ghost use Rattle.std.specs.Prelude.{ℕ, ◌≤◌, List, length, drop};

    ghost Value = { List ℕ };

    ghost view = { λ w. drop 4 w.packet.items };

    ghost invariant = { λ w. 4 ≤ length w.packet.items };
}

impl Writer {
    /// An empty frame, with room for so many bytes and its length.
    pub fn new(alloc: Global, bytes: u64) -> Result<Writer, Memory>
        ensures { IfOk result (λ w. w ≡ []) }
    {
        let mut packet = Vec::with_capacity(alloc, (bytes as usize).saturating_add(LENGTH))?;
        packet.extend_from_slice(&[0; LENGTH])?;
        Ok(Writer { packet })
    }

    /// The packet, its length filled in.
    #[tactic(auto, unfolding(zk_jute::specs::JuteWriting::int_bytes))]
    pub fn finish(self) -> Vec<u8>
        requires { FitsLength self }
        ensures { result.items ≡ with_length self }
    {
        let mut packet = self.packet;
        let length = packet.len() - LENGTH;
        BigEndian::write_i32(&mut packet, length as i32);
        packet
    }

    fn bytes(&mut self, bytes: &[u8]) -> Result<(), Memory>
        ensures { OnOk result (self.new ≡ self.old ++ bytes.now) }
    {
        self.packet.extend_from_slice(bytes)?;
        Ok(())
    }

    fn count(&mut self, count: usize) -> Result<(), Memory>
        requires { count < 2 ^ 31 }
        ensures { OnOk result (self.new ≡ self.old ++ count_bytes count) }
    {
        self.int(count as i32)
    }

    /// The bytes of a buffer or of a text.
    fn string(&mut self, bytes: &[u8]) -> Result<(), Memory>
        requires { IsShort bytes.now }
        ensures { OnOk result (self.new ≡ self.old ++ string_bytes bytes.now) }
    {
        self.count(bytes.len())?;
        self.bytes(bytes)
    }

    fn acl(&mut self, entry: &Acl) -> Result<(), Memory>
        requires { IsShortAcl entry.now }
        ensures { OnOk result (self.new ≡ self.old ++ acl_bytes entry.now) }
    {
        self.int(entry.perms)?;
        self.string(entry.scheme.as_slice())?;
        self.string(entry.id.as_slice())
    }
}

impl FieldSink for Writer {
    type Fault = Memory;

    ghost can_put = { CanBeWritten };

    ghost put = { λ out v. out ++ canonical v };

    #[tactic(auto, unfolding(zk_jute::specs::JuteWriting::int_bytes))]
    fn int(&mut self, number: i32) -> Result<(), Memory> {
        self.bytes(&number.to_be_bytes())
    }

    #[tactic(auto, unfolding(zk_jute::specs::JuteWriting::long_bytes))]
    fn long(&mut self, number: i64) -> Result<(), Memory> {
        self.bytes(&number.to_be_bytes())
    }

    fn boolean(&mut self, flag: bool) -> Result<(), Memory> {
        if flag {
            self.bytes(&[1])
        } else {
            self.bytes(&[0])
        }
    }

    fn buffer(&mut self, bytes: &[u8]) -> Result<(), Memory> {
        self.string(bytes)
    }

    fn ustring(&mut self, text: &[u8]) -> Result<(), Memory> {
        self.string(text)
    }

    fn ustrings(&mut self, texts: &[Text]) -> Result<(), Memory> {
        self.count(texts.len())?;
        for text in texts {
            self.string(text.as_slice())?;
        }
        Ok(())
    }

    fn acls(&mut self, entries: &[Acl]) -> Result<(), Memory> {
        self.count(entries.len())?;
        for entry in entries {
            self.acl(entry)?;
        }
        Ok(())
    }

    fn open_acl(&mut self) -> Result<(), Memory> {
        self.count(1)?;
        self.int(31)?;
        self.string(b"world")?;
        self.string(b"anyone")
    }

    fn stat(&mut self, stat: &Stat) -> Result<(), Memory> {
        self.bytes(&stat_bytes(stat))
    }
}

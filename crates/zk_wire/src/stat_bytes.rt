//! The bytes of a Stat. They are always 68, so that a packet takes them all at once.

ghost use Rattle.std.specs.Prelude.{◌≡◌, ◌≤◌, ◌+◌, [], ◌++◌, length};
ghost use Rattle.zk_jute.specs.JuteWriting.{int_bytes, long_bytes, written};
ghost use Rattle.zk_jute.specs.Records.{stat_values};

use std::marker::Model;
use zk_model::Stat;

/// How many bytes a Stat has: six longs and five ints.
pub const STAT: usize = 68;

/// The bytes of a Stat as far as they are written, which contracts see.
#[derive(Drop)]
struct Block {
    bytes: [u8; STAT],
    used: usize,
}

impl Model for Block {
    ghost use Rattle.std.specs.Prelude.{ℕ, ◌≤◌, List, take};

    ghost Value = { List ℕ };

    ghost view = { λ b. take b.used b.bytes };

    ghost invariant = { λ b. b.used ≤ 68 };
}

impl Block {
    fn new() -> Block
        ensures { result ≡ [] }
    {
        Block {
            bytes: [0; STAT],
            used: 0,
        }
    }

    #[inline(always)]
    fn put<const N: usize>(&mut self, bytes: [u8; N])
        requires { length self.old + N ≤ 68 }
        ensures { self.new ≡ self.old ++ bytes.entry }
    {
        let end = self.used + N;
        self.bytes[self.used..end].copy_from_slice(&bytes);
        self.used = end;
    }

    #[inline(always)]
    #[tactic(auto, unfolding(zk_jute::specs::JuteWriting::int_bytes))]
    fn int(&mut self, number: i32)
        requires { length self.old + 4 ≤ 68 }
        ensures bytes { self.new ≡ self.old ++ int_bytes number }
        ensures long { length self.new ≡ length self.old + 4 }
    {
        self.put(number.to_be_bytes());
    }

    #[inline(always)]
    #[tactic(auto, unfolding(zk_jute::specs::JuteWriting::long_bytes))]
    fn long(&mut self, number: i64)
        requires { length self.old + 8 ≤ 68 }
        ensures bytes { self.new ≡ self.old ++ long_bytes number }
        ensures long { length self.new ≡ length self.old + 8 }
    {
        self.put(number.to_be_bytes());
    }

    /// The whole block.
    fn full(&self) -> [u8; STAT]
        requires { length self.now ≡ 68 }
        ensures { result ≡ self.now }
    {
        self.bytes
    }
}

/// The bytes of a Stat, in the order of zookeeper.jute.
#[tactic(auto, unfolding(zk_jute::specs::Records::stat_values))]
pub fn stat_bytes(stat: &Stat) -> [u8; STAT]
    ensures { result ≡ written (stat_values stat.now) }
{
    let mut block = Block::new();
    block.long(stat.czxid);
    block.long(stat.mzxid);
    block.long(stat.ctime);
    block.long(stat.mtime);
    block.int(stat.version);
    block.int(stat.cversion);
    block.int(stat.aversion);
    block.long(stat.ephemeral_owner);
    block.int(stat.data_length);
    block.int(stat.num_children);
    block.long(stat.pzxid);
    block.full()
}

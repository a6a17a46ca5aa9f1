//! A record's value while it is written.

ghost use Rattle.std.specs.Prelude.{◌≡◌, ◌<◌, ◌^◌, ◌∷◌, [], ◌++◌, length, IfOk, OnOk};
ghost use Rattle.zk_jute.specs.JuteWriting.{int_bytes, long_bytes, count_bytes, string_bytes};

use std::alloc::Global;
use std::marker::Model;
use zx_base::Memory;

/// The first byte of the value of each record but that of a session's nodes, which has it in layout 1.
pub(crate) const RECORD: u8 = 1;

#[derive(Drop)]
pub(crate) struct Writer {
    out: Vec<u8>,
}

impl Model for Writer {
    ghost use Rattle.std.specs.Prelude.{ℕ, List};

    ghost Value = { List ℕ };

    ghost view = { λ w. w.out.items };
}

impl Writer {
    /// A value that is its first byte so far, with room for `capacity` bytes in all.
    pub(crate) fn new(alloc: Global, capacity: usize) -> Result<Writer, Memory>
        ensures { IfOk result (λ w. w ≡ 1 ∷ []) }
    {
        Writer::begun(alloc, RECORD, capacity)
    }

    /// A value that begins with this byte.
    pub(crate) fn begun(alloc: Global, first: u8, capacity: usize) -> Result<Writer, Memory>
        ensures { IfOk result (λ w. w ≡ first ∷ []) }
    {
        let mut out = Vec::with_capacity(alloc, capacity)?;
        out.push(first)?;
        Ok(Writer { out })
    }

    pub(crate) fn into_vec(self) -> Vec<u8>
        ensures { result.items ≡ self }
    {
        self.out
    }

    #[tactic(auto, unfolding(zk_jute::specs::JuteWriting::int_bytes))]
    pub(crate) fn int(&mut self, n: i32) -> Result<(), Memory>
        ensures { OnOk result (self.new ≡ self.old ++ int_bytes n) }
    {
        self.out.extend_from_slice(&n.to_be_bytes())?;
        Ok(())
    }

    #[tactic(auto, unfolding(zk_jute::specs::JuteWriting::long_bytes))]
    pub(crate) fn long(&mut self, n: i64) -> Result<(), Memory>
        ensures { OnOk result (self.new ≡ self.old ++ long_bytes n) }
    {
        self.out.extend_from_slice(&n.to_be_bytes())?;
        Ok(())
    }

    pub(crate) fn byte(&mut self, n: u8) -> Result<(), Memory>
        ensures { OnOk result (self.new ≡ self.old ++ n ∷ []) }
    {
        self.out.push(n)?;
        Ok(())
    }

    pub(crate) fn bytes(&mut self, bytes: &[u8]) -> Result<(), Memory>
        ensures { OnOk result (self.new ≡ self.old ++ bytes.now) }
    {
        self.out.extend_from_slice(bytes)?;
        Ok(())
    }

    pub(crate) fn count(&mut self, n: usize) -> Result<(), Memory>
        requires { n < 2 ^ 31 }
        ensures { OnOk result (self.new ≡ self.old ++ count_bytes n) }
    {
        self.int(n as i32)
    }

    /// The bytes, after their length as an int.
    pub(crate) fn string(&mut self, bytes: &[u8]) -> Result<(), Memory>
        requires { length bytes.now < 2 ^ 31 }
        ensures { OnOk result (self.new ≡ self.old ++ string_bytes bytes.now) }
    {
        self.count(bytes.len())?;
        self.bytes(bytes)
    }
}

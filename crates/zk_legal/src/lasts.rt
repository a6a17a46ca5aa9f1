//! The last request that was carried out for each connection.

ghost use Rattle.std.specs.Prelude.{◌≡◌, ◌==◌, ◌++◌, ◌∷◌, [], ℕ, List, IfOk};
ghost use Rattle.zk_transcript.specs.declared.transcript.TranscriptLine.{TranscriptLine as AnyLine};
ghost use Rattle.zk_legal.specs.Counted.{AreLasts, last_in, later};

use std::alloc::Global;
use std::collections::BTreeMap;
use zk_history::own_mark;
use zk_transcript::TranscriptLine;
use zx_base::Memory;

/// The greatest index of a request that was carried out for each connection.
#[derive(Drop)]
pub struct Lasts {
    indices: BTreeMap<u32, u64>,
}

impl Lasts {
    /// Nothing was carried out.
    pub fn new(alloc: Global) -> Lasts
        ensures { AreLasts [] result }
    {
        Lasts {
            indices: BTreeMap::new(alloc),
        }
    }

    /// The greatest index of a request that was carried out for a connection.
    pub fn last(&self, connection: u32) -> Option<u64>
        ensures { result ≡ last_in self.now connection }
    {
        match self.indices.get(&connection) {
            Some(index) => Some(*index),
            None => None,
        }
    }

    fn with(self, connection: u32, index: u64) -> Result<Lasts, Memory>
        ensures { IfOk result (λ m. (c : ℕ) → last_in m c ≡ later (connection == c) index (last_in self c)) }
    {
        let last = match self.last(connection) {
            Some(last) => index.max(last),
            None => index,
        };
        let mut indices = self.indices;
        indices.insert(connection, last)?;
        Ok(Lasts { indices })
    }

    /// The indices with one more line, after the others.
    pub fn noted(self, line: &TranscriptLine) -> Result<Lasts, Memory>
        ensures { IfOk result (λ m. (before : List AnyLine) → AreLasts before self → AreLasts (before ++ line.now ∷ []) m) }
    {
        match own_mark(line) {
            None => Ok(self),
            Some((connection, index)) => self.with(connection, index),
        }
    }
}

//! The places of lines, looked up by a connection and an index.

ghost use Rattle.std.specs.Prelude.{◌≡◌, ℕ, Some, IfOk};
ghost use Rattle.zk_history.specs.Shown.{is_mark, kept, place_in, nowhere};

use std::alloc::Global;
use std::collections::BTreeMap;
use zx_base::Memory;

/// A connection and an index by which a line is looked up.
pub type Mark = (u32, u64);

/// The place of the first line with each mark.
#[derive(Drop)]
pub struct Firsts {
    places: BTreeMap<Mark, usize>,
}

impl Firsts {
    /// The table of no lines.
    pub fn new(alloc: Global) -> Firsts
        ensures { (c i : ℕ) → place_in result c i ≡ nowhere }
    {
        Firsts {
            places: BTreeMap::new(alloc),
        }
    }

    /// The place of the first line with this mark.
    pub fn place(&self, connection: u32, index: u64) -> Option<usize>
        ensures { result ≡ place_in self.now connection index }
    {
        match self.places.get(&(connection, index)) {
            Some(place) => Some(*place),
            None => None,
        }
    }

    /// The table with one more line, at a place after the others.
    pub fn noted(self, mark: Option<Mark>, place: usize) -> Result<Firsts, Memory>
        ensures { IfOk result (λ f. (c i : ℕ) → place_in f c i ≡ kept (place_in self c i) (is_mark mark c i) place) }
    {
        let Some(mark) = mark else {
            return Ok(self);
        };
        let mut places = self.places;
        if !places.contains_key(&mark) {
            places.insert(mark, place)?;
        }
        Ok(Firsts { places })
    }
}

//! The places of updates, looked up by their zxids.

ghost use Rattle.std.specs.Prelude.{◌≡◌, ℤ, Some, IfOk};
ghost use Rattle.zk_history.specs.Shown.{is_zxid, kept, place_of, nowhere};

use std::alloc::Global;
use std::collections::BTreeMap;
use zx_base::Memory;

/// The place of the first update with each zxid.
#[derive(Drop)]
pub struct Zxids {
    places: BTreeMap<i64, usize>,
}

impl Zxids {
    /// The table of no lines.
    pub fn new(alloc: Global) -> Zxids
        ensures { (z : ℤ) → place_of result z ≡ nowhere }
    {
        Zxids {
            places: BTreeMap::new(alloc),
        }
    }

    /// The place of the first update with this zxid.
    pub fn place(&self, zxid: i64) -> Option<usize>
        ensures { result ≡ place_of self.now zxid }
    {
        match self.places.get(&zxid) {
            Some(place) => Some(*place),
            None => None,
        }
    }

    /// The table with one more line, at a place after the others.
    pub fn noted(self, zxid: Option<i64>, place: usize) -> Result<Zxids, Memory>
        ensures { IfOk result (λ f. (z : ℤ) → place_of f z ≡ kept (place_of self z) (is_zxid zxid z) place) }
    {
        let Some(zxid) = zxid else {
            return Ok(self);
        };
        let mut places = self.places;
        if !places.contains_key(&zxid) {
            places.insert(zxid, place)?;
        }
        Ok(Zxids { places })
    }
}

//! A list that only proofs read.

ghost use Rattle.std.specs.Prelude.{◌≡◌, List, [], ◌∷◌, ◌++◌};
ghost use Rattle.std.specs.Borrow.{ftrue};

use std::marker::{Model, PhantomData};

/// A list of items, the oldest first, that only contracts can read, as `items`.
#[derive(Drop)]
pub struct GhostHistory<T> {
    of: PhantomData<T>,
    pub ghost items: { List T },
}

impl<T> Model for GhostHistory<T> {
    ghost also_owns = { λ _. ftrue };
}

// Sound: it has no bytes, so threads that share it share nothing.
unsafe impl<T: Send> Send for GhostHistory<T> {}

unsafe impl<T: Send> Sync for GhostHistory<T> {}

impl<T> GhostHistory<T> {
    /// The empty history.
    pub fn new() -> GhostHistory<T>
        ensures { result.items ≡ [] }
    {
        GhostHistory { of: PhantomData }
    }

    /// The history with one more item at its end. The item stays the caller's.
    pub fn and(&self, item: &T) -> GhostHistory<T>
        ensures { result.items ≡ self.now.items ++ item.now ∷ [] }
    {
        GhostHistory { of: PhantomData }
    }
}

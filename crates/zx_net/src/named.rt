//! A source or a sink under a name.

ghost use Rattle.std.specs.Prelude.{◌≡◌};

use crate::{NoBell, Wakes};
use std::alloc::Global;
use std::sync::Arc;
use zx_outside::{Got, Sink, Source, Took};

/// A source or a sink that goes by another name. All else is as `inner` has it.
#[derive(Drop)]
pub struct Named<S> {
    inner: S,
    name: u64,
}

impl<S> Named<S> {
    /// Under this name.
    pub fn new(inner: S, name: u64) -> Named<S>
        ensures inner { result.inner ≡ inner }
        ensures name { result.name ≡ name }
    {
        Named { inner, name }
    }

    /// What goes by the name.
    pub fn inner(&self) -> &S
        ensures { result.now ≡ self.now.inner }
    {
        &self.inner
    }
}

impl<S: Source> Source for Named<S> {
    ghost given = { λ s. S.given s.inner };

    ghost left = { λ s. S.left s.inner };

    ghost counts = { λ s. S.counts s.inner };

    ghost ended = { λ s. S.ended s.inner };

    ghost name = { λ s. s.name };

    fn read(&mut self, buf: &mut [u8]) -> Got {
        self.inner.read(buf)
    }

    fn read_line(&mut self, buf: &mut [u8]) -> Got {
        self.inner.read_line(buf)
    }
}

impl<S: Source> Wakes for Named<S> {
    type Bell = NoBell;

    fn bell(&mut self) -> Option<Arc<NoBell, Global>> {
        None
    }
}

impl<S: Sink> Sink for Named<S> {
    ghost taken = { λ s. S.taken s.inner };

    ghost counts = { λ s. S.counts s.inner };

    ghost name = { λ s. s.name };

    fn write(&mut self, piece: &[u8]) -> Took {
        self.inner.write(piece)
    }
}

//! Who takes what was served.

ghost use Rattle.std.specs.Prelude.{◌≡◌, List, Option, [], IfOk, IfSome, OnOk, OnErr};

use crate::served::Served;
use std::alloc::Global;
use zp_run::{ListTrace, NoTrace, Trace};
use zx_base::{Memory, Seq};
use zx_outside::{Sink, Source};

/// Who takes what was served, and gives each worker its trace.
pub trait Book<I: Source + Drop, O: Sink + Drop> {
    ghost use Rattle.zp_server.specs.Books.{Ending, with_ending};

    /// What a connection's events are told.
    type T: Trace + Send + Drop + 'static;

    // The connections that it took, in order, where it tells them.
    ghost told: { Self → Option (List Ending) };

    /// A trace without events, for the next worker.
    fn trace(&mut self) -> Result<Self::T, Memory>
        ensures empty { IfOk result (λ t. IfSome (Self.T.told t) (λ events. events ≡ [])) }
        ensures kept { told self.new ≡ told self.old };

    /// Takes a connection that has ended. Without memory the book is as before.
    fn take(&mut self, served: Served<I, O, Self::T>) -> Result<(), Memory>
        ensures ok { OnOk result (told self.new ≡ with_ending (told self.old) (record { number = served.number; cause = served.cause })) }
        ensures err { OnErr result (told self.new ≡ told self.old) };
}

/// A book that keeps nothing, and is never out of memory.
#[derive(Clone, Copy)]
pub struct NoBook;

impl<I: Source + Drop, O: Sink + Drop> Book<I, O> for NoBook {
    ghost use Rattle.std.specs.Prelude.{◌≡◌, None, Ok, IsOk};

    type T = NoTrace;

    ghost told = { λ _. None };

    fn trace(&mut self) -> Result<NoTrace, Memory>
        ensures gave { IsOk result }
    {
        Ok(NoTrace)
    }

    fn take(&mut self, _served: Served<I, O, NoTrace>) -> Result<(), Memory>
        ensures took { result ≡ Ok tt }
    {
        Ok(())
    }
}

/// A book that keeps each connection with its events. Contracts see the list of what it took.
#[derive(Drop)]
pub struct ListBook<I: Source + Drop, O: Sink + Drop> {
    alloc: Global,
    served: Seq<Served<I, O, ListTrace>>,
}

impl<I: Source + Drop, O: Sink + Drop> ListBook<I, O> {
    /// Nothing was served yet.
    pub fn new(alloc: Global) -> ListBook<I, O>
        ensures { result.served ≡ [] }
    {
        ListBook {
            alloc,
            served: Seq::new(alloc),
        }
    }

    /// What was served, in the order in which it was taken.
    pub fn served(&self) -> &[Served<I, O, ListTrace>]
        ensures { result.now ≡ self.now.served }
    {
        self.served.as_slice()
    }
}

impl<I: Source + Drop, O: Sink + Drop> Book<I, O> for ListBook<I, O> {
    ghost use Rattle.std.specs.Prelude.{◌≡◌, ◌++◌, ◌∷◌, [], Some, map, OnOk, OnErr};

    type T = ListTrace;

    ghost told = { λ b. Some (map (λ s. record { number = s.number; cause = s.cause }) b.served) };

    fn trace(&mut self) -> Result<ListTrace, Memory> {
        Ok(ListTrace::new(self.alloc))
    }

    fn take(&mut self, served: Served<I, O, ListTrace>) -> Result<(), Memory>
        ensures kept { OnOk result (self.new.served ≡ self.old.served ++ served ∷ []) }
        ensures same { OnErr result (self.new.served ≡ self.old.served) }
    {
        self.served.push(served)
    }
}

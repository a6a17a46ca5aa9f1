//! What the worker of a connection hands back.

ghost use Rattle.std.specs.Prelude.{Some};
ghost use Rattle.ev_call.specs.Calls.{calls_of};
ghost use Rattle.zp_server.specs.Serving.{IsServed};

use ev_link::HttpLink;
use zk_service::Cause;
use zp_core::Fresh;
use zp_run::Trace;
use zx_outside::{Sink, Source};

/// A connection that was served, and why it ended. What its source, sink, link and trace tell is of the one call that served it:
/// each of them was new then.
#[derive(Drop)]
pub struct Served<I: Source + Drop, O: Sink + Drop, T: Trace + Drop> {
    /// The connection's number, from 1 in the order of acceptance. The source and the sink are named so.
    pub number: u64,
    /// What a new session was to be given.
    pub fresh: Fresh,
    pub source: I,
    pub sink: O,
    pub link: HttpLink<I, O>,
    pub trace: T,
    pub cause: Cause,
    pub ghost kept: { ∥ IsServed number (I.name source) (O.name sink) fresh
        (record { given = I.given source; left = I.left source; faults = (I.counts source).faults; ended = I.ended source })
        (record { taken = O.taken sink; counts = O.counts sink })
        (record { calls = Some (calls_of link.asks.items link.results.items); failures = link.failures })
        (T.told trace) cause ∥₁ },
}

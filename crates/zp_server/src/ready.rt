//! A connection that is to be served.

ghost use Rattle.std.specs.Prelude.{◌≡◌, Some, pos, ◌≤ℤ◌};
ghost use Rattle.ev_call.specs.Calls.{calls_of};
ghost use Rattle.zp_server.specs.Serving.{IsNothingYet};

use ev_link::HttpLink;
use zp_core::Fresh;
use zp_run::Trace;
use zx_net::Clock;
use zx_outside::{Sink, Source};

/// A connection that is to be served: its ends go by its number, and nothing was read, written, asked or noted yet.
#[derive(Drop)]
pub struct Ready<I: Source + Drop, O: Sink + Drop, T: Trace + Drop, C: Clock + Drop> {
    pub number: u64,
    pub fresh: Fresh,
    pub source: I,
    pub sink: O,
    pub link: HttpLink<I, O>,
    pub trace: T,
    pub clock: C,
    pub ghost real: { pos 1 ≤ℤ fresh.id },
    pub ghost source_named: { I.name source ≡ number },
    pub ghost sink_named: { O.name sink ≡ number },
    pub ghost nothing: { ∥ IsNothingYet
        (record { given = I.given source; left = I.left source; faults = (I.counts source).faults; ended = I.ended source })
        (record { taken = O.taken sink; counts = O.counts sink })
        (record { calls = Some (calls_of link.asks.items link.results.items); failures = link.failures })
        (T.told trace) ∥₁ },
}

impl<I: Source + Drop, O: Sink + Drop, T: Trace + Drop, C: Clock + Drop> Ready<I, O, T, C> {
    ghost use Rattle.std.specs.Prelude.{◌≡◌, [], pos, ◌≤ℤ◌};
    ghost use Rattle.ev_call.specs.Calls.{calls_of};
    ghost use Rattle.zx_net.specs.Nets.{IsFreshSink, IsFreshSource};
    ghost use Rattle.zp_server.specs.Serving.{IsUnnoted};

    /// The connection of this number, with both ends as they were accepted, and a link and a trace that are new.
    pub fn new(
        number: u64,
        fresh: Fresh,
        ends: (I, O),
        link: HttpLink<I, O>,
        trace: T,
        clock: C,
    ) -> Ready<I, O, T, C>
        requires real { pos 1 ≤ℤ fresh.id }
        requires source { IsFreshSource (I.given ends.0) (I.counts ends.0) (I.ended ends.0) (I.name ends.0) number }
        requires sink { IsFreshSink (O.taken ends.1) (O.counts ends.1) (O.name ends.1) number }
        requires failures { link.failures ≡ 0 }
        requires asks { calls_of link.asks.items link.results.items ≡ [] }
        requires unnoted { IsUnnoted (T.told trace) }
    {
        let (source, sink) = ends;
        Ready {
            number,
            fresh,
            source,
            sink,
            link,
            trace,
            clock,
        }
    }
}

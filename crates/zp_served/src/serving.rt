//! Serves one connection alone.

ghost use Rattle.std.specs.Prelude.{◌≤ℤ◌, pos};
ghost use Rattle.zp_served.specs.Begun.{IsBegun, ServesAlone};

use crate::link::BegunLink;
use std::alloc::Global;
use std::sync::Wait;
use zk_service::Cause;
use zp_conn::{Fresh, TellsAll, Trace, serve_connection};
use zw_hub::Feed;
use zx_net::Clock;
use zx_outside::{Sink, Source};

/// Serves one connection to its end over an etcd in memory that nobody else uses, and gives the cause. Where the feed is in time, the
/// connection's conversation is lawful and fresh.
pub fn serve_alone<W: Wait, F: Feed, S: Source, K: Sink, C: Clock, T: Trace>(
    rt: &W,
    alloc: Global,
    fresh: Fresh,
    link: &mut BegunLink,
    feed: &mut F,
    source: &mut S,
    sink: &mut K,
    clock: &mut C,
    trace: &mut T,
) -> Cause
    requires real { pos 1 ≤ℤ fresh.id }
    requires begun { IsBegun link.old.link.told }
    ensures { let t = ⟦<(S, K, BegunLink, F, T) as TellsAll>⟧.told in
        ServesAlone fresh (t (source.old, sink.old, link.old, feed.old, trace.old))
        (t (source.new, sink.new, link.new, feed.new, trace.new)) result }
{
    serve_connection(rt, alloc, fresh, link, feed, source, sink, clock, trace)
}

//! What the objects that a connection is served over tell, as one value. Contracts alone see it.

ghost use Rattle.zp_conn.specs.Serving.{FeedTold, InputsTold, LinkTold, SinkTold, SourceTold, Told};

use ev_call::Etcd;
use zp_run::Trace;
use zw_hub::Feed;
use zx_outside::{Sink, Source};

/// What a source tells.
pub trait TellsSource {
    ghost told: { Self → SourceTold };
}

impl<S: Source> TellsSource for S {
    ghost told = { λ s. record { given = S.given s; left = S.left s; faults = (S.counts s).faults; ended = S.ended s } };
}

/// What a sink tells.
pub trait TellsSink {
    ghost told: { Self → SinkTold };
}

impl<K: Sink> TellsSink for K {
    ghost told = { λ k. record { taken = K.taken k; counts = K.counts k } };
}

/// What a link tells.
pub trait TellsLink {
    ghost told: { Self → LinkTold };
}

impl<L: Etcd> TellsLink for L {
    ghost told = { λ l. record { calls = L.told l; failures = L.failures l } };
}

/// What a feed tells.
pub trait TellsFeed {
    ghost told: { Self → FeedTold };
}

impl<F: Feed> TellsFeed for F {
    ghost told = { λ f. record { list = F.list f; reads = F.reads f; lags = F.lags f; closings = F.closings f } };
}

/// What a source, a link and a feed tell.
pub trait TellsInputs {
    ghost told: { Self → InputsTold };
}

impl<S: Source, L: Etcd, F: Feed> TellsInputs for (S, L, F) {
    ghost told = { λ p. record {
      source = ⟦<S as TellsSource>⟧.told p.0;
      link = ⟦<L as TellsLink>⟧.told p.1;
      feed = ⟦<F as TellsFeed>⟧.told p.2;
    } };
}

/// What a source, a sink, a link, a feed and a trace tell.
pub trait TellsAll {
    ghost told: { Self → Told };
}

impl<S: Source, K: Sink, L: Etcd, F: Feed, T: Trace> TellsAll for (S, K, L, F, T) {
    ghost told = { λ p. record {
      source = ⟦<S as TellsSource>⟧.told p.0;
      sink = ⟦<K as TellsSink>⟧.told p.1;
      link = ⟦<L as TellsLink>⟧.told p.2;
      feed = ⟦<F as TellsFeed>⟧.told p.3;
      notes = T.told p.4;
    } };
}

//! What the writer does to the published list.

use crate::feed::FeedEnd;
use std::alloc::Global;
use std::marker::Model;
use std::sync::Arc;
use zn_layout::Entry;

/// A change of the published list: one more entry, its end, or that the entries so far are forgotten.
#[derive(Drop)]
pub enum Change {
    Entry(Arc<Entry, Global>),
    End(Ending),
    Forget,
}

/// An end that may close a list. Contracts see the end itself.
#[derive(Drop)]
pub struct Ending {
    end: Arc<FeedEnd, Global>,
}

impl Model for Ending {
    ghost use Rattle.std.specs.Arc.{arc_value};
    ghost use Rattle.zw_hub.specs.declared.feed.FeedEnd.{FeedEnd};
    ghost use Rattle.zw_hub.specs.Ends.{IsProper};

    ghost Value = { FeedEnd };

    ghost view = { λ e. arc_value e.end };

    ghost invariant = { λ e. IsProper (arc_value e.end) };
}

impl Ending {
    ghost use Rattle.std.specs.Prelude.{◌≡◌};
    ghost use Rattle.std.specs.Arc.{arc_value};
    ghost use Rattle.zw_hub.specs.Ends.{IsProper};

    /// The ending with this end, which must be a proper one (`specs/Ends`).
    pub fn of(end: Arc<FeedEnd, Global>) -> Ending
        requires { IsProper (arc_value end) }
        ensures { result ≡ arc_value end }
    {
        Ending { end }
    }

    /// The end.
    pub fn end(&self) -> &Arc<FeedEnd, Global>
        ensures is { arc_value result.now ≡ self.now }
        ensures proper { IsProper (arc_value result.now) }
    {
        &self.end
    }
}

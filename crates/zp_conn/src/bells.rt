//! A feed whose reader can be woken.

ghost use Rattle.std.specs.Prelude.{◌≡◌};

use std::alloc::Global;
use std::sync::Arc;
use zw_hub::{Fed, Feed};
use zx_net::Bell;

/// A feed that arms a bell before each look for an entry, so that whoever publishes after the look and then rings wakes the one who
/// waits for the bell's source.
#[derive(Drop)]
pub struct Belled<F: Feed + Drop, B: Bell + Drop> {
    feed: F,
    bell: Arc<B, Global>,
    /// The bits of the entries that its reader waits for.
    bits: u64,
}

impl<F: Feed + Drop, B: Bell + Drop> Belled<F, B> {
    /// The feed, with the bell of the source that its reader waits for.
    pub fn new(feed: F, bell: Arc<B, Global>) -> Belled<F, B>
        ensures { result.feed ≡ feed }
    {
        Belled {
            feed,
            bell,
            bits: u64::MAX,
        }
    }

    /// The feed itself.
    pub fn into_feed(self) -> F
        ensures { result ≡ self.feed }
    {
        self.feed
    }
}

impl<F: Feed + Drop, B: Bell + Drop> Feed for Belled<F, B> {
    ghost list = { λ b. F.list b.feed };

    ghost reads = { λ b. F.reads b.feed };

    ghost lags = { λ b. F.lags b.feed };

    ghost closings = { λ b. F.closings b.feed };

    fn next(&mut self, cursor: i64) -> Fed {
        // A look whether the feed has ended needs no wake: no entry is above the greatest number.
        if cursor < i64::MAX {
            self.bell.arm(self.bits);
        }
        self.feed.next(cursor)
    }

    fn heed(&mut self, bits: u64) {
        self.bits = bits;
        self.feed.heed(bits);
    }
}

//! How long a peer may say nothing.

ghost use Rattle.std.specs.Prelude.{◌≡◌, ◌<◌, ◌-◌, Some, IfSome};
ghost use Rattle.zx_sockets.specs.Silence.{least_connect, limit_of, after_bytes};

use std::time::{Clock as SystemClock, Duration, Instant};

/// How many bytes the least connect of a ZooKeeper client has: a length, and a `ConnectRequest` without a password (zookeeper.jute).
/// The head of a request that `zetcd etcd` takes has more.
const LEAST_CONNECT: usize = 32;

/// How long a peer may say nothing, and since when it does.
#[derive(Clone, Copy, Drop)]
pub struct Patience {
    /// For how long as many bytes as the least connect has may take.
    first: Duration,
    /// How long each silence after them may be.
    later: Duration,
    /// When the peer was accepted or, once those bytes came, when the last byte did.
    since: Instant,
    /// How many of those bytes have not come yet.
    wanted: usize,
}

impl Patience {
    /// From now on; `None` where the system tells no time.
    pub fn new<R: SystemClock>(rt: &R, first: Duration, later: Duration) -> Option<Patience>
        ensures limits { IfSome result (λ patience. (patience.first ≡ first) × (patience.later ≡ later)) }
        ensures wanted { IfSome result (λ patience. patience.wanted ≡ least_connect) }
    {
        let since = Instant::now(rt).ok()?;
        Some(Patience {
            first,
            later,
            since,
            wanted: LEAST_CONNECT,
        })
    }

    /// How long the peer may say nothing, as things are.
    fn limit(&self) -> Duration
        ensures { result ≡ limit_of self.now }
    {
        if self.wanted > 0 {
            self.first
        } else {
            self.later
        }
    }

    /// Whether the peer has said nothing for too long.
    pub fn is_over<R: SystemClock>(&self, rt: &R) -> bool {
        match self.since.elapsed(rt) {
            Ok(silence) => silence >= self.limit(),
            Err(_) => false,
        }
    }

    /// Whether as many bytes as the least connect has took too long.
    pub fn is_late<R: SystemClock>(&self, rt: &R) -> bool {
        self.wanted > 0 && self.is_over(rt)
    }

    /// The patience after so many bytes came: they break the silence once all that are wanted have come. `None` where the system
    /// tells no time.
    pub fn after<R: SystemClock>(&self, rt: &R, count: usize) -> Option<Patience>
        ensures early { count < self.now.wanted → result ≡ Some (after_bytes self.now count) }
        ensures late { IfSome result (λ next. (next.first ≡ self.now.first) × (next.later ≡ self.now.later) × (next.wanted ≡ self.now.wanted - count)) }
    {
        let mut next = *self;
        next.wanted = self.wanted.saturating_sub(count);
        if next.wanted == 0 {
            next.since = Instant::now(rt).ok()?;
        }
        Some(next)
    }
}

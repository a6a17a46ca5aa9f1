//! Keeping a session alive.

ghost use Rattle.std.specs.Prelude.{◌≡◌};
ghost use Rattle.zs_session.specs.Alive.{is_alive_due};

/// Whether the lease of a session is to be kept alive: a third of its timeout, rounded down, has passed since the last time.
/// All are in milliseconds. A clock that went back counts as no time.
pub fn alive_due(last: u64, now: u64, timeout: i32) -> bool
    ensures { result ≡ is_alive_due last now timeout }
{
    u64::from(timeout.unsigned_abs() / 3) <= now.saturating_sub(last)
}

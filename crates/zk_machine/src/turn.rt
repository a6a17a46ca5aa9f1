//! Who makes an update, and when.

ghost use Rattle.std.specs.Prelude.{◌<◌, ◌^◌};

/// The session that asks, how many ephemeral nodes it may own, and the zxid and time of its update.
#[derive(Clone, Copy)]
pub struct Turn {
    /// How many ephemeral nodes the session may own.
    pub limit: usize,
    /// The session's number, or 0 for the update that makes the root.
    pub session: i64,
    /// The zxid that the update gets.
    pub zxid: i64,
    /// The time of the update in milliseconds, since 1970 or on a script's clock.
    pub time: u64,
    ghost clock: { time < 2 ^ 63 },
}

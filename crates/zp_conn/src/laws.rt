//! A law of connections that were served. The function does nothing, and its contract is the law: only what a contract names
//! is proved.

ghost use Rattle.zp_conn.specs.Uncut.{UncutEndSo};

/// What ends a connection that nobody cuts off. Where its source, sink and link had no fault: what its client's bytes show, their
/// end, what an answer of etcd shows, that the feed lagged or told its end, or out of memory. Where the feed neither lagged nor told
/// its end: one of the others.
pub fn what_ends_uncut_connections()
    ensures { UncutEndSo }
{}

//! The laws of connections that were served alone. Each function does nothing, and its contract is the law: only what a
//! contract names is proved.

ghost use Rattle.zp_served.specs.Served.{EarlierAreInTime, ServedAreAlone, ServedAreFed, ServedFromTheFirst};

/// What one call of `serve_connection` did is a run of one connection alone, where its link is honest over one store and its feed
/// in time. So the connection has a world over that store, of which all is accounted for: its transcript shows what the client sent
/// and what was sent, in order, and these are the answer to a connect and then a walk of one history, fresh and in turn. The store
/// is that of any world of which all is accounted for, or the one that a new etcd has after Begin.
pub fn one_served_connection_is_lawful()
    ensures fed { ServedAreFed }
    ensures accounted { ServedAreAlone }
    ensures first { ServedFromTheFirst }
{}

/// A feed is in time whose list has entries of updates alone that the store had before the call.
pub fn earlier_entries_are_in_time()
    ensures { EarlierAreInTime }
{}

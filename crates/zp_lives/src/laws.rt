//! The laws of lives. Each function does nothing, and its contract is the law: only what a contract names is proved.

ghost use Rattle.zp_lives.specs.Alone.{AloneFromTheFirst, AloneIsServed};
ghost use Rattle.zp_lives.specs.Followed.{HonestLinesGiveEntries};
ghost use Rattle.zp_lives.specs.Lives.{AccountedAreServed, LivesAreAccounted};

/// A world of which all is accounted for stays so by the steps of one connection's run, whatever happens beside them: other
/// connections and reapers come, act and end, leases lapse, asks are carried out late or never. And in such a world each
/// connection is served. The premises: each connection that opens offers a number that sessions have and a password of 16 bytes,
/// and none has had 2^64 - 1 frames.
pub fn connections_live_in_worlds()
    ensures accounted { LivesAreAccounted }
    ensures served { AccountedAreServed }
{}

/// One connection alone is served. Its answers are those that one store gives to what it asked, in order, and its entries are of
/// updates that the store had made by then. The store is that of any world of which all is accounted for, as each script gives
/// one, or the one that a new etcd has after Begin. Then the transcript of its run, with the updates where they were carried out,
/// is one history, in which the connection was sent the answer to its connect and then a walk, fresh and in turn.
pub fn one_connection_alone_is_served()
    ensures accounted { AloneIsServed }
    ensures first { AloneFromTheFirst }
{}

/// A follower over an honest watch gives entries of the store's updates, and no fault but out of memory. The lines are honest where
/// they tell heads of the store, in order and each once, from the follower's own on: each is put once more than the one before it,
/// and has a record.
pub fn followers_give_the_stores_entries()
    ensures { HonestLinesGiveEntries }
{}

//! What the definitions of a store amount to. Each function does nothing, and its contract is the law: only what a contract
//! names is proved.

ghost use Rattle.ev_types.specs.Laws.{ForeignCanPut, ForeignKeepsLeases, ForeignKeepsThePast, ForeignMakesARevision, ForeignNeedsARevision, ForeignPutsOneKey, KeysWerePut, KeysWerePutByNow, LapseKeepsThePast, LapseMakesARevision, LapseOfNoKeys, LapseTakesItsKeys, LapseTakesItsLease, LeasesCanLapse, OneKeyIsFound, OnlyLeasesLapse, ReadsAreAllowed, ReadsChangeNothing, ZeroNeverLapses};

/// A lapse takes the lease and its keys, and leaves every other key, every other lease and every earlier revision. It
/// makes one revision, or none where the lease had no key. A lease that is there can lapse while there is a revision to
/// come. Lease 0, which is none, never lapses.
pub fn lapse_takes_its_keys()
    ensures zero { ZeroNeverLapses }
    ensures there { OnlyLeasesLapse }
    ensures lapses { LeasesCanLapse }
    ensures keys { LapseTakesItsKeys }
    ensures lease { LapseTakesItsLease }
    ensures one { LapseMakesARevision }
    ensures none { LapseOfNoKeys }
    ensures earlier { LapseKeepsThePast }
{}

/// A put of another user puts that one key without a lease, and makes one revision. It is possible while there is a revision to
/// come, and only then.
pub fn foreign_puts_one_key()
    ensures puts { ForeignCanPut }
    ensures full { ForeignNeedsARevision }
    ensures keys { ForeignPutsOneKey }
    ensures leases { ForeignKeepsLeases }
    ensures one { ForeignMakesARevision }
    ensures earlier { ForeignKeepsThePast }
{}

/// A transaction of at most 128 reads of the present, with no guards and no failure list, is not denied. Reads of the present
/// change nothing.
pub fn reads_change_nothing()
    ensures allowed { ReadsAreAllowed }
    ensures unchanged { ReadsChangeNothing }
{}

/// A range of one key finds what the key has, or nothing.
pub fn one_key_is_found()
    ensures { OneKeyIsFound }
{}

/// Each key that is there was put at a revision from 1 to the store's.
pub fn keys_were_put()
    ensures least { KeysWerePut }
    ensures most { KeysWerePutByNow }
{}

//! What the store's definitions amount to. Each function does nothing, and its contract is the law: only what a contract
//! names is proved.

ghost use Rattle.std.specs.Prelude.{◌≡◌};
ghost use Rattle.ev_types.specs.Store as etcd;
ghost use Rattle.ev_types.specs.Denials.{max_operations};
ghost use Rattle.ev_store.specs.Laws.{ARevisionHasOneValue, AsksKeepThePast, CompactionKeepsKeys, CompactionKeepsReads, CompactionMovesTheFloor, CompactionReachesItsRevision, DeniedAsksAreNamed, DeniedCompactionsAreNamed, DeniedForeignPutsAreNamed, DeniedLapsesAreNamed, FloorNeverFalls, NoPutsAboveTheLast, PresentIsLast, PutsAreOfChanges, PutsAreTheKeys, PutsFollow, PutsHaveTheirRevision, ReadsOfThePast, ReadsOfThePresent, RevisionsFollow, StoresBeginEmpty};

use crate::refusal::MAX_OPERATIONS;
use crate::store::MAX_REVISION;

/// An ask, a lapse, a put of another user and a compaction are denied exactly where a denial is named.
pub fn a_denial_is_named()
    ensures asks { DeniedAsksAreNamed }
    ensures lapses { DeniedLapsesAreNamed }
    ensures foreign { DeniedForeignPutsAreNamed }
    ensures compactions { DeniedCompactionsAreNamed }
{}

/// Where a key's last put has the same revision at two points of a store's history, the key is the same at both: it is there with
/// one value, version and lease, or it is absent.
pub fn a_revision_has_one_value()
    ensures { ARevisionHasOneValue }
{}

/// A store that took an ask has the keys of each earlier revision as they were. (`lapse_takes_its_keys` and
/// `foreign_puts_one_key` of ev_types say so of those two.)
pub fn asks_keep_the_past()
    ensures { AsksKeepThePast }
{}

/// Before revision 1 a store has no keys, each revision makes its changes to those before, and the present is the last. A
/// range that is not denied is of the present, or of the revision that it names.
pub fn reads_fold_the_revisions()
    ensures none { StoresBeginEmpty }
    ensures next { RevisionsFollow }
    ensures last { PresentIsLast }
    ensures now { ReadsOfThePresent }
    ensures named { ReadsOfThePast }
{}

/// The puts above a revision are those of the next one, and then those above that. The puts of a revision are the puts among its
/// changes, in their order, each with that revision; where no key is changed twice, each is the key as the store then has it.
pub fn puts_follow_the_revisions()
    ensures next { PutsFollow }
    ensures last { NoPutsAboveTheLast }
    ensures each { PutsAreOfChanges }
    ensures revision { PutsHaveTheirRevision }
    ensures shown { PutsAreTheKeys }
{}

/// A compaction changes the floor alone, which never falls and is then at the revision or above it. A range that names no compacted
/// revision is answered as before.
pub fn compaction_keeps_reads()
    ensures floor { CompactionMovesTheFloor }
    ensures least { CompactionReachesItsRevision }
    ensures rises { FloorNeverFalls }
    ensures keys { CompactionKeepsKeys }
    ensures reads { CompactionKeepsReads }
{}

/// The limits of the code are those of the definitions.
pub fn limits_are_defined()
    ensures operations { MAX_OPERATIONS ≡ max_operations }
    ensures revision { MAX_REVISION ≡ etcd.last_revision }
{}

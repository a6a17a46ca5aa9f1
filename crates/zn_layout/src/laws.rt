//! The laws of the layout. Each function does nothing, and its contract is the law: only what a contract names is proved.

ghost use Rattle.zn_layout.specs.Laws.{AliveStands, BeginAgainChangesNothing, BeginStands, BoundedPathsAreValid, ChildrenAreUnderTheirFront, ChildrenListed, CountsValueIsInjective, FitsAppend, FitsSame, ForeignStands, GrantStands, GuardsHoldAsSeen, GuardsTellWhatWasSeen, HeadValueIsInjective, KeyBytesIsInjective, LapseStands, LeaseValueIsInjective, NodeValueIsInjective, RangeStands, ReadsStand, SessionValueIsInjective, StandsAfter, UnchangedStands, UpdateCommits, UpdateHasItsSize, UpdateIsAllowed, UpdateIsSendable, UpdateLooksAgain};

/// No two keys have the same bytes.
pub fn key_bytes_is_injective()
    ensures { KeyBytesIsInjective }
{}

/// No two records of a node within their bounds have the same value.
pub fn node_value_is_injective()
    ensures { NodeValueIsInjective }
{}

/// No two records of counts within their bounds have the same value.
pub fn counts_value_is_injective()
    ensures { CountsValueIsInjective }
{}

/// No two records of a session's life within their bounds have the same value.
pub fn lease_value_is_injective()
    ensures { LeaseValueIsInjective }
{}

/// No two records of a session's nodes within their bounds have the same value.
pub fn session_value_is_injective()
    ensures { SessionValueIsInjective }
{}

/// No two records of the head within their bounds have the same value.
pub fn head_value_is_injective()
    ensures { HeadValueIsInjective }
{}

/// Changes that fit one step, followed by changes that fit the next at the same zxid, fit both steps together.
pub fn fits_append()
    ensures { FitsAppend }
{}

/// Whether changes fit depends only on the last change of each key.
pub fn fits_same()
    ensures { FitsSame }
{}

/// Where keys stand for a state and the changes of an update fit the step to the next one, the keys stand for the next state
/// after the update's operations.
pub fn stands_after()
    ensures { StandsAfter }
{}

/// Where a lease lapses, the keys that are left stand for the state in which the session of that number has lapsed and
/// nothing else changed.
pub fn lapse_stands()
    ensures { LapseStands }
{}

/// A put of another user outside `zk/` leaves keys that stand for the same state.
pub fn foreign_stands()
    ensures { ForeignStands }
{}

/// A range, a keepalive, a grant, and a transaction that only reads or changes nothing leave keys that stand for the same
/// state.
pub fn reading_stands()
    ensures range { RangeStands }
    ensures alive { AliveStands }
    ensures grant { GrantStands }
    ensures reads { ReadsStand }
    ensures unchanged { UnchangedStands }
{}

/// On a new store the first transaction isn't denied, succeeds at revision 2, answers the head that it put, and leaves keys
/// that stand for the first state.
pub fn begin_stands()
    ensures { BeginStands }
{}

/// In a store that has a head the first transaction changes nothing, and answers that head.
pub fn begin_again_changes_nothing()
    ensures { BeginAgainChangesNothing }
{}

/// An update's transaction that succeeds makes the changes at the store's next revision, and answers the head that it put.
pub fn update_commits()
    ensures { UpdateCommits }
{}

/// An update's transaction isn't denied where its lists are short, each key is written once, each put's lease is there or
/// 0, and the store has room.
pub fn update_is_allowed()
    ensures { UpdateIsAllowed }
{}

/// The bytes of an update's transaction are those of its guards, its changes, the head that it puts, the head's key that it
/// then reads, and the keys that it reads where a guard fails. Where they and the lists keep their bounds an etcd takes it.
pub fn update_is_sendable()
    ensures size { UpdateHasItsSize }
    ensures sendable { UpdateIsSendable }
{}

/// The guards of an update hold exactly where each key that it looked up was last put at the revision that it saw, or is
/// absent as it was then.
pub fn guards_tell_what_was_seen()
    ensures held { GuardsTellWhatWasSeen }
    ensures hold { GuardsHoldAsSeen }
{}

/// Where a guard fails and the transaction isn't denied, an update changes nothing, and answers what the keys that it looked
/// up and the head have now.
pub fn update_looks_again()
    ensures { UpdateLooksAgain }
{}

/// The range of a node's children finds exactly the data keys of its children, in the order of the paths' bytes, where the
/// state is sound and each path of its tree is valid, as in a bounded state.
pub fn children_listed()
    ensures found { ChildrenListed }
    ensures valid { BoundedPathsAreValid }
    ensures data_keys { ChildrenAreUnderTheirFront }
{}

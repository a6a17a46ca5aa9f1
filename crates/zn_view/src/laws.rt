//! The laws of views. Each function does nothing, and its contract is the law: only what a contract names is proved.

ghost use Rattle.zn_view.specs.Laws.{APlanCommits, AgreedKeysAreAsSeen, ChildrenAreListed, FailedPlanIsAnswered, FirstRoundAgrees, FormDecidesFirst, GuardedKeysAreAsSeen, GuardedKeysWereFound, GuardsHoldUnchanged, LaterRoundAgrees, ListedStaysListed, PlanIsCarriedOut, PlanMayBeAsked, SeenKeysWerePut, SeenStaysSeen, SessionHasExpired, SessionHasMoved, SomeKeysAgree, SomeKeysAreEnough, SomeKeysAreShown, TheLastUpdateIsTold, TreeDecidesLast, UpdateLeavesAView, ViewAfterAPlanAgrees, ViewAfterAgrees, WhatWasWantedIsSeen};

/// A view agrees with the keys that answered it: after its first round with the present ones, and after each further round with
/// those of the first one's revision. A reading changes nothing.
pub fn a_round_agrees()
    ensures first { FirstRoundAgrees }
    ensures later { LaterRoundAgrees }
{}

/// A plan of which a guard does not hold changes nothing, and shows the present. One whose guards hold makes its changes at
/// the next revision, and shows the head that it left.
pub fn a_plan_is_answered()
    ensures failed { FailedPlanIsAnswered }
    ensures succeeded { PlanIsCarriedOut }
{}

/// A view that takes further parts sees what it saw before and, where there is a part for each want, all that was wanted.
pub fn what_was_wanted_is_seen()
    ensures seen { SeenStaysSeen }
    ensures listed { ListedStaysListed }
    ensures wanted { WhatWasWantedIsSeen }
{}

/// What a view lists of a node are the paths of its children in the state that the view is of, in the order of their bytes.
/// The tree has valid paths alone.
pub fn children_are_listed()
    ensures { ChildrenAreListed }
{}

/// The head that a view saw tells the zxid and the number of the last update of the state that the view is of.
pub fn the_last_update_is_told()
    ensures { TheLastUpdateIsTold }
{}

/// Each key that a view saw has what was seen, in keys that the view agrees with; and, but for the head, also in keys in which a
/// plan that guards all of them may commit. Its guards hold wherever no key that the view saw has changed, but for the head.
pub fn guarded_keys_are_as_seen()
    ensures agrees { AgreedKeysAreAsSeen }
    ensures commits { GuardedKeysAreAsSeen }
    ensures hold { GuardsHoldUnchanged }
{}

/// A view with some of its keys alone shows these as the whole view does, and agrees with all that the whole view agrees with.
/// A plan that guards these keys alone is worth on the whole view what it is worth on them. In keys that the view agrees with,
/// each key that a plan guards has what was found.
pub fn some_keys_are_enough()
    ensures shown { SomeKeysAreShown }
    ensures agrees { SomeKeysAgree }
    ensures plan { SomeKeysAreEnough }
    ensures found { GuardedKeysWereFound }
{}

/// A plan that guards all that its view saw carries its update out where its changes are those of the update in each sound state
/// whose keys have what the view saw.
pub fn a_plan_commits()
    ensures { APlanCommits }
{}

/// A plan that guards all that its view saw, reads it again, and has an update's operations may be asked of an etcd where the
/// view saw that the session is attached here. What a view of a state saw was put at revision 1 or later.
pub fn a_plan_may_be_asked()
    ensures asked { PlanMayBeAsked }
    ensures put { SeenKeysWerePut }
{}

/// The form of a request decides before the session, and the session before the tree. A session has expired where the record of
/// its life is not there, and has moved where that was put at another revision than `who.mine`.
pub fn a_session_is_tested()
    ensures form { FormDecidesFirst }
    ensures expired { SessionHasExpired }
    ensures moved { SessionHasMoved }
    ensures tree { TreeDecidesLast }
{}

/// What the operations of an update leave of a view ([`View::after`](crate::View::after)) agrees with the keys that they leave,
/// where the guarded keys had what the view saw and each key that is put and not guarded was absent, but for the head. So does what
/// a plan leaves of its view, carried out where it may commit.
pub fn what_an_update_leaves()
    ensures left { UpdateLeavesAView }
    ensures keys { ViewAfterAgrees }
    ensures plan { ViewAfterAPlanAgrees }
{}

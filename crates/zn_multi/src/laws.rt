//! The laws of multis. Each function does nothing, and its contract is the law: only what a contract names is proved.

ghost use Rattle.zn_multi.specs.Laws.{EachKeyIsLaidOnce, LastChangeIsLaid, LaterPartsSeeEarlierOnes, OperationsAreLaid, PartsPassAlike, PartsStopAlike, RefusalsDoNotDependOnTheTime, WhatPartsLookAtWasSeen};

/// Changes that are laid over others, one for each key, leave each key once, with the last change of it; and their operations, laid
/// over a view of the others alone, give the view of what is left.
pub fn each_key_is_laid_once()
    ensures once { EachKeyIsLaidOnce }
    ensures last { LastChangeIsLaid }
    ensures laid { OperationsAreLaid }
{}

/// Changes that lead from one state to another and write each key once, laid over a view that shows the first state, show the
/// second. So a later part is chosen on what the parts before it left.
pub fn later_parts_see_earlier_ones()
    ensures { LaterPartsSeeEarlierOnes }
{}

/// What the parts come to on a view, they come to in each sound state in which the session is open and of which the view shows what
/// the parts look at, at any zxid; other keys of the view may differ from that state. The parts stop at the same one with the same
/// code, or they pass, and the keys that were laid over the view are the changes that lead to the state after them.
pub fn parts_are_carried_out_in_turn()
    ensures stops { PartsStopAlike }
    ensures passes { PartsPassAlike }
{}

/// Whether parts are refused, and which of them with which code, depends neither on the zxid nor on the time.
pub fn refusals_do_not_depend_on_the_time()
    ensures { RefusalsDoNotDependOnTheTime }
{}

/// On a view that shows a sound state with the session open, and lacks nothing that at most `max_parts` parts read, what each part looks at
/// was looked up or was written by the parts before it: the premise of [`parts_are_carried_out_in_turn`].
pub fn what_parts_look_at_was_seen()
    ensures { WhatPartsLookAtWasSeen }
{}

//! The laws of a connection's steps. Each function does nothing, and its contract is the law: only what a contract names is
//! proved.

ghost use Rattle.zp_laws.specs.Growing.{FreshnessLasts, StandingLasts};
ghost use Rattle.zp_laws.specs.Honest.{PastIsRecords, PresentIsRecords, RecordsAreSound};
ghost use Rattle.zp_laws.specs.Planning.{PlansAreMadeNow};
ghost use Rattle.zp_laws.specs.Walking.{PlansAreBound, SendsAreWalks};
ghost use Rattle.zp_laws.specs.Welcomes.{ConnectsAre};
ghost use Rattle.zp_laws.specs.Opening.{ANewSessionCommits, ASessionIsAttached};

/// What a step of an attached connection asks is what its stage has out, and what the stage rests on is true of the store:
/// a plan was made on a view of one of its revisions and guards what was seen there. The request that is asked for has no
/// update yet.
pub fn plans_are_bound()
    ensures { PlansAreBound }
{}

/// What a step of an attached connection sends is what some choices of the walk give, and a connection that stays open stands
/// where they lead. Neither its zxid nor its cursor goes back, and both are of one update. Each reply is as of a moment after the
/// line of its frame, if what the connection held and what the input shows was seen after that line; what it holds then was, too.
pub fn sends_are_walks()
    ensures { SendsAreWalks }
{}

/// A plan is made at the time of the step that asks its transaction. After a step the plan that is out, if one is, was made in it,
/// or the stage is what it was and the step asked nothing.
pub fn plans_are_made_now()
    ensures { PlansAreMadeNow }
{}

/// While a connection has no session, a step sends nothing, or the refusal and ends it, or the welcome; and what it sends
/// after the welcome is a walk from the attachment on.
pub fn connects_are_answered()
    ensures { ConnectsAre }
{}

/// An attached connection goes on standing where it does while lines are added to the transcript and revisions to the store,
/// none of them of its own requests; and what it saw after the line of the frame at work it saw after that line still.
pub fn standing_lasts()
    ensures standing { StandingLasts }
    ensures fresh { FreshnessLasts }
{}

/// Where an etcd's keys stand for a state of the service, whatever transaction looks at some of them, each value that it shows
/// is a record of its key's kind, and no step has a damaged value to end for.
pub fn honest_values_are_records()
    ensures present { PresentIsRecords }
    ensures past { PastIsRecords }
    ensures sound { RecordsAreSound }
{}

/// Where the guards of a new session's transaction hold in keys that stand for a sound state, the session isn't open there, and
/// after the transaction the keys stand for the state after the session's line. The connection was opened with this number and
/// password, and sent this connect.
pub fn a_new_session_commits()
    ensures { ANewSessionCommits }
{}

/// Where the guard of an attachment holds in keys that stand for a state, the session lives there, with the timeout and the
/// password of the record that was seen, and after the transaction the keys stand for the state after the attachment's line. What
/// is kept at the revision that was seen has to be the record that was seen.
pub fn a_session_is_attached()
    ensures { ASessionIsAttached }
{}

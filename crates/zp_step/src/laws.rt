//! What holds of a step by its definition. Each function does nothing, and its contract is the law: only what a contract
//! names is proved. The laws that tie steps to a store and a transcript are in `zp_laws`.

ghost use Rattle.zp_step.specs.Ending.{StepsCount, StepsEndWell};
ghost use Rattle.zp_step.specs.Laws.{EndsAreNamed, ShutForGood};

/// A connection that is shut does nothing at any input, and stays as it is.
pub fn shut_for_good()
    ensures { ShutForGood }
{}

/// A failed ask, a length out of range, a lag, a closed feed and the client's end each shut an open connection, whatever its
/// stage: the cause names what happened, and nothing is sent.
pub fn ends_are_named()
    ensures { EndsAreNamed }
{}

/// A step sends packets, and then it asks once, or closes, or neither. It closes exactly where the connection is shut after
/// it. What it asks is what is out then. Where it asks nothing and stays open, nothing is out, or what was out before stays so:
/// then the input is no answer and no failure.
pub fn steps_end_well()
    ensures { StepsEndWell }
{}

/// Each frame that came was taken up or waits after the others, and no other one: a step that leaves the connection open raises
/// the index of the next frame to come by one where its input is a frame, and otherwise leaves it. None waits while it is ready.
pub fn steps_count()
    ensures { StepsCount }
{}

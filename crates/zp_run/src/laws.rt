//! The laws of runs. Each function does nothing, and its contract is the law: only what a contract names is proved.

ghost use Rattle.zp_run.specs.Laws.{NewRests, RunsGoOn, StepsCountBytes, StepsShow};

/// A connection has what its stage holds from the frames and the answers that it heard, and each answer is to what it asked last.
/// Where a step closes it, the cause is shown by them or by the input: by a reply that was sent last and what it rests on, by a
/// key that was asked for and what was found there, by a frame that cannot be read, or by the fault or the end that was handed in.
/// And a run that is one step longer is a run, closed for a cause that is shown.
pub fn causes_are_shown()
    ensures first { NewRests }
    ensures steps { StepsShow }
    ensures runs { RunsGoOn }
{}

/// A step that leaves the connection open counts the bytes of the frame that it was handed, with the four of its length, and
/// nothing else. So the place that a connection is closed with is the number of the bytes before it.
pub fn bytes_are_counted()
    ensures { StepsCountBytes }
{}

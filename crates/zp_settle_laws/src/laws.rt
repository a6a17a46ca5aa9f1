//! The laws of settles and of connections that stay open. Each function does nothing, and its contract is the law: only what
//! a contract names is proved.

ghost use Rattle.zp_settle_laws.specs.Answering.{EverySettleAnswers};
ghost use Rattle.zp_settle_laws.specs.Causes.{ReplaysNeverEndBy, ReplaysShowNoDamage};
ghost use Rattle.zp_settle_laws.specs.Possible.{PossibleLinesHappen};
ghost use Rattle.zp_settle_laws.specs.Staying.{FramesLeaveOpen, SettlesOpen};
ghost use Rattle.zp_settle_laws.specs.Settling.{EndsByItsBound, EverySettleEnds, FirstCounts, KeepsCounts, SettlesToItsEnd};
ghost use Rattle.zp_settle_laws.specs.Undisturbed.{UndisturbedStayOpen};

/// In a world of which all is accounted for, a settle that may do as many lines as are left at most leaves nothing to do. Its own
/// bound is enough for that, where the bytes of frames are counted and the bound is below 2^64 - 1.
pub fn a_settle_comes_to_its_end()
    ensures left { SettlesToItsEnd }
    ensures bound { EndsByItsBound }
{}

/// In the first world the stream of each connection has counted the bytes of its frames, and each line of a script keeps them
/// counted.
pub fn the_bytes_of_frames_are_counted()
    ensures first { FirstCounts }
    ensures happens { KeepsCounts }
{}

/// In every run of a script, after a settle its connection waits for its client alone, with no frame left to answer, or it has
/// ended. The settle's bound is below 2^64 - 1.
pub fn every_settle_ends()
    ensures { EverySettleEnds }
{}

/// In every run of a script, after a settle of a connection its `close` line stands, or each of its frames has its answer: its first
/// packet answers the connect, and of the others one is the reply to each later frame, in their order, and the rest are notices. The
/// settle's bound is below 2^64 - 1.
pub fn every_settle_answers()
    ensures { EverySettleAnswers }
{}

/// A settle leaves a connection open whose session lives and was last attached by it, if none of its frames is a closeSession or an
/// authentication that is refused, unless the store denies what it asks. Nor do such frames close it when they come, if each has a
/// header and no length among them is out of range.
pub fn attached_connections_stay_open()
    ensures settle { SettlesOpen }
    ensures frames { FramesLeaveOpen }
{}

/// An attached connection stays open in every run of a script, whatever other connections do: where, since its attachment, no line
/// cuts or refuses its ask, makes it lag, ends its client or restarts its proxy, its session does not lapse and is attached to no
/// other connection, its bytes have no length out of range, each of its frames has a header and none is a closeSession or an
/// authentication that is refused, and where the store has room for a further revision.
pub fn undisturbed_connections_stay_open()
    ensures { UndisturbedStayOpen }
{}

/// In no run of a script does a `close` line say that a client's stream could not be read or written, that no more updates are
/// told, or that memory was refused; nor that a value is no record.
pub fn replays_never_end_by_faults()
    ensures outside { ReplaysNeverEndBy }
    ensures damaged { ReplaysShowNoDamage }
{}

/// In a world of which all is accounted for, a line that is possible leads to a world, if it hands a connection nothing to take up.
pub fn possible_lines_happen()
    ensures { PossibleLinesHappen }
{}

//! The laws of verdicts on runs, and on their texts. Each function does nothing, and its contract is the law: only what a
//! contract names is proved.

ghost use Rattle.zp_verdict_laws.specs.Lawful.{EveryReplayIsLawful, FewLinesAreCounted, LinesCountFrames};
ghost use Rattle.zp_verdict_laws.specs.Written.{LinesOfRunsFit, WrittenReplaysAreLawful};

/// In a transcript of fewer than 2^64 - 1 lines each connection has fewer `frame` lines than that. Where each has, no connection's
/// count of frames came to its end, in any run of a script.
pub fn frames_are_counted_by_their_lines()
    ensures few { FewLinesAreCounted }
    ensures run { LinesCountFrames }
{}

/// The transcript of every run of a script is judged lawful, whichever connections, frames, lapses, cuts, restarts and orders of
/// delivery it has: its lines are formed, its updates are one run of the service in which each connection's requests are in order,
/// and each conversation is lawful and fresh. Each connection offers a session's number and a password in their ranges, and has
/// fewer than 2^64 - 1 `frame` lines.
pub fn every_replay_is_lawful()
    ensures { EveryReplayIsLawful }
{}

/// The lines of every run of a script are those that are read of their text, and are judged lawful, where no line is longer than
/// 2,200,000 bytes and the text no longer than 100,000,000: each of their fields is in the range in which it is read. Nothing may
/// follow the lines, or `done`, or the fault of a line of the script. Each connection offers a session's number and a password in
/// their ranges, each lapse names a session's number, and each connection has fewer than 2^64 - 1 `frame` lines.
pub fn every_written_replay_is_lawful()
    ensures fits { LinesOfRunsFit }
    ensures text { WrittenReplaysAreLawful }
{}

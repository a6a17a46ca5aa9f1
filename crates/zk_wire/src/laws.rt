//! What is true of every stream. The function does nothing: each clause is a law of the definitions, and only what a
//! contract names is proved.

ghost use Rattle.std.specs.Prelude.{◌≡◌, ℕ, ◌++◌, List, [], Result};
ghost use Rattle.std.specs.Global.{Vec as AVec};
ghost use Rattle.zk_jute.specs.Frames.{Framed};
ghost use Rattle.zk_wire.specs.Cutting.{Stream, unread, CutTakes, Call, Calls, taken_by, handed_by, all_taken, all_handed, CutStands};
ghost use Rattle.zk_wire.specs.declared.cutter.CutFault.{CutFault};

/// After any calls, in whatever pieces the stream came, a cutter has handed out the frames of the bytes that it took, in
/// order, each once. A stream has one list of frames.
pub fn frames_in_any_pieces()
    ensures any_pieces { (calls : List Call) (cutter : Stream) → Calls unread calls cutter → CutStands (all_taken calls) (all_handed calls) cutter }
    ensures starts { CutStands [] [] unread }
    ensures goes_on { (stream : List ℕ) (frames : List (List ℕ)) (piece : List ℕ) (result : Result (AVec (List ℕ)) CutFault) (old new : Stream) →
        CutStands stream frames old → CutTakes old piece result new → CutStands (stream ++ taken_by piece result) (frames ++ handed_by result) new }
    ensures only { (stream : List ℕ) (frames others : List (List ℕ)) (rest tail : List ℕ) → Framed stream frames rest → Framed stream others tail → (frames ≡ others) × (rest ≡ tail) }
{}

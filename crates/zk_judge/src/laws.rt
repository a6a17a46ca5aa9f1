//! What holds of every verdict. Each function does nothing, and its contract is the law: only what a contract names is
//! proved.

ghost use Rattle.std.specs.Prelude.{◌≡◌, true, ℕ, List};
ghost use Rattle.zk_transcript.specs.declared.transcript.TranscriptLine.{TranscriptLine};
ghost use Rattle.zk_transcript.specs.Legal.{is_legal, is_ordered};
ghost use Rattle.zk_transcript.specs.Conversations.{IsLawfulAndFresh};
ghost use Rattle.zk_judge.specs.declared.verdict.Verdict.{Verdict as SomeVerdict};
ghost use Rattle.zk_judge.specs.declared.verdict.Verdict.TheVariants.{Lawful};
ghost use Rattle.zk_judge.specs.Verdicts.{IsVerdict};

/// A transcript has at most one verdict.
pub fn one_verdict()
    ensures { (lines : List TranscriptLine) (a b : SomeVerdict) → IsVerdict lines a → IsVerdict lines b → a ≡ b }
{}

/// The lines of a lawful transcript are a run of the service: a legal history, each connection's requests carried out in order, and
/// lawful and fresh conversations.
pub fn lawful_transcripts_are_runs()
    ensures { (lines : List TranscriptLine) → IsVerdict lines Lawful → (is_legal lines ≡ true) × (is_ordered lines ≡ true) × ((c : ℕ) → IsLawfulAndFresh lines c) }
{}

/// Each transcript has a verdict.
pub fn a_verdict_exists()
    ensures { (lines : List TranscriptLine) → (v : SomeVerdict) × IsVerdict lines v }
{}

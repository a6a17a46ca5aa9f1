//! What holds of the text of every transcript. Each function does nothing, and its contract is the law: only what a contract
//! names is proved.

ghost use Rattle.std.specs.Prelude.{◌≡◌, ◌++◌, ◌∷◌, [], List, ℕ, Contains};
ghost use Rattle.std.specs.List.{AllByRecursion};
ghost use Rattle.zk_transcript.specs.declared.transcript.TranscriptLine.{TranscriptLine};
ghost use Rattle.zt_text.specs.Transcripts.{IsWellFormed, line_text, transcript_text};

/// Two lists of well-formed lines that have the same text are the same.
pub fn one_reading()
    ensures { (a b : List TranscriptLine) → AllByRecursion IsWellFormed a → AllByRecursion IsWellFormed b → transcript_text a ≡ transcript_text b → a ≡ b }
{}

/// The text of a line ends in its only line feed.
pub fn one_line_feed()
    ensures { (line : TranscriptLine) → (front : List ℕ) × (line_text line ≡ front ++ 10 ∷ []) × (Contains front 10 → ⊥) }
{}

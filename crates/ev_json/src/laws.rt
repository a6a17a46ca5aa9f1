//! What is true of every message. These functions do nothing: each clause is a law of the definitions, and only what a
//! contract names is proved.

ghost use Rattle.std.specs.Prelude.{◌≡◌, ◌++◌, ◌∷◌, ℕ, ℤ, List, Some, Ok, Err};
ghost use Rattle.std.specs.List.{AllByRecursion};
ghost use Rattle.serde_json.specs.Data.{Data};
ghost use Rattle.serde_json.specs.Read.{read};
ghost use Rattle.ev_types.specs.declared.answer.Answer.{Answer};
ghost use Rattle.ev_types.specs.declared.answer.Kv.{Kv};
ghost use Rattle.ev_types.specs.declared.ask.Ask.{Ask};
ghost use Rattle.ev_types.specs.declared.route.Route.{Route};
ghost use Rattle.ev_json.specs.Answers.{answer_in, line_in};
ghost use Rattle.ev_json.specs.Asks.{ask_in, watch_in};
ghost use Rattle.ev_json.specs.Bodies.{IsOneLine, first_line, reads, reads_ask, reads_watch, reads_line};
ghost use Rattle.ev_json.specs.Breaks.{AskBreaks, AnswerBreaks, WatchBreaks, LineBreaks};
ghost use Rattle.ev_json.specs.Messages.{ask_data, ask_text, route_of, answer_data, answer_text, watch_data, watch_text, line_data, line_text};
ghost use Rattle.ev_fields.specs.Ranges.{IsCount, IsKey, IsPositiveCount};
ghost use Rattle.ev_json.specs.Ranges.{KvFits, AskFits, AnswerFits, LineFits, line_of};
ghost use Rattle.ev_json.specs.declared.line.Line.{Line};
ghost use Rattle.ev_fields.specs.declared.field.Field.{Field};

/// Each written text is JSON, and its value has exactly the members that were written.
pub fn texts_are_json()
    ensures asks { (a : Ask) → read (ask_text a) ≡ Some (ask_data a) }
    ensures answers { (a : Answer) → read (answer_text a) ≡ Some (answer_data a) }
    ensures watches { (from : ℤ) (key : List ℕ) → read (watch_text from key) ≡ Some (watch_data from key) }
    ensures lines { (kvs : List Kv) (revision : ℤ) → read (line_text kvs revision) ≡ Some (line_data kvs revision) }
{}

/// Within the ranges of `specs/Ranges` the value of each written message reads as that message.
pub fn messages_come_back()
    ensures asks { (a : Ask) → AskFits a → ask_in (route_of a) (ask_data a) ≡ Ok a }
    ensures answers { (asked : Ask) (a : Answer) → AnswerFits asked a → answer_in asked (answer_data a) ≡ Ok a }
    ensures watches { (from : ℤ) (key : List ℕ) → IsPositiveCount from → IsKey key → watch_in (watch_data from key) ≡ Ok (from, key) }
    ensures lines { (kvs : List Kv) (revision : ℤ) → AllByRecursion KvFits kvs → IsCount revision → line_in (line_data kvs revision) ≡ Ok (line_of kvs revision) }
{}

/// The texts of a stream have no line feed, so a line feed after one ends it, whatever follows.
pub fn texts_are_lines()
    ensures answers { (a : Answer) → IsOneLine (answer_text a) }
    ensures lines { (kvs : List Kv) (revision : ℤ) → IsOneLine (line_text kvs revision) }
    ensures ended { (text rest : List ℕ) → IsOneLine text → first_line (text ++ 10 ∷ rest) ≡ text }
{}

/// A member that a reading names breaks a rule of its message: it is missing, of another kind, out of range, or there where
/// it must not be.
pub fn named_members_break_rules()
    ensures asks { (to : Route) (f : Field) (d : Data) → ask_in to d ≡ Err f → AskBreaks to f d }
    ensures answers { (asked : Ask) (f : Field) (d : Data) → answer_in asked d ≡ Err f → AnswerBreaks asked f d }
    ensures watches { (f : Field) (d : Data) → watch_in d ≡ Err f → WatchBreaks f d }
    ensures lines { (f : Field) (d : Data) → line_in d ≡ Err f → LineBreaks f d }
{}

/// What is read is within the ranges of `specs/Ranges`, whatever is asked or answered. So an answer that is read fits its ask, and
/// an ask that is read can be written again.
pub fn what_is_read_fits()
    ensures answers { (asked : Ask) (a : Answer) (body : List ℕ) → reads asked body a → AnswerFits asked a }
    ensures asks { (to : Route) (a : Ask) (body : List ℕ) → reads_ask to body a → AskFits a }
    ensures watches { (from : ℤ) (key body : List ℕ) → reads_watch body from key → IsPositiveCount from × IsKey key }
    ensures lines { (l : Line) (bytes : List ℕ) → reads_line bytes l → LineFits l }
{}

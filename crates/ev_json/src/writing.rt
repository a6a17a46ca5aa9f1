//! Writes messages as texts. Each member is written straight into the text, whose room is taken once.

ghost use Rattle.std.specs.Prelude.{◌≡◌, IfOk, IsUtf8};
ghost use Rattle.std.specs.List.{AllByRecursion};
ghost use Rattle.serde_json.specs.Written.{compact_text};
ghost use Rattle.ev_types.specs.declared.ask.Ask.{Ask};
ghost use Rattle.ev_json.specs.Bodies.{IsOneLine, reads, reads_ask, reads_line, reads_watch};
ghost use Rattle.ev_json.specs.Messages.{ask_text, answer_text, watch_text, line_text, canceled_text, route_of};
ghost use Rattle.ev_json.specs.declared.line.Line.TheVariants as lines;
ghost use Rattle.ev_fields.specs.Ranges.{IsCount, IsKey, IsPositiveCount};
ghost use Rattle.ev_json.specs.Ranges.{KvFits, AskFits, AnswerFits, line_of};

use crate::ask_text::Watch;
use crate::line_text::{Canceled, LineOf};
use crate::message::Message;
use ev_fields::text::Text;
use ev_types::{Answer, Ask, Kv, Route};
use std::alloc::{AllocError, Global};
use zx_base::Memory;

/// The text of one message.
#[tactic(auto, using(ev_fields::proofs::Tokens::written))]
fn text_of<M: Message>(alloc: Global, message: &M) -> Result<Vec<u8>, AllocError>
    ensures text { IfOk result (λ v. v.items ≡ compact_text (M.shape message.now)) }
    ensures utf8 { IfOk result (λ v. IsUtf8 v.items) }
{
    let text = message.write(Text::with_room(alloc, message.room())?)?;
    Ok(text.into_bytes())
}

#[tactic(auto, unfolding(crate::specs::Messages::route_of))]
fn route_of(ask: &Ask) -> Route
    ensures { result ≡ route_of ask.now }
{
    match ask {
        Ask::Txn(_) => Route::Txn,
        Ask::Range(_) => Route::Range,
        Ask::Grant { .. } => Route::Grant,
        Ask::Alive { .. } => Route::Alive,
    }
}

/// The route whose path an ask is posted to, and the ask's text.
#[tactic(auto, using(crate::proofs::Returns::returned), unfolding(crate::specs::Messages::ask_text))]
pub fn write_ask(alloc: Global, ask: &Ask) -> Result<(Route, Vec<u8>), Memory>
    ensures route { IfOk result (λ r. r.0 ≡ route_of ask.now) }
    ensures text { IfOk result (λ r. r.1.items ≡ ask_text ask.now) }
    ensures reads_back { IfOk result (λ r. AskFits ask.now → reads_ask r.0 r.1.items ask.now) }
{
    let text = text_of(alloc, ask)?;
    Ok((route_of(ask), text))
}

/// The text of an answer, without a line feed.
#[tactic(auto, using(crate::proofs::Returns::returned), unfolding(crate::specs::Messages::answer_text))]
pub fn write_answer(alloc: Global, answer: &Answer) -> Result<Vec<u8>, Memory>
    ensures text { IfOk result (λ v. v.items ≡ answer_text answer.now) }
    ensures one_line { IfOk result (λ v. IsOneLine v.items) }
    ensures reads_back { IfOk result (λ v. (asked : Ask) → AnswerFits asked answer.now → reads asked v.items answer.now) }
{
    let text = text_of(alloc, answer)?;
    Ok(text)
}

/// The text of a request to watch one key from the revision `from` on.
#[tactic(auto, using(crate::proofs::Returns::returned), unfolding(crate::specs::Messages::watch_text))]
pub fn write_watch(alloc: Global, from: i64, key: &[u8]) -> Result<Vec<u8>, Memory>
    ensures text { IfOk result (λ v. v.items ≡ watch_text from key.now) }
    ensures reads_back { IfOk result (λ v. IsPositiveCount from → IsKey key.now → reads_watch v.items from key.now) }
{
    let text = text_of(alloc, &Watch { from, key })?;
    Ok(text)
}

/// One line of a watch, without its line feed: these puts, or that the watch was created where there are none.
#[tactic(auto, using(crate::proofs::Returns::returned), unfolding(crate::specs::Messages::line_text))]
pub fn write_line(alloc: Global, events: &[Kv], revision: i64) -> Result<Vec<u8>, Memory>
    ensures text { IfOk result (λ v. v.items ≡ line_text events.now revision) }
    ensures one_line { IfOk result (λ v. IsOneLine v.items) }
    ensures reads_back { IfOk result (λ v. AllByRecursion KvFits events.now → IsCount revision → reads_line v.items (line_of events.now revision)) }
{
    let line = LineOf {
        kvs: events,
        revision,
    };
    let text = text_of(alloc, &line)?;
    Ok(text)
}

/// The line that cancels a watch, without its line feed: the revisions below `compacted` were compacted, and the store stands at
/// `revision`.
#[tactic(auto, using(crate::proofs::Returns::returned), unfolding(crate::specs::Messages::canceled_text))]
pub fn write_canceled(alloc: Global, compacted: i64, revision: i64) -> Result<Vec<u8>, Memory>
    ensures text { IfOk result (λ v. v.items ≡ canceled_text compacted revision) }
    ensures one_line { IfOk result (λ v. IsOneLine v.items) }
    ensures reads_back { IfOk result (λ v. IsPositiveCount compacted → reads_line v.items (lines.Compacted compacted)) }
{
    let line = Canceled {
        compacted,
        revision,
    };
    let text = text_of(alloc, &line)?;
    Ok(text)
}

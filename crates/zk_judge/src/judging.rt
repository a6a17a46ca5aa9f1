//! The verdict on a transcript. Its states are gone through three times: for a fault of the history, for what each update did, and
//! for the conversations.

ghost use Rattle.std.specs.Prelude.{◌≡◌, ◌+◌, ◌<◌, ◌≤◌, ◌++◌, ◌∷◌, [], ℕ, List, None, length, IfOk};
ghost use Rattle.std.specs.List.{Contains};
ghost use Rattle.zk_transcript.specs.declared.transcript.TranscriptLine.{TranscriptLine as AnyLine};
ghost use Rattle.zk_transcript.specs.History.{state_at};
ghost use Rattle.zk_transcript.specs.Conversations.{IsLawfulAndFresh};
ghost use Rattle.zk_legal.specs.Faults.{history_fault as history_fault_of};
ghost use Rattle.zk_judge.specs.Faults.{IsLeastFault};
ghost use Rattle.zk_judge.specs.Agendas.{AreJudged, HasConversation, IsAgenda};
ghost use Rattle.zk_judge.specs.Staged.{AreOpened, IsLeastUnlawful, StandsAtEnd, connections, lesser_of, opened_by as opened_by_of};
ghost use Rattle.zk_judge.specs.Verdicts.{IsVerdict};

use crate::agenda::Agenda;
use crate::conversations::Conversation;
use crate::index::Index;
use crate::verdict::Verdict;
use std::alloc::Global;
use zk_history::{Cursor, Fault, State};
use zk_legal::{history_fault, order_fault};
use zk_transcript::TranscriptLine;
use zx_base::Memory;

/// The connection that a line opens.
fn opened_by(line: &TranscriptLine) -> Option<u32>
    ensures { result ≡ opened_by_of line.now }
{
    match line {
        TranscriptLine::Open { connection, .. } => Some(*connection),
        _ => None,
    }
}

/// The agenda with the conversation of the connection that a line opens, if it opens one.
fn with_opened(
    alloc: Global,
    index: &Index,
    agenda: Agenda,
    line: &TranscriptLine,
) -> Result<Agenda, Memory>
    requires run { history_fault_of index.now.lines.now ≡ None }
    requires agenda { IsAgenda index.now.lines.now agenda }
    requires next { agenda.next ≡ 0 }
    ensures agenda { IfOk result (λ a. IsAgenda index.now.lines.now a) }
    ensures next { IfOk result (λ a. a.next ≡ 0) }
    ensures opened { IfOk result (λ a. (before : List AnyLine) → AreOpened before (HasConversation agenda) → AreOpened (before ++ line.now ∷ []) (HasConversation a)) }
{
    match opened_by(line) {
        Some(connection) => agenda.with(alloc, index, Conversation::new(alloc, index, connection)?),
        None => Ok(agenda),
    }
}

/// The conversations of all connections that are opened, before the first moment.
fn opened(alloc: Global, index: &Index) -> Result<Agenda, Memory>
    requires run { history_fault_of index.now.lines.now ≡ None }
    ensures agenda { IfOk result (λ a. IsAgenda index.now.lines.now a) }
    ensures next { IfOk result (λ a. a.next ≡ 0) }
    ensures opened { IfOk result (λ a. AreOpened index.now.lines.now (HasConversation a)) }
{
    let mut agenda = Agenda::new(alloc);
    for line in index.lines {
        agenda = with_opened(alloc, index, agenda, line)?;
    }
    Ok(agenda)
}

/// The conversations after the next moment, by what the state then shows.
fn advanced(alloc: Global, index: &Index, state: &State, agenda: Agenda) -> Result<Agenda, Memory>
    requires run { history_fault_of index.now.lines.now ≡ None }
    requires agenda { IsAgenda index.now.lines.now agenda }
    requires within { agenda.next ≤ length index.now.lines.now }
    requires state { state.now ≡ state_at index.now.lines.now agenda.next }
    ensures agenda { IfOk result (λ a. IsAgenda index.now.lines.now a) }
    ensures next { IfOk result (λ a. a.next ≡ agenda.next + 1) }
    ensures kept { IfOk result (λ a. (c : ℕ) → HasConversation agenda c → HasConversation a c) }
{
    let moment = agenda.next;
    prove!(moment <= index.lines.len());
    let (mut due, mut later) = agenda.due(alloc);
    'conversations: while let Some(conversation) = due.pop() {
        later = later.with(
            alloc,
            index,
            conversation.advanced(alloc, index, state, moment)?,
        )?;
    }
    Ok(later)
}

/// The moment after the next line.
fn moved_on<'a>(alloc: Global, cursor: Cursor<'a>) -> Result<Cursor<'a>, Memory>
    requires run { history_fault_of cursor.past.all.now ≡ None }
    requires within { cursor.past.len < length cursor.past.all.now }
    ensures moment { IfOk result (λ c. c.past.len ≡ cursor.entry.past.len + 1) }
    ensures all { IfOk result (λ c. c.past.all.now ≡ cursor.entry.past.all.now) }
{
    match cursor.advanced(alloc) {
        Ok((next, _)) => Ok(next),
        Err(Fault::Memory) => Err(Memory),
        Err(Fault::Beyond) => unreachable!(),
    }
}

/// The conversations of all connections that are opened, after the last moment.
fn judged(alloc: Global, index: &Index) -> Result<Vec<Conversation>, Memory>
    requires run { history_fault_of index.now.lines.now ≡ None }
    ensures stand { IfOk result (λ v. AreJudged index.now.lines.now v.items) }
    ensures opened { IfOk result (λ v. AreOpened index.now.lines.now (Contains (connections v.items))) }
{
    let mut agenda = opened(alloc, index)?;
    let mut cursor = Cursor::new(alloc, index.lines);
    for _moment in 0..index.lines.len() {
        agenda = advanced(alloc, index, cursor.state(), agenda)?;
        cursor = moved_on(alloc, cursor)?;
    }
    let over = advanced(alloc, index, cursor.state(), agenda)?;
    Ok(over.into_judged())
}

fn lesser(found: Option<u32>, connection: u32) -> Option<u32>
    ensures { result ≡ lesser_of found connection }
{
    match found {
        Some(least) => {
            if least <= connection {
                Some(least)
            } else {
                Some(connection)
            }
        }
        None => Some(connection),
    }
}

/// The least connection found so far whose conversation is not lawful and fresh, with one more conversation looked at.
fn with_verdict(found: Option<u32>, conversation: &Conversation) -> Option<u32>
    ensures { (lines : List AnyLine) (cs : List ℕ) → StandsAtEnd lines conversation.now → IsLeastUnlawful lines cs found → IsLeastUnlawful lines (cs ++ conversation.now.connection ∷ []) result }
{
    if conversation.is_lawful() {
        found
    } else {
        lesser(found, conversation.connection)
    }
}

/// The least connection whose conversation is not lawful and fresh, once every moment was looked at.
fn least_unlawful(conversations: &[Conversation]) -> Option<u32>
    ensures { (lines : List AnyLine) → AreJudged lines conversations.now → IsLeastUnlawful lines (connections conversations.now) result }
{
    let mut found = None;
    for conversation in conversations {
        found = with_verdict(found, conversation);
    }
    found
}

/// The least connection whose conversation is not lawful and fresh, in a transcript whose history has no fault.
fn conversation_fault(alloc: Global, lines: &[TranscriptLine]) -> Result<Option<u32>, Memory>
    requires { history_fault_of lines.now ≡ None }
    ensures { IfOk result (λ o. IsLeastFault (IsLawfulAndFresh lines.now) o) }
{
    let index = Index::new(alloc, lines)?;
    let conversations = judged(alloc, &index)?;
    Ok(least_unlawful(&conversations))
}

/// The verdict on a transcript. The only error is out of memory, and then there is no verdict.
pub fn judge(alloc: Global, lines: &[TranscriptLine]) -> Result<Verdict, Memory>
    ensures { IfOk result (λ v. IsVerdict lines.now v) }
{
    if let Some(line) = history_fault(alloc, lines)? {
        return Ok(Verdict::History { line });
    }
    if let Some(line) = order_fault(alloc, lines)? {
        return Ok(Verdict::Order { line });
    }
    match conversation_fault(alloc, lines)? {
        Some(connection) => Ok(Verdict::Conversation { connection }),
        None => Ok(Verdict::Lawful),
    }
}

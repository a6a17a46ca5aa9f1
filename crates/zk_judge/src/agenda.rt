//! The conversations of a transcript, by the moments that they wait for.

ghost use Rattle.std.specs.Prelude.{◌≡◌, ◌==◌, ◌⊎◌, ◌+◌, ◌^◌, ◌<◌, ◌≤◌, ◌++◌, ◌∷◌, [], ℕ, List, Some, length, if◌then◌else◌, IfOk};
ghost use Rattle.std.specs.List.{All, Contains};
ghost use Rattle.zk_transcript.specs.declared.transcript.TranscriptLine.{TranscriptLine as AnyLine};
ghost use Rattle.zk_judge.specs.Agendas.{AreJudged, HasConversation, IsAgenda, waiting_at};
ghost use Rattle.zk_judge.specs.Staged.{IsStanding, StandsAtEnd, awaited as awaited_of, connections};

use crate::conversations::Conversation;
use crate::index::Index;
use std::alloc::Global;
use std::collections::BTreeMap;
use zx_base::Memory;

/// A list of conversations for each moment that some wait for.
#[derive(Drop)]
pub struct Lists {
    lists: BTreeMap<usize, Vec<Conversation>>,
}

impl Lists {
    /// No conversation.
    fn new(alloc: Global) -> Lists
        ensures { (m : ℕ) → waiting_at result m ≡ [] }
    {
        Lists {
            lists: BTreeMap::new(alloc),
        }
    }

    /// The lists with one more conversation, at the end of the list of a moment.
    fn with(self, alloc: Global, moment: usize, conversation: Conversation) -> Result<Lists, Memory>
        ensures { IfOk result (λ l. (m : ℕ) → waiting_at l m ≡ (if moment == m then waiting_at self m ++ conversation ∷ [] else waiting_at self m)) }
    {
        let mut lists = self.lists;
        lists
            .entry(moment)?
            .or_insert(Vec::new(alloc))
            .push(conversation)?;
        Ok(Lists { lists })
    }

    /// The list of a moment, and the others.
    fn without(self, alloc: Global, moment: usize) -> (Vec<Conversation>, Lists)
        ensures own { result.0.items ≡ waiting_at self moment }
        ensures others { (m : ℕ) → waiting_at result.1 m ≡ (if moment == m then [] else waiting_at self m) }
    {
        let mut lists = self.lists;
        match lists.remove(&moment) {
            Some(list) => (list, Lists { lists }),
            None => (Vec::new(alloc), Lists { lists }),
        }
    }
}

/// The conversations that are judged, and the others, each in the list of the moment that it waits for. A moment is a place between
/// two lines.
#[derive(Drop)]
pub struct Agenda {
    /// The next moment.
    pub next: usize,
    waiting: Lists,
    judged: Vec<Conversation>,
}

impl Agenda {
    /// The agenda without conversations, before the first moment.
    pub fn new(alloc: Global) -> Agenda
        ensures agenda { (lines : List AnyLine) → IsAgenda lines result }
        ensures next { result.next ≡ 0 }
    {
        Agenda {
            next: 0,
            waiting: Lists::new(alloc),
            judged: Vec::new(alloc),
        }
    }

    /// The agenda with a conversation in the list of the moment that it waits for.
    fn with_waiting(
        self,
        alloc: Global,
        moment: usize,
        conversation: Conversation,
    ) -> Result<Agenda, Memory>
        ensures agenda { IfOk result (λ a. (lines : List AnyLine) → IsAgenda lines self → IsStanding lines self.next conversation → awaited_of conversation.stage ≡ Some moment → IsAgenda lines a) }
        ensures next { IfOk result (λ a. a.next ≡ self.next) }
        ensures kept { IfOk result (λ a. (c : ℕ) → HasConversation self c → HasConversation a c) }
        ensures has { IfOk result (λ a. HasConversation a conversation.connection) }
    {
        let waiting = self.waiting.with(alloc, moment, conversation)?;
        Ok(Agenda {
            next: self.next,
            waiting,
            judged: self.judged,
        })
    }

    /// The agenda with a conversation that is judged.
    fn with_judged(self, conversation: Conversation) -> Result<Agenda, Memory>
        ensures agenda { IfOk result (λ a. (lines : List AnyLine) → IsAgenda lines self → StandsAtEnd lines conversation → IsAgenda lines a) }
        ensures next { IfOk result (λ a. a.next ≡ self.next) }
        ensures kept { IfOk result (λ a. (c : ℕ) → HasConversation self c → HasConversation a c) }
        ensures has { IfOk result (λ a. HasConversation a conversation.connection) }
    {
        let mut judged = self.judged;
        judged.push(conversation)?;
        Ok(Agenda {
            next: self.next,
            waiting: self.waiting,
            judged,
        })
    }

    /// The agenda with one more conversation, of which nothing more is found out before the next moment.
    pub fn with(
        self,
        alloc: Global,
        index: &Index,
        conversation: Conversation,
    ) -> Result<Agenda, Memory>
        requires agenda { IsAgenda index.now.lines.now self }
        requires stands { IsStanding index.now.lines.now self.next conversation }
        ensures agenda { IfOk result (λ a. IsAgenda index.now.lines.now a) }
        ensures next { IfOk result (λ a. a.next ≡ self.next) }
        ensures kept { IfOk result (λ a. (c : ℕ) → HasConversation self c → HasConversation a c) }
        ensures has { IfOk result (λ a. HasConversation a conversation.connection) }
    {
        match conversation.awaited(index) {
            Some(moment) => self.with_waiting(alloc, moment, conversation),
            None => self.with_judged(conversation),
        }
    }

    /// The conversations that wait for the next moment, and the agenda of the others, before the moment after it.
    pub fn due(self, alloc: Global) -> (Vec<Conversation>, Agenda)
        requires room { self.next + 1 < 2 ^ 64 }
        ensures due { (lines : List AnyLine) → IsAgenda lines self → All (IsStanding lines self.next) result.0.items }
        ensures agenda { (lines : List AnyLine) → IsAgenda lines self → self.next ≤ length lines → IsAgenda lines result.1 }
        ensures next { result.1.next ≡ self.next + 1 }
        ensures kept { (c : ℕ) → HasConversation self c → Contains (connections result.0.items) c ⊎ HasConversation result.1 c }
    {
        let taken = self.waiting.without(alloc, self.next);
        (
            taken.0,
            Agenda {
                next: self.next + 1,
                waiting: taken.1,
                judged: self.judged,
            },
        )
    }

    /// The conversations that are judged. Once no moment is left, these are all.
    pub fn into_judged(self) -> Vec<Conversation>
        ensures judged { (lines : List AnyLine) → IsAgenda lines self → AreJudged lines result.items }
        ensures all { (lines : List AnyLine) (c : ℕ) → IsAgenda lines self → self.next ≡ length lines + 1 → HasConversation self c → Contains (connections result.items) c }
    {
        self.judged
    }
}

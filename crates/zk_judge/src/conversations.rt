//! The conversations of a transcript, each as far as it is judged.

ghost use Rattle.std.specs.Prelude.{◌≡◌, ◌<◌, ◌≤◌, ◌+◌, ◌↔◌, ℕ, List, None, Some, length, IfOk, IsTrue};
ghost use Rattle.zk_transcript.specs.declared.transcript.TranscriptLine.{TranscriptLine as AnyLine};
ghost use Rattle.zk_transcript.specs.History.{state_at};
ghost use Rattle.zk_transcript.specs.Legal.{attach_of as attach_of_of};
ghost use Rattle.zk_transcript.specs.Conversations.{IsLawfulAndFresh, are_before_close as are_before_close_of};
ghost use Rattle.zk_legal.specs.Faults.{history_fault};
ghost use Rattle.zk_judge.specs.Staged.{IsDeciding, IsRefusalOf, IsStaged, IsStanding, MayBeRefused, StandsAtEnd, awaited as awaited_of};
ghost use Rattle.zk_judge.specs.Waiting.{IsWaiting, is_walked};

use crate::connects::{is_welcomed, may_refuse, refusal_packet};
use crate::index::Index;
use crate::packets::first_packet;
use crate::waits::{Walked, settle, walk_on};
use crate::walker::{Party, Walker};
use std::alloc::Global;
use zk_history::State;
use zk_model::ConnectRequest;
use zx_base::Memory;

/// What is still to be found out about a conversation.
#[derive(Drop)]
pub enum Stage {
    /// The update at this place attaches a session to the connection; its welcome is judged by the state right after it.
    Attached {
        place: usize,
        zxid: i64,
        session: i64,
    },
    /// The only packet is the refusal of the connect; the state at some moment from `first` to `last` must let it be refused.
    Refused {
        first: usize,
        last: usize,
        request: ConnectRequest,
    },
    /// What is known of the walk after the welcome, or that the conversation is lawful or not without one.
    Walks(Walked),
}

/// A connection whose conversation is judged.
#[derive(Drop)]
pub struct Conversation {
    pub connection: u32,
    pub stage: Stage,
}

/// Whether no packet stands after the connection's close.
fn are_before_close(index: &Index, connection: u32) -> bool
    ensures { result ≡ are_before_close_of index.now.lines.now connection }
{
    match index.close_place(connection) {
        Some(close) => {
            let mut left = index.packets_of(connection);
            'packets: while let Some((place, _, rest)) = left.split() {
                if close <= place {
                    return false;
                }
                left = rest;
            }
            true
        }
        None => true,
    }
}

/// The stage of a connection that no session was attached to, and that was sent this packet alone: it must be the refusal of the
/// connect.
fn refusal(
    alloc: Global,
    index: &Index,
    connection: u32,
    place: usize,
    bytes: &[u8],
) -> Result<Stage, Memory>
    requires { place < length index.now.lines.now }
    ensures { IfOk result (λ s. IsDeciding index.now.lines.now 0 (IsRefusalOf index.now.lines.now connection (place, bytes.now)) s) }
{
    let Some((asked, _)) = index.placed_frame(connection, 0) else {
        return Ok(Stage::Walks(Walked::Ends(false)));
    };
    let Some(request) = index.connect(alloc, connection)? else {
        return Ok(Stage::Walks(Walked::Ends(false)));
    };
    let packet = refusal_packet(alloc, &request)?;
    if asked < place && packet.is(bytes) {
        Ok(Stage::Refused {
            first: asked + 1,
            last: place,
            request,
        })
    } else {
        Ok(Stage::Walks(Walked::Ends(false)))
    }
}

/// The stage of a connection that no session was attached to, which is sent at most the refusal of its connect.
fn unattached(alloc: Global, index: &Index, connection: u32) -> Result<Stage, Memory>
    requires run { history_fault index.now.lines.now ≡ None }
    requires unattached { attach_of_of connection index.now.lines.now ≡ None }
    ensures { IfOk result (λ s. IsDeciding index.now.lines.now 0 (IsLawfulAndFresh index.now.lines.now connection) s) }
{
    let packets = index.packets_of(connection);
    if !are_before_close(index, connection) {
        return Ok(Stage::Walks(Walked::Ends(false)));
    }
    let Some((place, bytes)) = first_packet(packets) else {
        return Ok(Stage::Walks(Walked::Ends(true)));
    };
    if packets.len() != 1 {
        return Ok(Stage::Walks(Walked::Ends(false)));
    }
    refusal(alloc, index, connection, place, bytes)
}

/// Judges the welcome of a connection to which the update at `place` attached its session, and the replies that need no state;
/// `state` is the one right after that update.
fn welcomed(
    alloc: Global,
    index: &Index,
    state: &State,
    party: Party,
    place: usize,
    zxid: i64,
) -> Result<Walked, Memory>
    requires run { history_fault index.now.lines.now ≡ None }
    requires attached { attach_of_of party.connection index.now.lines.now ≡ Some (place, record { zxid = zxid; session = party.session }) }
    requires state { state.now ≡ state_at index.now.lines.now (place + 1) }
    ensures walked { IfOk result (λ w. IsTrue (is_walked index.now.lines.now w) ↔ IsLawfulAndFresh index.now.lines.now party.connection) }
    ensures waits { IfOk result (λ w. IsWaiting index.now.lines.now (place + 1) w) }
{
    let packets = index.packets_of(party.connection);
    if !are_before_close(index, party.connection) {
        return Ok(Walked::Ends(false));
    }
    let Some((first, bytes)) = first_packet(packets) else {
        return Ok(Walked::Ends(true));
    };
    if !is_welcomed(alloc, index, state, party, place, first, bytes)? {
        return Ok(Walked::Ends(false));
    }
    let walker = Walker::new(alloc, zxid, place + 1);
    settle(alloc, index, place + 1, party, walker, 1)
}

/// The stage after this moment of a connection to which the update at `place` attaches its session; the moment is no later than
/// the one right after that update.
fn attached(
    alloc: Global,
    index: &Index,
    state: &State,
    moment: usize,
    party: Party,
    place: usize,
    zxid: i64,
) -> Result<Stage, Memory>
    requires run { history_fault index.now.lines.now ≡ None }
    requires attached { attach_of_of party.connection index.now.lines.now ≡ Some (place, record { zxid = zxid; session = party.session }) }
    requires moment { moment ≤ place + 1 }
    requires state { state.now ≡ state_at index.now.lines.now moment }
    ensures { IfOk result (λ s. IsStaged index.now.lines.now (moment + 1) party.connection s) }
{
    if moment <= place {
        return Ok(Stage::Attached {
            place,
            zxid,
            session: party.session,
        });
    }
    let walked = welcomed(alloc, index, state, party, place, zxid)?;
    Ok(Stage::Walks(walk_on(alloc, index, state, moment, walked)?))
}

/// The stage after this moment of a connection that was sent a refusal, which some state from `first` to `last` must allow.
fn refused(
    state: &State,
    moment: usize,
    first: usize,
    last: usize,
    request: ConnectRequest,
) -> Stage
    requires first { moment ≤ first }
    requires last { first ≤ last }
    ensures { (lines : List AnyLine) → last ≤ length lines → state.now ≡ state_at lines moment → IsDeciding lines (moment + 1) (MayBeRefused lines first last request) result }
{
    if moment < first {
        return Stage::Refused {
            first,
            last,
            request,
        };
    }
    if may_refuse(&request, state) {
        return Stage::Walks(Walked::Ends(true));
    }
    if moment < last {
        Stage::Refused {
            first: moment + 1,
            last,
            request,
        }
    } else {
        Stage::Walks(Walked::Ends(false))
    }
}

/// The stage of a connection's conversation after this moment, by what the state then shows.
fn staged(
    alloc: Global,
    index: &Index,
    state: &State,
    moment: usize,
    connection: u32,
    stage: Stage,
) -> Result<Stage, Memory>
    requires run { history_fault index.now.lines.now ≡ None }
    requires stands { IsStaged index.now.lines.now moment connection stage }
    requires state { state.now ≡ state_at index.now.lines.now moment }
    ensures { IfOk result (λ s. IsStaged index.now.lines.now (moment + 1) connection s) }
{
    match stage {
        Stage::Attached {
            place,
            zxid,
            session,
        } => attached(
            alloc,
            index,
            state,
            moment,
            Party {
                connection,
                session,
            },
            place,
            zxid,
        ),
        Stage::Refused {
            first,
            last,
            request,
        } => Ok(refused(state, moment, first, last, request)),
        Stage::Walks(walked) => Ok(Stage::Walks(walk_on(alloc, index, state, moment, walked)?)),
    }
}

/// The moment right after a line.
fn moment_after(index: &Index, place: usize) -> usize
    requires { place < length index.now.lines.now }
    ensures { result ≡ place + 1 }
{
    prove!(place < index.lines.len());
    place + 1
}

/// Whether the least walk gives the packets, once every moment was looked at.
fn is_least(walked: &Walked) -> bool
    ensures { (lines : List AnyLine) → IsWaiting lines (length lines + 1) walked.now → result ≡ is_walked lines walked.now }
{
    match walked {
        Walked::Ends(is_least) => *is_least,
        Walked::Waits(_) => false,
    }
}

impl Conversation {
    /// The conversation of a connection, before the first line.
    pub fn new(alloc: Global, index: &Index, connection: u32) -> Result<Conversation, Memory>
        requires run { history_fault index.now.lines.now ≡ None }
        ensures stands { IfOk result (λ x. IsStanding index.now.lines.now 0 x) }
        ensures connection { IfOk result (λ x. x.connection ≡ connection) }
    {
        let stage = match index.attach_of(connection) {
            Some((place, (zxid, session))) => Stage::Attached {
                place,
                zxid,
                session,
            },
            None => unattached(alloc, index, connection)?,
        };
        Ok(Conversation { connection, stage })
    }

    /// The conversation after this moment, by what the state then shows.
    pub fn advanced(
        self,
        alloc: Global,
        index: &Index,
        state: &State,
        moment: usize,
    ) -> Result<Conversation, Memory>
        requires run { history_fault index.now.lines.now ≡ None }
        requires stands { IsStanding index.now.lines.now moment self }
        requires state { state.now ≡ state_at index.now.lines.now moment }
        ensures stands { IfOk result (λ x. IsStanding index.now.lines.now (moment + 1) x) }
        ensures connection { IfOk result (λ x. x.connection ≡ self.connection) }
    {
        let Conversation { connection, stage } = self;
        Ok(Conversation {
            connection,
            stage: staged(alloc, index, state, moment, connection, stage)?,
        })
    }

    /// The moment that the conversation waits for, unless it is judged.
    pub fn awaited(&self, index: &Index) -> Option<usize>
        requires { (from : ℕ) × IsStanding index.now.lines.now from self.now }
        ensures { result ≡ awaited_of self.now.stage }
    {
        match &self.stage {
            Stage::Attached { place, .. } => Some(moment_after(index, *place)),
            Stage::Refused { first, .. } => Some(*first),
            Stage::Walks(walked) => walked.awaited(),
        }
    }

    /// Whether the conversation is lawful and fresh, once every moment was looked at.
    pub fn is_lawful(&self) -> bool
        ensures { (lines : List AnyLine) → StandsAtEnd lines self.now → (IsTrue result ↔ IsLawfulAndFresh lines self.now.connection) }
    {
        match &self.stage {
            Stage::Attached { .. } => false,
            Stage::Refused { .. } => false,
            Stage::Walks(walked) => is_least(walked),
        }
    }
}

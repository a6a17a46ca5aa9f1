//! The lines of a transcript, with tables of what they show and of what its updates did.

ghost use Rattle.std.specs.Prelude.{◌≡◌, ◌+◌, ◌<◌, ◌≤◌, ℕ, List, None, Some, length, option_map, slice_get, IfOk, IfSome};
ghost use Rattle.zk_service.specs.declared.fresh.Fresh.{Fresh};
ghost use Rattle.zk_service.specs.declared.update.UpdateRec.{UpdateRec as Updated};
ghost use Rattle.zk_transcript.specs.declared.transcript.TranscriptLine.TheVariants.{Update};
ghost use Rattle.zk_transcript.specs.History.{connect as connect_of, first_place, open_shown, state_at};
ghost use Rattle.zk_transcript.specs.Walks.{after_update as after_update_of, own_update as own_update_of, packets, placed_frame as placed_frame_of, update_shown as update_shown_of};
ghost use Rattle.zk_transcript.specs.Legal.{attach_of as attach_of_of};
ghost use Rattle.zk_transcript.specs.Conversations.{close_shown as close_shown_of};
ghost use Rattle.zk_model.specs.Limits.{max_frame};
ghost use Rattle.zk_legal.specs.Faults.{history_fault};
ghost use Rattle.zk_legal.specs.Passwords.{OfferPasswords};
ghost use Rattle.zk_history.specs.Pasts.{lines_of};
ghost use Rattle.zk_history.specs.Shown.{placed_attachment, placed_bytes};
ghost use Rattle.zk_judge.specs.Seen.{update_response};
ghost use Rattle.zk_judge.specs.Sent.{AreSent, packets_in};

use crate::sent::{Packets, Sent};
use std::alloc::Global;
use zk_effects::Effects;
use zk_history::{Fault, Past};
use zk_model::{Body, ConnectRequest, Trigger};
use zk_service::UpdateRec;
use zk_transcript::TranscriptLine;
use zx_base::Memory;

/// Proof only: an array of 16 bytes has 16 bytes.
fn see_bytes(passwd: &[u8; 16])
    ensures { length passwd.now ≡ 16 }
{
    let _seen = *passwd;
}

/// Proof only: the password that a line offers has 16 bytes.
fn see_password(line: &TranscriptLine)
    ensures { (c : ℕ) (f : Fresh) → open_shown c line.now ≡ Some f → length f.passwd ≡ 16 }
{
    if let TranscriptLine::Open { passwd, .. } = line {
        see_bytes(passwd);
    }
}

/// Proof only: each connection offers a password of 16 bytes.
fn see_passwords(lines: &[TranscriptLine])
    ensures { OfferPasswords lines.now }
{
    for line in lines {
        see_password(line);
    }
}

/// A transcript whose history has no fault, with what its lines show and what its updates did.
#[derive(Drop)]
pub struct Index<'a> {
    pub lines: &'a [TranscriptLine],
    past: Past<'a>,
    effects: Effects<'a>,
    sent: Sent,
    ghost shown: { lines_of past ≡ lines.now },
    ghost done: { effects.all.now ≡ lines.now },
    ghost packets_stand: { AreSent lines.now sent },
    ghost run: { history_fault lines.now ≡ None },
    ghost offered: { OfferPasswords lines.now },
}

impl<'a> Index<'a> {
    /// Goes over the lines once.
    pub fn new(alloc: Global, lines: &'a [TranscriptLine]) -> Result<Index<'a>, Memory>
        requires { history_fault lines.now ≡ None }
        ensures { IfOk result (λ i. i.lines.now ≡ lines.now) }
    {
        see_passwords(lines);
        let effects = match Effects::of(alloc, lines) {
            Ok(effects) => effects,
            Err(Fault::Memory) => return Err(Memory),
            Err(Fault::Beyond) => unreachable!(),
        };
        Ok(Index {
            lines,
            past: Past::at_end(alloc, lines)?,
            effects,
            sent: Sent::of(alloc, lines)?,
        })
    }

    /// A frame of a connection: its line's place and its bytes.
    pub fn placed_frame(&self, connection: u32, index: u64) -> Option<(usize, &'a [u8])>
        ensures placed { option_map placed_bytes result ≡ placed_frame_of connection index self.now.lines.now }
        ensures within { IfSome result (λ x. x.0 < length self.now.lines.now) }
        ensures short { IfSome result (λ x. length x.1.now ≤ max_frame) }
        ensures index { IfSome result (λ x. index < length self.now.lines.now) }
    {
        self.past.placed_frame(connection, index)
    }

    /// The connect request of a connection, where it can be read.
    pub fn connect(&self, alloc: Global, connection: u32) -> Result<Option<ConnectRequest>, Memory>
        ensures { IfOk result (λ r. r ≡ connect_of connection self.now.lines.now) }
    {
        self.past.connect(alloc, connection)
    }

    /// The packets of a connection with their places, in order.
    pub fn packets_of(&self, connection: u32) -> Packets<'_>
        ensures { packets_in result ≡ packets connection self.now.lines.now }
    {
        self.sent.packets_of(self.lines, connection)
    }

    /// The line that carries out a request of a connection: its place, and the update.
    pub fn own_update(&self, connection: u32, index: u64) -> Option<(usize, UpdateRec)>
        ensures shown { result ≡ own_update_of connection index self.now.lines.now }
        ensures within { IfSome result (λ x. x.0 < length self.now.lines.now) }
        ensures stands { IfSome result (λ x. slice_get self.now.lines.now x.0 ≡ Some (Update x.1)) }
    {
        self.past.own_update(connection, index)
    }

    /// The place of the update with a zxid.
    pub fn update_place(&self, zxid: i64) -> Option<usize>
        ensures placed { option_map (λ k. (k, zxid)) result ≡ first_place (update_shown_of zxid) 0 self.now.lines.now }
        ensures within { IfSome result (λ k. k < length self.now.lines.now) }
    {
        self.past.update_place(zxid)
    }

    /// The moment right after the update with a zxid, or 0 where there is none.
    pub fn after_update(&self, zxid: i64) -> usize
        ensures { result ≡ after_update_of zxid self.now.lines.now }
    {
        match self.update_place(zxid) {
            Some(place) => place + 1,
            None => 0,
        }
    }

    /// A connection's own line, which attaches a session to it: its place, its zxid, and the session.
    pub fn attach_of(&self, connection: u32) -> Option<(usize, (i64, i64))>
        ensures { option_map placed_attachment result ≡ attach_of_of connection self.now.lines.now }
    {
        self.past.attach_of(connection)
    }

    /// The place of a connection's close.
    pub fn close_place(&self, connection: u32) -> Option<usize>
        ensures { option_map (λ k. (k, connection)) result ≡ first_place (close_shown_of connection) 0 self.now.lines.now }
    {
        self.past.close_place(connection)
    }

    /// The place of the first update from a place on, or the number of lines.
    pub fn next_update(&self, from: usize) -> usize
        requires { from ≤ length self.now.lines.now }
        ensures from { from ≤ result }
        ensures within { result ≤ length self.now.lines.now }
        ensures none { (k : ℕ) (u : Updated) → from ≤ k → k < result → slice_get self.now.lines.now k ≡ Some (Update u) → ⊥ }
    {
        self.effects.next_update(from)
    }

    /// What watches see of the update at a place.
    pub fn triggers(&self, place: usize) -> &[Trigger]
        requires { place < length self.now.lines.now }
        ensures { (u : Updated) → slice_get self.now.lines.now place ≡ Some (Update u) → result.now ≡ (state_at self.now.lines.now (place + 1)).triggers }
    {
        self.effects.triggers(place)
    }

    /// The body of the reply to the create, create2, delete, setData or multi that the update at a place carried out.
    pub fn response(&self, place: usize) -> Option<&Body>
        requires { place < length self.now.lines.now }
        ensures { (u : Updated) → slice_get self.now.lines.now place ≡ Some (Update u) → option_map (λ b. b.now) result ≡ update_response self.now.lines.now place u }
    {
        self.effects.response(place)
    }
}

//! What each update of a transcript did, worked out once. Of the other lines nothing is kept but where the next update stands.

ghost use Rattle.std.specs.Prelude.{◌≡◌, ◌≢◌, ◌+◌, ◌<◌, ◌≤◌, ℕ, List, Some, length, option_map, slice_get, true, IfErr, IfOk};
ghost use Rattle.zk_service.specs.declared.update.UpdateRec.{UpdateRec as Updated};
ghost use Rattle.zk_transcript.specs.declared.transcript.TranscriptLine.{TranscriptLine as Line};
ghost use Rattle.zk_transcript.specs.declared.transcript.TranscriptLine.TheVariants.{Update};
ghost use Rattle.zk_transcript.specs.History.{state_at};
ghost use Rattle.zk_machine.specs.Faults.{BeyondUnless};
ghost use Rattle.zk_history.specs.Fits.{AllFit};
ghost use Rattle.zk_effects.specs.Effects.{AreEffects, AreNexts, IsEffect, IsNext, effect_at, kept_response};

use std::alloc::Global;
use std::collections::BTreeMap;
use zk_history::{Cursor, Fault};
use zk_model::{Body, Trigger};
use zk_transcript::TranscriptLine;
use zx_base::{Memory, Seq};

/// What is kept of an update: what watches see of it, and the body of the reply to the request that it carried out, unless that
/// is a closeSession.
#[derive(Drop)]
pub struct Effect {
    triggers: Seq<Trigger>,
    response: Option<Body>,
}

fn copy_of(alloc: Global, trigger: &Trigger) -> Result<Trigger, Memory>
    ensures { IfOk result (λ t. t ≡ trigger.now) }
{
    Ok(match trigger {
        Trigger::Created(path) => Trigger::Created(path.copy(alloc)?),
        Trigger::Deleted(path) => Trigger::Deleted(path.copy(alloc)?),
        Trigger::Changed(path) => Trigger::Changed(path.copy(alloc)?),
        Trigger::Children(path) => Trigger::Children(path.copy(alloc)?),
    })
}

fn copies(alloc: Global, triggers: &[Trigger]) -> Result<Seq<Trigger>, Memory>
    ensures { IfOk result (λ copied. copied ≡ triggers.now) }
{
    let mut copied = Vec::new(alloc);
    for trigger in triggers {
        copied.push(copy_of(alloc, trigger)?)?;
    }
    Ok(Seq::from_vec(copied))
}

fn is_update(line: &TranscriptLine) -> bool
    ensures { (u : Updated) → line.now ≡ Update u → result ≡ true }
{
    match line {
        TranscriptLine::Update(_) => true,
        _ => false,
    }
}

/// What is kept of the updates, by the places of their lines.
#[derive(Drop)]
pub struct Table {
    kept: BTreeMap<usize, Effect>,
}

impl Table {
    /// Nothing is kept.
    fn new(alloc: Global) -> Table {
        Table {
            kept: BTreeMap::new(alloc),
        }
    }

    /// The table with what is kept of one more line, where the state after it has these triggers and it gave this response.
    fn noted(
        self,
        alloc: Global,
        place: usize,
        line: &TranscriptLine,
        triggers: &[Trigger],
        response: Option<Body>,
    ) -> Result<Table, Memory>
        ensures own { IfOk result (λ t. (u : Updated) → line.now ≡ Update u → IsEffect (effect_at t place) triggers.now response) }
        ensures others { IfOk result (λ t. (k : ℕ) → k ≢ place → effect_at t k ≡ effect_at self k) }
    {
        if !is_update(line) {
            return Ok(self);
        }
        let mut kept = self.kept;
        let effect = Effect {
            triggers: copies(alloc, triggers)?,
            response,
        };
        kept.insert(place, effect)?;
        Ok(Table { kept })
    }

    /// What is kept of the line at a place.
    fn at(&self, place: usize) -> Option<&Effect>
        ensures { option_map (λ e. e.now) result ≡ effect_at self.now place }
    {
        self.kept.get(&place)
    }
}

/// The place of the first update from the line at `place` on, where the first later one is at `next`.
fn next_at(line: &TranscriptLine, place: usize, next: usize) -> usize
    ensures { (all : List Line) → slice_get all place ≡ Some line.now → place < length all → IsNext all (place + 1) next → IsNext all place result }
{
    if is_update(line) { place } else { next }
}

/// The place of the first update from each place on, the last place first.
fn nexts(alloc: Global, all: &[TranscriptLine]) -> Result<Vec<usize>, Memory>
    ensures stand { IfOk result (λ v. AreNexts all.now v.items) }
    ensures len { IfOk result (λ v. length v.items ≡ length all.now + 1) }
{
    let mut next = all.len();
    let mut nexts = Vec::new(alloc);
    nexts.push(next)?;
    for back in 0..all.len() {
        let place = all.len() - 1 - back;
        next = next_at(&all[place], place, next);
        nexts.push(next)?;
    }
    Ok(nexts)
}

/// What each update of a transcript did.
#[derive(Drop)]
pub struct Effects<'a> {
    /// The lines of the transcript.
    pub all: &'a [TranscriptLine],
    table: Table,
    /// The place of the first update from each place on, the last place first.
    nexts: Vec<usize>,
    ghost each: { AreEffects all.now (length all.now) table },
    ghost nexts_stand: { AreNexts all.now nexts.items },
    ghost nexts_len: { length nexts.items ≡ length all.now + 1 },
}

impl<'a> Effects<'a> {
    /// Goes over the lines once. Faults as [`Cursor::advanced`] does.
    pub fn of(alloc: Global, all: &'a [TranscriptLine]) -> Result<Effects<'a>, Fault>
        ensures all { IfOk result (λ e. e.all.now ≡ all.now) }
        ensures beyond { IfErr result (BeyondUnless (AllFit all.now)) }
    {
        let mut cursor = Cursor::new(alloc, all);
        let mut table = Table::new(alloc);
        for line in all {
            let place = cursor.past.len;
            let (next, response) = cursor.advanced(alloc)?;
            table = table.noted(alloc, place, line, next.state().triggers(), response)?;
            cursor = next;
        }
        let nexts = nexts(alloc, all)?;
        Ok(Effects { all, table, nexts })
    }

    /// What watches see of the update at a place.
    pub fn triggers(&self, place: usize) -> &[Trigger]
        requires { place < length self.now.all.now }
        ensures { (u : Updated) → slice_get self.now.all.now place ≡ Some (Update u) → result.now ≡ (state_at self.now.all.now (place + 1)).triggers }
    {
        match self.table.at(place) {
            Some(effect) => effect.triggers.as_slice(),
            None => &[],
        }
    }

    /// The body of the reply to the create, create2, delete, setData or multi that the update at a place carried out.
    pub fn response(&self, place: usize) -> Option<&Body>
        requires { place < length self.now.all.now }
        ensures { (u : Updated) → slice_get self.now.all.now place ≡ Some (Update u) → option_map (λ b. b.now) result ≡ kept_response self.now.all.now place u }
    {
        match self.table.at(place) {
            Some(effect) => effect.response.as_ref(),
            None => None,
        }
    }

    /// The place of the first update from a place on, or the number of lines.
    pub fn next_update(&self, from: usize) -> usize
        requires { from ≤ length self.now.all.now }
        ensures from { from ≤ result }
        ensures within { result ≤ length self.now.all.now }
        ensures none { (k : ℕ) (u : Updated) → from ≤ k → k < result → slice_get self.now.all.now k ≡ Some (Update u) → ⊥ }
    {
        self.nexts[self.all.len() - from]
    }
}

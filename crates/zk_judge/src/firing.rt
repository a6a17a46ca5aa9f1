//! The updates that a client has not been told of fire its watches.

ghost use Rattle.std.specs.Prelude.{◌≡◌, ◌<◌, Some, true, length, slice_get, IfOk};
ghost use Rattle.zk_service.specs.declared.update.UpdateRec.{UpdateRec as Updated};
ghost use Rattle.zk_transcript.specs.declared.transcript.TranscriptLine.{TranscriptLine as Line};
ghost use Rattle.zk_transcript.specs.declared.transcript.TranscriptLine.TheVariants.{Update};
ghost use Rattle.zk_transcript.specs.Walks.{fired_above as fired_above_of, is_above as is_above_of, then_fired};
ghost use Rattle.zk_judge.specs.Seen.{fired_of, walker_of};
ghost use Rattle.zk_judge.specs.Fronts.{IsFront, IsTold};

use crate::index::Index;
use crate::packets::add_notices;
use crate::walker::{Fired, Walker};
use std::alloc::Global;
use zk_transcript::TranscriptLine;
use zx_base::Memory;

/// What is armed and what is due after the update at a place fires its triggers.
fn fire_at(alloc: Global, index: &Index, place: usize, fired: Fired) -> Result<Fired, Memory>
    requires within { place < length index.now.lines.now }
    requires update { (u : Updated) × (slice_get index.now.lines.now place ≡ Some (Update u)) }
    ensures { IfOk result (λ f. fired_of f ≡ then_fired index.now.lines.now place true (fired_of fired)) }
{
    let Fired { watches, due } = fired;
    let seen = watches.fire_all(alloc, index.triggers(place))?;
    let mut due = due;
    add_notices(alloc, &mut due, place + 1, seen.notices.as_slice())?;
    Ok(Fired {
        watches: seen.watches,
        due,
    })
}

fn is_above(line: &TranscriptLine, zxid: i64) -> bool
    ensures { result ≡ is_above_of zxid line.now }
{
    match line {
        TranscriptLine::Update(update) => zxid < update.zxid,
        _ => false,
    }
}

/// What is armed and what is due after the line at a place, which fires where it is an update above a zxid.
pub fn then_fire(
    alloc: Global,
    index: &Index,
    place: usize,
    zxid: i64,
    fired: Fired,
) -> Result<Fired, Memory>
    requires { place < length index.now.lines.now }
    ensures { IfOk result (λ f. (l : Line) → slice_get index.now.lines.now place ≡ Some l → fired_of f ≡ then_fired index.now.lines.now place (is_above_of zxid l) (fired_of fired)) }
{
    if is_above(&index.lines[place], zxid) {
        fire_at(alloc, index, place, fired)
    } else {
        Ok(fired)
    }
}

/// What is armed and what is due after the updates among these first lines that are above the walker's zxid fire in order. Lines up
/// to the walker's last update and lines without an update are passed over, and all lines once nothing is armed. The walker's
/// watches are taken over, so an update takes the logarithm of their number for each of its triggers.
pub fn fire_above(
    alloc: Global,
    index: &Index,
    past: &[TranscriptLine],
    walker: Walker,
) -> Result<Fired, Memory>
    requires front { IsFront past.now index.now.lines.now }
    requires told { IsTold index.now.lines.now (walker_of walker) }
    ensures { IfOk result (λ f. fired_of f ≡ fired_above_of past.now walker.zxid walker.watches) }
{
    let zxid = walker.zxid;
    let mut at = walker.since;
    let mut fired = Fired {
        watches: walker.watches,
        due: Vec::new(alloc),
    };
    'updates: while at < past.len() && !fired.watches.is_unarmed() {
        let place = index.next_update(at);
        if past.len() <= place {
            return Ok(fired);
        }
        fired = then_fire(alloc, index, place, zxid, fired)?;
        at = place + 1;
    }
    Ok(fired)
}

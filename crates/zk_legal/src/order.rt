//! The order in which the requests of a connection are carried out.

ghost use Rattle.std.specs.Prelude.{◌≡◌, List, IfOk};
ghost use Rattle.zk_transcript.specs.declared.transcript.TranscriptLine.{TranscriptLine as AnyLine};
ghost use Rattle.zk_transcript.specs.Legal.{is_below_place as is_below_of, is_in_order as is_in_order_of};
ghost use Rattle.zk_legal.specs.Counted.{AreLasts};
ghost use Rattle.zk_legal.specs.Faults.{order_fault as order_fault_of};

use crate::lasts::Lasts;
use std::alloc::Global;
use zk_history::own_mark;
use zk_transcript::TranscriptLine;
use zx_base::Memory;

fn is_below(index: u64, earlier: Option<u64>) -> bool
    ensures { result ≡ is_below_of index earlier }
{
    match earlier {
        None => true,
        Some(earlier) => earlier < index,
    }
}

/// Whether the request that a line carries out, if it does, comes after all that were carried out for its connection.
fn is_in_order(lasts: &Lasts, line: &TranscriptLine) -> bool
    ensures { (before : List AnyLine) → AreLasts before lasts.now → result ≡ is_in_order_of before line.now }
{
    match own_mark(line) {
        None => true,
        Some((connection, index)) => is_below(index, lasts.last(connection)),
    }
}

/// The number of the first line, counted from 1, that carries out a request which does not come after all those that were carried
/// out before for its connection.
#[tactic(auto, unfolding(crate::specs::Faults::order_fault))]
pub fn order_fault(alloc: Global, lines: &[TranscriptLine]) -> Result<Option<u64>, Memory>
    ensures { IfOk result (λ n. n ≡ order_fault_of lines.now) }
{
    let mut lasts = Lasts::new(alloc);
    for (place, line) in lines.iter().enumerate() {
        if !is_in_order(&lasts, line) {
            return Ok(Some(place as u64 + 1));
        }
        lasts = lasts.noted(line)?;
    }
    Ok(None)
}

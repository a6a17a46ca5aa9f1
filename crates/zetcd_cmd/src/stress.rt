//! The command `stress`: the schedule that a number makes, and the summary of its run.

ghost use Rattle.std.specs.Prelude.{◌≡◌, ◌≢◌, ◌≤◌, ◌<◌, IfOk};
ghost use Rattle.zx_outside.specs.Writing.{counts_after_write};
ghost use Rattle.zx_outside.specs.declared.sink.Took.TheVariants.{Failed as TookFailed};
ghost use Rattle.zetcd_cmd.specs.Stressing.{IsSummary, Stresses, max_connections};

use crate::status::Status;
use crate::streams::write_all;
use crate::words::Schedule;
use std::alloc::Global;
use zp_stress::{push_summary, stress as run};
use zx_base::Memory;
use zx_outside::Sink;

/// The text of the summary of a schedule's run.
fn summary_text_of(alloc: Global, schedule: Schedule) -> Result<Vec<u8>, Memory>
    requires some { 0 < schedule.connections }
    requires few { schedule.connections ≤ max_connections }
    ensures { IfOk result (λ text. IsSummary schedule.number schedule.connections schedule.steps text.items) }
{
    let summary = run(alloc, schedule.number, schedule.connections, schedule.steps)?;
    let mut text = Vec::new(alloc);
    push_summary(&mut text, &summary)?;
    Ok(text)
}

/// Runs a schedule, and writes its summary.
///
/// The world and its transcript are held in memory, and nothing is written before the run has come to its end.
pub fn stress<O: Sink>(alloc: Global, schedule: Schedule, out: &mut O) -> Status
    requires some { 0 < schedule.connections }
    requires few { schedule.connections ≤ max_connections }
    ensures told { Stresses result schedule.number schedule.connections schedule.steps (O.taken out.old) (O.taken out.new) }
    ensures write { result ≡ Status.WriteFault → O.counts out.new ≡ counts_after_write TookFailed (O.counts out.old) }
    ensures unless_write_fault { result ≢ Status.WriteFault → O.counts out.new ≡ O.counts out.old }
{
    let Ok(text) = summary_text_of(alloc, schedule) else {
        return Status::Memory;
    };
    if write_all(out, text.as_slice()) {
        Status::Done
    } else {
        Status::WriteFault
    }
}

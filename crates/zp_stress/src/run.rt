//! A whole schedule.

ghost use Rattle.std.specs.Prelude.{◌≡◌, ◌-◌, ◌^◌, ◌<◌, ◌≤◌, IfOk, length};
ghost use Rattle.zp_clients.specs.Summaries.{summary_of as summary_of_lines};
ghost use Rattle.zp_stress.specs.Schedules.{IsScheduled};
ghost use Rattle.zp_stress.specs.Stressed.{IsStressed};

use crate::client::{open_all, settle_all};
use crate::schedule::walk;
use std::alloc::Global;
use zp_clients::{Summary, seeded, summary_of};
use zp_world::World;
use zx_base::Memory;

/// The most connections of a schedule.
pub const MAX_CONNECTIONS: u32 = 256;

/// The world to which a schedule leads.
fn scheduled(alloc: Global, number: u64, connections: u32, steps: u32) -> Result<World, Memory>
    requires some { 0 < connections }
    requires few { connections ≤ MAX_CONNECTIONS }
    ensures { IfOk result (λ w. IsScheduled number connections steps w) }
{
    let mut world = World::new(alloc)?;
    open_all(alloc, &mut world, connections)?;
    let mut lasts = vec![in alloc; 0u32; connections as usize]?;
    let mut words = seeded(number);
    walk(
        alloc,
        &mut world,
        &mut words,
        &mut lasts,
        connections,
        steps,
    )?;
    settle_all(&mut world, connections)?;
    Ok(world)
}

/// Counts the lines of a world.
fn counted(steps: u32, world: &World) -> Summary
    ensures counted { result ≡ summary_of_lines steps world.now.lines }
    ensures few { length world.now.lines < 2 ^ 64 - 1 }
{
    let lines = world.lines();
    summary_of(steps, lines, world.updates())
}

/// Runs the schedule that `number` makes, of 1 to 256 connections and any number of steps, and counts what came of it.
///
/// The time is that of the happenings, and of one look back through the transcript in some of the steps. The world and its
/// transcript are held in memory until the end.
pub fn stress(alloc: Global, number: u64, connections: u32, steps: u32) -> Result<Summary, Memory>
    requires some { 0 < connections }
    requires few { connections ≤ MAX_CONNECTIONS }
    ensures { IfOk result (λ s. IsStressed number connections steps s) }
{
    let world = scheduled(alloc, number, connections, steps)?;
    Ok(counted(steps, &world))
}

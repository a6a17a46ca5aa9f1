//! The steps of a schedule.

ghost use Rattle.std.specs.Prelude.{◌≡◌, ◌<◌, ◌≤◌, IfOk, OnOk, length};
ghost use Rattle.zp_clients.specs.Draws.{IsInRange};
ghost use Rattle.zp_clients.specs.Sent.{awaits_reply as awaits_reply_in};
ghost use Rattle.zp_script.specs.Faults.{fault};
ghost use Rattle.zp_stress.specs.Passing.{Passes};
ghost use Rattle.zp_stress.specs.Schedules.{GoesOn, Pings, Sends, Steps, Walks};
ghost use Rattle.zp_stress.specs.Turns.{turn_of};
ghost use Rattle.zt_text.specs.declared.script.Happening.TheVariants as line;

use crate::passing::pass;
use rand_pcg::Pcg32;
use std::alloc::Global;
use zp_clients::{Draw, awaits_reply, drawn, last_after, packet_of, wish_of};
use zp_world::World;
use zt_text::{Happening, Why};
use zx_base::Memory;

/// So many steps of a schedule, for so many connections, whose last xids are given.
pub fn walk(
    alloc: Global,
    world: &mut World,
    words: &mut Pcg32,
    lasts: &mut Vec<u32>,
    connections: u32,
    steps: u32,
) -> Result<(), Memory>
    requires some { 0 < connections }
    requires few { connections ≤ 256 }
    requires long { length lasts.old.items ≡ connections }
    ensures { OnOk result (Walks connections steps words.old lasts.old.items world.old world.new) }
{
    for _done in 0..steps {
        let draw = drawn(words, connections);
        step(alloc, world, lasts, draw)?;
    }
    Ok(())
}

/// What is left of a step after it was tried to carry out its connection's ask.
#[derive(Clone, Copy)]
enum Turn {
    /// Nothing: the ask was carried out, or the connection is closed.
    Over,
    /// The answer is to be delivered: the ask was carried out before.
    Deliver,
    /// There is no ask.
    GoOn,
}

/// What is left of a step, by why the ask of its connection was not carried out.
fn turn_of(why: Option<Why>) -> Turn
    ensures { result ≡ turn_of why }
{
    match why {
        Some(Why::AlreadyCarriedOut) => Turn::Deliver,
        Some(Why::NoRequestOut) => Turn::GoOn,
        _ => Turn::Over,
    }
}

/// Carries out the ask of a connection, where it has one that was not carried out, and says what is left of the step.
fn carry_out(world: &mut World, connection: u32) -> Result<Turn, Memory>
    ensures turn { IfOk result (λ t. t ≡ turn_of (fault world.old (line.Exec connection))) }
    ensures passes { OnOk result (Passes world.old (line.Exec connection) world.new) }
{
    let why = pass(world, Happening::Exec { connection })?;
    Ok(turn_of(why))
}

/// Delivers the answer to the ask of a connection.
fn deliver(world: &mut World, connection: u32) -> Result<(), Memory>
    ensures { OnOk result (Passes world.old (line.Answer connection) world.new) }
{
    pass(world, Happening::Answer { connection })?;
    Ok(())
}

/// Tells a connection of the next update.
fn tell(world: &mut World, connection: u32) -> Result<(), Memory>
    ensures { OnOk result (Passes world.old (line.Entry connection) world.new) }
{
    pass(world, Happening::Entry { connection })?;
    Ok(())
}

/// Whether a connection awaits a reply.
fn awaits(world: &World, connection: u32) -> bool
    ensures { result ≡ awaits_reply_in connection world.now.lines }
{
    awaits_reply(connection, world.lines())
}

/// One step: what the connection has out goes on; otherwise its client sends a request.
fn step(alloc: Global, world: &mut World, lasts: &mut Vec<u32>, draw: Draw) -> Result<(), Memory>
    requires { IsInRange draw (length lasts.old.items) }
    ensures does { OnOk result (Steps draw lasts.old.items world.old lasts.new.items world.new) }
    ensures long { length lasts.new.items ≡ length lasts.old.items }
{
    let connection = draw.connection;
    let turn = carry_out(world, connection)?;
    match turn {
        Turn::Over => Ok(()),
        Turn::Deliver => deliver(world, connection),
        Turn::GoOn => go_on(alloc, world, lasts, draw),
    }
}

/// A step of a connection that has no ask out: a reply that waits is brought on by an entry; otherwise its client sends a request.
fn go_on(alloc: Global, world: &mut World, lasts: &mut Vec<u32>, draw: Draw) -> Result<(), Memory>
    requires { IsInRange draw (length lasts.old.items) }
    ensures does { OnOk result (GoesOn draw lasts.old.items world.old lasts.new.items world.new) }
    ensures long { length lasts.new.items ≡ length lasts.old.items }
{
    let connection = draw.connection;
    if awaits(world, connection) {
        return tell(world, connection);
    }
    if wish_of(draw.kind).is_ping() {
        return ping(alloc, world, lasts, draw);
    }
    send(alloc, world, lasts, draw)
}

/// A step of a connection that has nothing to wait for: the next update is told where that is possible; otherwise its client sends a
/// ping.
fn ping(alloc: Global, world: &mut World, lasts: &mut Vec<u32>, draw: Draw) -> Result<(), Memory>
    requires { IsInRange draw (length lasts.old.items) }
    ensures does { OnOk result (Pings draw lasts.old.items world.old lasts.new.items world.new) }
    ensures long { length lasts.new.items ≡ length lasts.old.items }
{
    let connection = draw.connection;
    let why = pass(world, Happening::Entry { connection })?;
    match why {
        None => Ok(()),
        Some(_why) => send(alloc, world, lasts, draw),
    }
}

/// The client of a connection sends a request.
fn send(alloc: Global, world: &mut World, lasts: &mut Vec<u32>, draw: Draw) -> Result<(), Memory>
    requires { IsInRange draw (length lasts.old.items) }
    ensures does { OnOk result (Sends draw lasts.old.items world.old lasts.new.items world.new) }
    ensures long { length lasts.new.items ≡ length lasts.old.items }
{
    let connection = draw.connection;
    let wish = wish_of(draw.kind);
    let at = connection as usize - 1;
    let last = lasts[at];
    let bytes = packet_of(alloc, wish, draw.path, last)?;
    lasts[at] = last_after(wish, last);
    pass(world, Happening::Arrive { connection, bytes })?;
    Ok(())
}

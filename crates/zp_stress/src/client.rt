//! A client opens, connects, and is settled.

ghost use Rattle.std.specs.Prelude.{◌≡◌, ◌≤◌, OnOk};
ghost use Rattle.zp_stress.specs.Clients.{open_line, opening, openings, settlings};
ghost use Rattle.zp_stress.specs.Passing.{PassesAll};
ghost use Rattle.zp_world.specs.Applying.{IsOfScript};

use crate::passing::pass;
use std::alloc::Global;
use zk_model::Layout;
use zp_clients::connect_packet;
use zp_world::World;
use zt_text::Happening;
use zx_base::Memory;

/// How many proxies there are, from 1 on.
const PROXIES: u32 = 3;

/// The line by which the connection of this number opens at its proxy.
fn open_line(number: u32) -> Happening
    requires { 1 ≤ number }
    ensures is { result ≡ open_line number }
    ensures offers { IsOfScript result }
{
    let passwd = [(number % 256) as u8; 16];
    Happening::Open {
        connection: number,
        proxy: 1 + number % PROXIES,
        id: i64::from(number),
        passwd,
        layout: Layout::Two,
    }
}

/// A client opens a connection of this number, connects, and is settled.
fn open(alloc: Global, world: &mut World, number: u32) -> Result<(), Memory>
    requires { 1 ≤ number }
    ensures { OnOk result (PassesAll world.old (opening number) world.new) }
{
    pass(world, open_line(number))?;
    let bytes = connect_packet(alloc)?;
    pass(
        world,
        Happening::Arrive {
            connection: number,
            bytes,
        },
    )?;
    pass(world, Happening::Settle { connection: number })?;
    Ok(())
}

/// The clients of the numbers from 1 on open, one after the other.
pub fn open_all(alloc: Global, world: &mut World, connections: u32) -> Result<(), Memory>
    requires { connections ≤ 256 }
    ensures { OnOk result (PassesAll world.old (openings connections 1) world.new) }
{
    for number in 0..connections {
        open(alloc, world, number + 1)?;
    }
    Ok(())
}

/// Each connection is settled, in the order of the numbers.
pub fn settle_all(world: &mut World, connections: u32) -> Result<(), Memory>
    requires { connections ≤ 256 }
    ensures { OnOk result (PassesAll world.old (settlings connections 1) world.new) }
{
    for number in 0..connections {
        pass(
            world,
            Happening::Settle {
                connection: number + 1,
            },
        )?;
    }
    Ok(())
}

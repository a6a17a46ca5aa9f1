//! A connection or a reaper is settled.

ghost use Rattle.std.specs.Prelude.{◌≡◌, None, OnOk};
ghost use Rattle.std.specs.Option.{option_map};
ghost use Rattle.zp_script.specs.Effects.{Does};
ghost use Rattle.zp_script.specs.Faults.{fault};
ghost use Rattle.zp_script.specs.Happens.{Settles, asks_at, max_settling, settling};
ghost use Rattle.zp_script.specs.Worlds.{conn_at};
ghost use Rattle.zp_step.specs.Stages.{counted_up};
ghost use Rattle.zp_world.specs.Moving.{line_of};
ghost use Rattle.zt_text.specs.declared.script.Happening.TheVariants as line;

use crate::world::World;
use zp_script::Flight;
use zx_base::Memory;

/// What settle does next.
#[derive(Clone, Copy)]
enum Move {
    Execute,
    Deliver,
    Enter,
}

impl World {
    /// What is out is carried out and answered, and the entries that a reply waits for are taken, until nothing is left.
    pub(crate) fn settle(&mut self, connection: u32) -> Result<(), Memory>
        requires { fault self.old (line.Settle connection) ≡ None }
        ensures { OnOk result (Settles (max_settling connection self.old) connection self.old self.new) }
    {
        let bound = self.max_settling(connection);
        for _done in 0..bound {
            let Some(next) = self.settling(connection) else {
                return Ok(());
            };
            self.make(connection, next)?;
        }
        Ok(())
    }

    /// Makes a move, which does what the line of a script for it does.
    fn make(&mut self, connection: u32, next: Move) -> Result<(), Memory>
        requires { fault self.old (line_of connection next) ≡ None }
        ensures { OnOk result (Does self.old (line_of connection next) self.new) }
    {
        match next {
            Move::Execute => self.execute(connection),
            Move::Deliver => self.deliver(connection),
            Move::Enter => self.enter(connection),
        }
    }

    /// The next move. None: nothing is left to do.
    fn settling(&self, connection: u32) -> Option<Move>
        ensures { option_map (line_of connection) result ≡ settling connection self.now }
    {
        let Some(slot) = self.activities.get(connection) else {
            return None;
        };
        if slot.is_closed() {
            return None;
        }
        match slot.flight() {
            Some(Flight::Out(_)) => Some(Move::Execute),
            Some(Flight::Carried(_) | Flight::Denied) => Some(Move::Deliver),
            None => {
                if slot.is_waiting() && self.has_entry(connection) {
                    Some(Move::Enter)
                } else {
                    None
                }
            }
        }
    }

    /// The most moves of a settle.
    fn max_settling(&self, connection: u32) -> u64
        ensures { result ≡ max_settling connection self.now }
    {
        self.max_asks(connection)
            .saturating_mul(3)
            .saturating_add(self.entries.len() as u64)
    }

    /// The most asks that the frames so far can make.
    fn max_asks(&self, connection: u32) -> u64
        ensures { result ≡ counted_up (asks_at (conn_at connection self.now)) }
    {
        match self.activities.get(connection) {
            Some(slot) => slot.max_asks(),
            None => 0,
        }
    }
}

//! Applies the lines of scripts to a world, and says on standard error where a row of the file `rows` differs.
//!
//! A row is LEFT = RIGHT ([`row_files`]). All rows are of one world, in which what the rows above said has happened. The lines of a
//! transcript stand in the form that `replay` writes, with `; ` between two of them and `-` for none.
//!
//! | Left side | Right side |
//! |---|---|
//! | `new` | `done`; the world is a new one from then on |
//! | `apply LINE` | what comes of applying this line of a script: `done`, or `not possible` |
//! | `updates` | the updates so far |
//! | `connections` | the connections so far, in the order in which they opened |
//! | `conversation N` | the lines of the N-th of these, counted from 0 |
#![tactic(auto)]

mod told;

ghost use Rattle.std.specs.Prelude.{◌≡◌, true};
ghost use Rattle.zp_world.specs.Applying.{IsOfScript};

use anyhow::{Result, bail};
use row_files::{Rows, said, status_of, try_file};
use std::alloc::Global;
use std::process::ExitCode;
use zp_world::{ApplyFault, World};
use zt_text::{Happening, read_line};
use zx_base::Memory;

/// The rows of the file.
#[derive(Drop)]
struct Played {
    world: World,
}

impl Rows for Played {
    fn found(&mut self, alloc: Global, left: &str) -> Result<Option<String>, Memory> {
        if let Some(line) = left.strip_prefix("apply ") {
            return self.applied(alloc, line);
        }
        if let Some(number) = left.strip_prefix("conversation ") {
            return told::conversation(alloc, &self.world, number);
        }
        match left {
            "new" => {
                self.world = World::new(alloc)?;
                said(alloc, "done")
            }
            "updates" => told::updates(alloc, &self.world),
            "connections" => told::connections(alloc, &self.world),
            _ => Ok(None),
        }
    }
}

impl Played {
    /// What becomes of a line of a script; `None` where it cannot be read.
    fn applied(&mut self, alloc: Global, line: &str) -> Result<Option<String>, Memory> {
        let Some(happening) = read_line(alloc, line.as_bytes())? else {
            return Ok(None);
        };
        if !is_of_script(&happening) {
            return Ok(None);
        }
        match self.world.apply(happening) {
            Ok(()) => said(alloc, "done"),
            Err(ApplyFault::NotPossible { .. }) => said(alloc, "not possible"),
            Err(ApplyFault::Memory) => Err(Memory),
        }
    }
}

/// Whether the session that is offered or reaped has a number from 1 on.
fn is_of_script(happening: &Happening) -> bool
    ensures { result ≡ true → IsOfScript happening.now }
{
    match happening {
        Happening::Open { id, .. } => *id >= 1,
        Happening::Reap { id, .. } => *id >= 1,
        _ => true,
    }
}

fn main(rt: HostRuntime) -> Result<ExitCode> {
    let Ok(world) = World::new(rt.alloc()) else {
        bail!("out of memory");
    };
    let mut played = Played { world };
    let failed = try_file(&rt, "rows", &mut played)?;
    Ok(status_of(failed))
}

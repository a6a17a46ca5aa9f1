//! A line of the schedule is applied where it is possible.

ghost use Rattle.std.specs.Prelude.{◌≡◌, IfOk};
ghost use Rattle.zp_script.specs.Faults.{fault};
ghost use Rattle.zp_stress.specs.Passing.{Passes};
ghost use Rattle.zp_world.specs.Applying.{IsOfScript};

use zp_world::{ApplyFault, World};
use zt_text::{Happening, Why};
use zx_base::Memory;

/// Applies a line, unless it is not possible: then the first of its tests that fails is given, and the line is passed over.
#[tactic(auto, using(crate::proofs::Joining::passes_happens, crate::proofs::Joining::passes_over))]
pub fn pass(world: &mut World, line: Happening) -> Result<Option<Why>, Memory>
    requires { IsOfScript line }
    ensures why { IfOk result (λ why. why ≡ fault world.old line) }
    ensures passes { IfOk result (λ why. Passes world.old line world.new) }
{
    match world.apply(line) {
        Ok(()) => Ok(None),
        Err(ApplyFault::NotPossible { why }) => Ok(Some(why)),
        Err(ApplyFault::Memory) => Err(Memory),
    }
}

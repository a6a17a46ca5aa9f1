//! What holds of a script's lines by the tests that they must pass. Each function does nothing, and its contract is the law:
//! only what a contract names is proved.

ghost use Rattle.std.specs.Prelude.{◌≡◌, ℕ, ℤ, List, None};
ghost use Rattle.zk_model.specs.declared.layout.Layout.{Layout};
ghost use Rattle.zt_text.specs.declared.script.Happening.TheVariants as line;
ghost use Rattle.zp_script.specs.Faults.{fault};
ghost use Rattle.zp_script.specs.Worlds.{World, conn_at};

/// A connection or a reaper begins only under a number that was never used.
pub fn numbers_are_used_once()
    ensures open { (w : World) (c p : ℕ) (id : ℤ) (passwd : List ℕ) (layout : Layout) → fault w (line.Open c p id passwd layout) ≡ None → conn_at c w ≡ None }
    ensures reap { (w : World) (c p : ℕ) (id : ℤ) → fault w (line.Reap c p id) ≡ None → conn_at c w ≡ None }
{}

/// A proxy can restart at any time, even when none of its connections and reapers is open.
pub fn restarts_are_always_possible()
    ensures { (w : World) (p : ℕ) → fault w (line.Restart p) ≡ None }
{}

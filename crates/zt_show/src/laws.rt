//! What is true of every stream. This function does nothing: each clause is a law of the definitions, and only what a
//! contract names is proved.

ghost use Rattle.std.specs.Prelude.{◌≡◌, ℕ, List};
ghost use Rattle.zt_show.specs.Shown.{Shown, IsShown};

/// Of each stream exactly one text is shown.
pub fn one_text()
    ensures some { (stream : List ℕ) → (shown : Shown) × IsShown stream shown }
    ensures only { (stream : List ℕ) (shown other : Shown) → IsShown stream shown → IsShown stream other → shown ≡ other }
{}

//! What the definitions amount to. Each function does nothing, and its contract is the law: only what a contract names is
//! proved.

ghost use Rattle.std.specs.Prelude.{◌≡◌, ℕ, ℤ, Bool, false, List, [], ◌∷◌, ◌++◌, Some, Contains};
ghost use Rattle.ev_types.specs.declared.answer.Kv.{Kv};
ghost use Rattle.zn_layout.specs.Keys.{session_front};
ghost use Rattle.zs_reaper.specs.Listing.{AreListed, IsLastOpen, IsOpen, Lives, lapsed_of, next_from};

/// A session has lapsed, by two lists of keys, exactly where it is among the open ones and not among the living.
#[tactic(auto, using(crate::proofs::Lapsing::lapsed_is_open, crate::proofs::Lapsing::lapsed_lives_not, crate::proofs::Lapsing::open_is_lapsed))]
pub fn who_has_lapsed()
    ensures opened { (opened alive : List Kv) (n : ℤ) → Contains (lapsed_of opened alive) n → IsOpen opened n }
    ensures dead { (opened alive : List Kv) (n : ℤ) → Contains (lapsed_of opened alive) n → Lives alive n → ⊥ }
    ensures all { (opened alive : List Kv) (n : ℤ) → IsOpen opened n → (Lives alive n → ⊥) → Contains (lapsed_of opened alive) n }
{}

/// Where of all open sessions the first are listed, and of those that live among all of them as many, none that lives is shown as
/// lapsed: so that both lists are cut short at the same number shows no session that lives.
pub fn no_living_session_is_shown()
    ensures { (opened alive : List Kv) (most : ℕ) (all : List ℤ) (lives : ℤ → Bool) (n : ℤ)
        → AreListed opened alive most all lives → Contains (lapsed_of opened alive) n → lives n ≡ false }
{}

/// A list begins right after the last key of the one before it: no key stands between a key and that key with a byte 0 at its end.
pub fn a_list_begins_after_the_last_key()
    ensures { (opened : List Kv) (last : Kv) (from : List ℕ)
        → IsLastOpen opened last → next_from opened ≡ Some from → session_front ++ from ≡ last.key ++ 0 ∷ [] }
{}

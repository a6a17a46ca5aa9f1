//! The laws of reaps. Each function does nothing, and its contract is the law: only what a contract names is proved.

ghost use Rattle.std.specs.Prelude.{ℤ, pos, ◌≤ℤ◌};
ghost use Rattle.zk_service.specs.States.{State, IsSound};
ghost use Rattle.zn_view.specs.Seen.{View};
ghost use Rattle.zn_view.specs.Views.{IsOf};
ghost use Rattle.zs_reap.specs.Steps.{AreFewOwned};

/// On a view of a sound state, no list of a session's nodes has more than a session may own: none is damaged for its length.
pub fn a_sound_session_has_few_nodes()
    ensures { (id : ℤ) (v : View) (s : State) → pos 1 ≤ℤ id → IsSound s → IsOf v s → AreFewOwned id v }
{}

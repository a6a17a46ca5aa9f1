//! Where no number is beyond its field. Each function does nothing, and its contract is the law: only what a contract names
//! is proved.

ghost use Rattle.std.specs.Prelude.{◌≤◌, ℕ, ℤ, List};
ghost use Rattle.std.specs.List.{AllByRecursion};
ghost use Rattle.zk_model.specs.declared.request.Part.{Part};
ghost use Rattle.zk_model.specs.Limits.{max_frame};
ghost use Rattle.zk_model.specs.Multi.{data_len};
ghost use Rattle.zk_model.specs.Znodes.{Tree};
ghost use Rattle.zk_service.specs.States.{State, IsSound};
ghost use Rattle.zk_machine.specs.Faults.{IsWhole, IsWithin, StaysWithin};

/// The numbers of a sound state's tree are within their fields.
pub fn sound_trees_fit()
    ensures fit { (s : State) → IsSound s → IsWithin s.tree }
    ensures whole { (s : State) → IsSound s → IsWhole s.tree }
{}

/// From a whole tree, the numbers stay within their fields at each part of a transaction, whoever asks for it, where the data of
/// each part are no longer than a frame.
pub fn parts_fit()
    ensures { (t : Tree) (parts : List Part) → IsWhole t → AllByRecursion (λ p. data_len p ≤ max_frame) parts → (limit : ℕ) (session zxid : ℤ) (time : ℕ) → StaysWithin t limit session parts zxid time }
{}

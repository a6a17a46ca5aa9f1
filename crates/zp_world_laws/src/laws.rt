//! The laws of worlds. Each function does nothing, and its contract is the law: only what a contract names is proved.

ghost use Rattle.std.specs.Prelude.{ℕ, ℤ, List};
ghost use Rattle.zk_model.specs.declared.layout.Layout.{Layout};
ghost use Rattle.zt_text.specs.declared.script.Happening.TheVariants as line;
ghost use Rattle.zp_world_laws.specs.Keeping.{EveryRunGives, FirstHasEntries, FirstIsAccounted, FirstIsWhole, IsAttachedIn, Keeps, KeepsAccounts, KeepsEntries, KeepsIf, MayEnter, WholeGives};
ghost use Rattle.zp_world_laws.specs.Settled.{SettledIsIdle};

/// The world before anything happened is whole.
pub fn the_first_world_is_whole()
    ensures { FirstIsWhole }
{}

/// The updates of a whole world are one history of the service, in which each request is carried out at most once and those of
/// a connection in order. What a connection was sent after its welcome is a walk of that history from the attachment on: no
/// reply is older than its frame, nor than one that was sent before it.
pub fn a_whole_world_is_one_history()
    ensures { WholeGives }
{}

/// A world stays whole while time passes, other users of the store put keys that are not the service's, and leases lapse.
pub fn the_store_changes_by_itself()
    ensures tick { (n : ℕ) → Keeps (line.Tick n) }
    ensures foreign { (k v : List ℕ) → Keeps (line.Foreign k v) }
    ensures lapse { (id : ℤ) → Keeps (line.Lapse id) }
{}

/// A world stays whole while what was asked is carried out, at any time, even after its asker has ended: it is an update that the
/// service could make then, or it changes no key.
pub fn asks_are_carried_out()
    ensures exec { (c : ℕ) → Keeps (line.Exec c) }
    ensures stray { (k : ℕ) → Keeps (line.Stray k) }
{}

/// Each update that is carried out has its entry, which tells its zxid, its number and what watches see of it.
pub fn updates_have_entries()
    ensures first { FirstHasEntries }
    ensures exec { (c : ℕ) → KeepsEntries (line.Exec c) }
    ensures stray { (k : ℕ) → KeepsEntries (line.Stray k) }
{}

/// A world stays whole while a connection with a session takes the answer to its ask, or, where the entries are the updates, the
/// entry after its cursor.
pub fn attached_connections_go_on()
    ensures answer { (c : ℕ) → KeepsIf (λ w. IsAttachedIn w c) (line.Answer c) }
    ensures entry { (c : ℕ) → KeepsIf (λ w. MayEnter w c) (line.Entry c) }
{}

/// A world stays whole while connections and reapers end, whatever they have out: by a failure of their ask, by a lag, with the
/// client's stream, or with their proxy.
pub fn connections_end()
    ensures cut { (c : ℕ) → Keeps (line.Cut c) }
    ensures refuse { (c : ℕ) → Keeps (line.Refuse c) }
    ensures lag { (c : ℕ) → Keeps (line.Lag c) }
    ensures end { (c : ℕ) → Keeps (line.End c) }
    ensures restart { (p : ℕ) → Keeps (line.Restart p) }
{}

/// A world stays whole while a connection opens, or a reaper begins and looks at its session, under a number that was never used.
pub fn connections_open()
    ensures open { (c p : ℕ) (id : ℤ) (passwd : List ℕ) (layout : Layout) → Keeps (line.Open c p id passwd layout) }
    ensures reap { (c p : ℕ) (id : ℤ) → Keeps (line.Reap c p id) }
{}

/// All is accounted for in the first world, and after each line of a script, settle too: the world is whole, each connection is
/// known in whatever stage, and each reaper, and each update has its entry. The premises: each connection offers a number that
/// sessions have and a password of 16 bytes, and none has had 2^64 - 1 frames.
pub fn every_line_is_accounted_for()
    ensures first { FirstIsAccounted }
    ensures happens { KeepsAccounts }
{}

/// Where settle has nothing to do for a connection, the connection waits for its client alone, with no frame left to answer, or
/// it has ended: no reply waits for an entry that nothing brings.
pub fn settled_connections_are_idle()
    ensures { SettledIsIdle }
{}

/// Every run of a script, whichever connections, frames, lapses, cuts, restarts and orders of delivery it has, is one history of
/// the service, in which the time of a request's update is the script's clock between its frame and itself. Each connection was
/// sent the answer to its connect first, then, after a welcome, a walk of that history that is fresh and in turn, and nothing
/// after its close. The premises are those of `every_line_is_accounted_for`.
pub fn every_run_is_one_history()
    ensures { EveryRunGives }
{}

//! Views that are kept for the next request of their path: what an update leaves of a view, and which views are small enough.

ghost use Rattle.std.specs.Prelude.{[], ◌≡◌, ◌↔◌, ◌+◌, ◌<◌, nat_le, sum_by, All, IfOk, IfSome, IsTrue, MatchOption, OnOk, Some, None, option_copied};
ghost use Rattle.ev_types.specs.Store.{put_over as put_over_of};
ghost use Rattle.zn_layout.specs.Keys.{HeadKey, key_bytes};
ghost use Rattle.zn_view.specs.Keeping.{AreLeft, IsActKept, IsAfter, IsLeftBeside, act_seen, guard_seen, guarded_seen, max_kept_view, put_seen, seen_as, seen_size, trimmed as trimmed_of};
ghost use Rattle.zn_view.specs.Laying.{placed};
ghost use Rattle.zn_view.specs.Seen.{IsCountNumber, IsFound, IsSeen, found_of, seen, seen_in};

use crate::guards::is_head;
use crate::kind::is_record;
use crate::lookup::found_among;
use crate::numbers::is_count;
use crate::snapshot::{SeenKey, copy_kv};
use crate::view::{View, lay_in, viewed_at};
use ev_types::{Act, Guard, Kv};
use std::alloc::Global;
use zn_layout::head_key;
use zx_base::{Bytes, Memory, Seq};

/// The most bytes that the keys and values of a kept view have together.
const MAX_KEPT: usize = 65_536;

/// A key with what was found under it, both copied.
fn seen_copy(alloc: Global, key: &[u8], found: Option<&Kv>) -> Result<SeenKey, Memory>
    ensures { IfOk result (λ x. x ≡ seen_as key.now (option_copied found.entry)) }
{
    let found = match found {
        Some(kv) => Some(copy_kv(alloc, kv)?),
        None => None,
    };
    Ok(SeenKey {
        key: Bytes::copy_of(alloc, key)?,
        found,
    })
}

/// Lays a guarded key as the view saw it. A key that it did not look up is left out.
fn lay_guarded(keys: &mut Vec<SeenKey>, view: &View, guard: &Guard) -> Result<(), Memory>
    requires { All IsSeen keys.old.items }
    ensures is { OnOk result (keys.new.items ≡ guard_seen view.now keys.old.items guard.now) }
    ensures kept { All IsSeen keys.new.items }
{
    match found_among(view.keys(), guard.key.as_slice()) {
        Some(found) => lay_in(
            keys,
            seen_copy(view.allocator(), guard.key.as_slice(), found)?,
        ),
        None => Ok(()),
    }
}

/// The guarded keys as the view saw them, each once.
fn guarded(view: &View, guards: &[Guard]) -> Result<Vec<SeenKey>, Memory>
    ensures is { IfOk result (λ keys. keys.items ≡ guarded_seen view.now guards.now) }
    ensures kept { IfOk result (λ keys. All IsSeen keys.items) }
{
    let mut keys = Vec::new(view.allocator());
    for guard in guards {
        lay_guarded(&mut keys, view, guard)?;
    }
    Ok(keys)
}

/// A key after a put at a revision, over what it had.
fn put_over(
    alloc: Global,
    revision: i64,
    key: &[u8],
    value: &[u8],
    lease: i64,
    old: Option<&Kv>,
) -> Result<Kv, Memory>
    requires { IfSome (option_copied old) (λ kv. IsCountNumber kv.version) }
    ensures { IfOk result (λ kv. kv ≡ put_over_of revision key.now value.now lease (option_copied old.entry)) }
{
    let (create_revision, version) = match old {
        Some(kv) => (kv.create_revision, kv.version + 1),
        None => (revision, 1),
    };
    Ok(Kv {
        key: Bytes::copy_of(alloc, key)?,
        value: Bytes::copy_of(alloc, value)?,
        create_revision,
        mod_revision: revision,
        version,
        lease,
    })
}

/// Whether a view may hold this: a record of the key's kind, with a mod_revision and a version from 0 to 2^62 - 1.
fn is_found(alloc: Global, kv: &Kv) -> Result<bool, Memory>
    ensures { IfOk result (λ b. IsTrue b ↔ IsFound kv.now.key kv.now) }
{
    if !is_count(kv.mod_revision) {
        return Ok(false);
    }
    if !is_count(kv.version) {
        return Ok(false);
    }
    is_record(alloc, kv)
}

/// What is known of a key: `None` where it was not laid, and where it was absent.
fn known<'a>(keys: &'a [SeenKey], key: &[u8]) -> Option<&'a Kv>
    requires { All IsSeen keys.now }
    ensures is { option_copied result ≡ found_of (seen_in key.now keys.now) }
    ensures counts { IfSome (option_copied result) (λ kv. IsCountNumber kv.version) }
{
    match found_among(keys, key) {
        Some(found) => found,
        None => None,
    }
}

/// Lays what a put leaves. `false` where no view may hold that.
fn lay_put(
    keys: &mut Vec<SeenKey>,
    alloc: Global,
    revision: i64,
    key: &Bytes,
    value: &Bytes,
    lease: i64,
) -> Result<bool, Memory>
    requires { All IsSeen keys.old.items }
    ensures told { IfOk result (λ b. IsTrue b ↔ IsSeen (put_seen revision keys.old.items key.now value.now lease)) }
    ensures laid { IfOk result (λ b. IsTrue b → keys.new.items ≡ placed (put_seen revision keys.old.items key.now value.now lease) keys.old.items) }
    ensures kept { All IsSeen keys.new.items }
{
    let old = known(keys.as_slice(), key.as_slice());
    let kv = put_over(
        alloc,
        revision,
        key.as_slice(),
        value.as_slice(),
        lease,
        old,
    )?;
    if !is_found(alloc, &kv)? {
        return Ok(false);
    }
    let key = Bytes::copy_of(alloc, key.as_slice())?;
    let found = Some(kv);
    lay_in(keys, SeenKey { key, found })?;
    Ok(true)
}

/// Lays what an operation leaves. `false` where no view may hold that.
fn lay_act(keys: &mut Vec<SeenKey>, alloc: Global, revision: i64, act: &Act) -> Result<bool, Memory>
    requires { All IsSeen keys.old.items }
    ensures told { IfOk result (λ b. IsTrue b ↔ IsActKept revision keys.old.items act.now) }
    ensures laid { IfOk result (λ b. IsTrue b → keys.new.items ≡ act_seen revision keys.old.items act.now) }
    ensures kept { All IsSeen keys.new.items }
{
    match act {
        Act::Put { key, value, lease } => lay_put(keys, alloc, revision, key, value, *lease),
        Act::Delete { key } => {
            let key = Bytes::copy_of(alloc, key.as_slice())?;
            lay_in(keys, SeenKey { key, found: None })?;
            Ok(true)
        }
        Act::Range(_) => Ok(true),
    }
}

/// What the operations leave, one after the other: `None` where one of them leaves what no view may hold.
fn lay_acts(
    keys: Vec<SeenKey>,
    alloc: Global,
    revision: i64,
    acts: &[Act],
) -> Result<Option<Seq<SeenKey>>, Memory>
    requires { All IsSeen keys.items }
    ensures left { IfOk result (λ o. AreLeft revision keys.items acts.now o) }
    ensures kept { IfOk result (λ o. IfSome o (All IsSeen)) }
{
    let mut keys = keys;
    for act in acts {
        if !lay_act(&mut keys, alloc, revision, act)? {
            return Ok(None);
        }
    }
    Ok(Some(Seq::from_vec(keys)))
}

/// Whether this is the head, and a view may hold it.
fn is_head_kept(alloc: Global, head: &Kv) -> Result<bool, Memory>
    ensures { IfOk result (λ b. IsTrue b ↔ IsSeen (seen_as (key_bytes HeadKey) (Some head.now))) }
{
    if !is_head(&head.key) {
        return Ok(false);
    }
    is_found(alloc, head)
}

/// The head, as a key that was seen.
fn head_seen(alloc: Global, head: &Kv) -> Result<SeenKey, Memory>
    ensures { IfOk result (λ x. x ≡ seen_as (key_bytes HeadKey) (Some head.now)) }
{
    let key = head_key(alloc)?;
    let found = Some(copy_kv(alloc, head)?);
    Ok(SeenKey { key, found })
}

/// Lays the head over the keys, and makes a view of them: `None` where no view may hold the head.
fn with_head(
    keys: Seq<SeenKey>,
    alloc: Global,
    revision: i64,
    head: &Kv,
) -> Result<Option<View>, Memory>
    requires revision { IsCountNumber revision }
    requires kept { All IsSeen keys }
    ensures { IfOk result (λ v. IsLeftBeside revision head.now (Some keys) v) }
{
    if !is_head_kept(alloc, head)? {
        return Ok(None);
    }
    let seen = head_seen(alloc, head)?;
    let mut keys = keys.into_vec();
    lay_in(&mut keys, seen)?;
    Ok(Some(viewed_at(alloc, revision, keys)))
}

/// How many bytes are left of these once a key and its value take theirs: `None` where they are too few.
fn left_after(room: usize, seen: &SeenKey) -> Option<usize>
    ensures { MatchOption result (room < seen_size seen.now) (λ less. less + seen_size seen.now ≡ room) }
{
    let room = room.checked_sub(seen.key.len())?;
    match &seen.found {
        Some(kv) => room.checked_sub(kv.value.len()),
        None => Some(room),
    }
}

/// Whether the keys, absent ones too, and the values have at most `MAX_KEPT` bytes. It stops at the first key past them.
fn is_small(keys: &[SeenKey]) -> bool
    ensures { result ≡ nat_le (sum_by seen_size keys.now) max_kept_view }
{
    let mut room = MAX_KEPT;
    for seen in keys {
        match left_after(room, seen) {
            Some(less) => room = less,
            None => return false,
        }
    }
    true
}

/// A copy of each key and value.
fn copies(alloc: Global, keys: &[SeenKey]) -> Result<Vec<SeenKey>, Memory>
    ensures { IfOk result (λ c. c.items ≡ keys.now) }
{
    let mut copies = Vec::new(alloc);
    for seen in keys {
        copies.push(seen_copy(alloc, seen.key.as_slice(), seen.found.as_ref())?)?;
    }
    Ok(copies)
}

impl View {
    /// The view as it is kept for later requests: a copy without lists of children. `None` where its keys, absent ones too, and
    /// values have more than 65,536 bytes together; nothing is copied then.
    pub fn trimmed(&self) -> Result<Option<View>, Memory>
        ensures { IfOk result (λ o. o ≡ trimmed_of self.now) }
    {
        let keys = self.keys();
        if !is_small(keys) {
            return Ok(None);
        }
        let alloc = self.allocator();
        let copies = copies(alloc, keys)?;
        Ok(Some(viewed_at(alloc, self.counted_revision(), copies)))
    }

    /// A copy without lists of children, which is an exact one of a kept view.
    pub fn copy(&self) -> Result<View, Memory>
        ensures { IfOk result (λ v. v ≡ record self.now { lists = [] }) }
    {
        let alloc = self.allocator();
        let copies = copies(alloc, self.keys())?;
        Ok(viewed_at(alloc, self.counted_revision(), copies))
    }

    /// The view that an update leaves of this one, without reading anything: the guarded keys as they were seen, then what the
    /// update's operations leave of them at this revision, and the head as the update's answer shows it. It has no lists of
    /// children. `revision` is from 0 to 2^62 - 1.
    ///
    /// `None` where no view may hold the head, or what a put leaves: a value that is no record of its key's kind, or a version
    /// past 2^62 - 1, as a put leaves it of a key at that version. A guarded key that this view did not look up is left out, and
    /// a put of a key that is not guarded counts as its first; where that is right, the result agrees with the keys that the
    /// update leaves ([`what_an_update_leaves`](crate::what_an_update_leaves)). It copies each key twice, and each value once.
    pub fn after(
        &self,
        guards: &[Guard],
        writes: &[Act],
        revision: i64,
        head: &Kv,
    ) -> Result<Option<View>, Memory>
        requires { IsCountNumber revision }
        ensures { IfOk result (IsAfter self.now guards.now writes.now revision head.now) }
    {
        let alloc = self.allocator();
        match lay_acts(guarded(self, guards)?, alloc, revision, writes)? {
            Some(keys) => with_head(keys, alloc, revision, head),
            None => Ok(None),
        }
    }
}

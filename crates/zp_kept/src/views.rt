//! The kept views, in the order of their use.

ghost use Rattle.std.specs.Prelude.{◌≡◌, [], Some, None, take, IfOk, IfSome, OnErr, OnOk, option_copied};
ghost use Rattle.std.specs.Map.{lookup};
ghost use Rattle.zx_base.specs.Maps.{same};
ghost use Rattle.zn_view.specs.Seen.{View as AnyView};
ghost use Rattle.zp_step.specs.Kept.{put_first, used_first};
ghost use Rattle.zp_kept.specs.Entries.{HasNoLists, IsCacheOfViews};

use crate::key::PathKey;
use lru::LruCache;
use std::alloc::Global;
use std::marker::Model;
use std::num::NonZeroUsize;
use zn_view::View;
use zx_base::Memory;

/// How many views are kept.
const MAX_VIEWS: usize = 16;

/// The views that are kept of at most 16 paths, the most recently used first. None has lists of children.
#[derive(Drop)]
pub struct KeptViews {
    /// `None` before the first view is kept.
    cache: Option<LruCache<PathKey, View>>,
    alloc: Global,
}

impl Model for KeptViews {
    ghost use Rattle.std.specs.Prelude.{List, IfSome};
    ghost use Rattle.zx_base.specs.Maps.{Bytes};
    ghost use Rattle.zn_view.specs.declared.snapshot.Snapshot.{Snapshot};
    ghost use Rattle.zp_kept.specs.Entries.{IsCacheOfViews, entries_of};

    ghost Value = { List (Bytes × Snapshot) };

    ghost view = { λ k. entries_of k.cache };

    ghost invariant = { λ k. IfSome k.cache IsCacheOfViews };
}

fn new_cache(alloc: Global) -> Result<LruCache<PathKey, View>, Memory>
    ensures entries { IfOk result (λ c. c.entries ≡ []) }
    ensures views { IfOk result IsCacheOfViews }
{
    match NonZeroUsize::new(MAX_VIEWS) {
        Some(cap) => match LruCache::new(alloc, cap) {
            Ok(cache) => Ok(cache),
            Err(_) => Err(Memory),
        },
        None => Err(Memory),
    }
}

/// The view of a path.
fn find_in<'a>(cache: &'a LruCache<PathKey, View>, path: &PathKey) -> Option<&'a View>
    requires { IsCacheOfViews cache.now }
    ensures is { option_copied result ≡ lookup (same path.now) cache.now.entries }
    ensures plain { IfSome (option_copied result) HasNoLists }
{
    cache.peek(path)
}

/// Puts a view first, in place of the one that was kept of its path.
fn put(cache: &mut LruCache<PathKey, View>, path: PathKey, view: View) -> Result<(), Memory>
    requires plain { HasNoLists view }
    requires views { IsCacheOfViews cache.old }
    ensures put { OnOk result (cache.new.entries ≡ put_first path (Some view) cache.old.entries) }
    ensures views { IsCacheOfViews cache.new }
{
    let _few = cache.len();
    match cache.put(path, view) {
        Ok(_) => Ok(()),
        Err(_) => Err(Memory),
    }
}

/// Takes out the view that was kept of a path.
fn take_out(cache: &mut LruCache<PathKey, View>, path: &PathKey)
    requires { IsCacheOfViews cache.old }
    ensures out { cache.new.entries ≡ put_first path.now None cache.old.entries }
    ensures views { IsCacheOfViews cache.new }
{
    let _old = cache.pop(path);
}

/// Makes the view of a path the most recently used one.
fn promote(cache: &mut LruCache<PathKey, View>, path: &PathKey)
    requires { IsCacheOfViews cache.old }
    ensures first { (v : AnyView) → lookup (same path.now) cache.old.entries ≡ Some v → cache.new.entries ≡ used_first path.now v cache.old.entries }
    ensures none { lookup (same path.now) cache.old.entries ≡ None → cache.new.entries ≡ cache.old.entries }
    ensures views { IsCacheOfViews cache.new }
{
    let _there = cache.promote(path);
}

impl KeptViews {
    /// No view is kept. This takes no memory.
    pub fn new(alloc: Global) -> KeptViews
        ensures { result ≡ [] }
    {
        KeptViews { cache: None, alloc }
    }

    /// The view that is kept of a path, which has no lists of children. The order of use stays; see
    /// [`use_first`](KeptViews::use_first).
    pub fn find(&self, path: &PathKey) -> Option<&View>
        ensures is { option_copied result ≡ lookup (same path.now) self.now }
        ensures plain { IfSome (option_copied result) (λ v. v.lists ≡ []) }
    {
        match &self.cache {
            Some(cache) => find_in(cache, path),
            None => None,
        }
    }

    /// Takes the cache out, or makes one.
    fn cache(&mut self) -> Result<LruCache<PathKey, View>, Memory>
        ensures entries { IfOk result (λ c. c.entries ≡ self.old) }
        ensures views { IfOk result IsCacheOfViews }
        ensures emptied { self.new ≡ [] }
    {
        match self.cache.take() {
            Some(cache) => Ok(cache),
            None => new_cache(self.alloc),
        }
    }

    /// Keeps a view of a path, one without lists of children ([`View::trimmed`]): it comes first, in place of the one that was
    /// kept of the path, and of 17 views the last goes. After `Memory` no view is kept.
    pub fn keep(&mut self, path: PathKey, view: View) -> Result<(), Memory>
        requires { view.lists ≡ [] }
        ensures ok { OnOk result (self.new ≡ put_first path (Some view) self.old) }
        ensures err { OnErr result (self.new ≡ []) }
    {
        let mut cache = self.cache()?;
        put(&mut cache, path, view)?;
        self.cache = Some(cache);
        Ok(())
    }

    /// Keeps no view of a path.
    pub fn forget(&mut self, path: &PathKey)
        ensures { self.new ≡ put_first path.now None self.old }
    {
        if let Some(cache) = &mut self.cache {
            take_out(cache, path);
        }
    }

    /// Makes the view that is kept of a path the most recently used one. Where none is kept, nothing changes.
    pub fn use_first(&mut self, path: &PathKey)
        ensures first { (v : AnyView) → lookup (same path.now) self.old ≡ Some v → self.new ≡ used_first path.now v self.old }
        ensures none { lookup (same path.now) self.old ≡ None → self.new ≡ self.old }
    {
        if let Some(cache) = &mut self.cache {
            promote(cache, path);
        }
    }
}

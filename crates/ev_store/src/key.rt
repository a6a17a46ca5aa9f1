//! One key as the changes leave it.

ghost use Rattle.std.specs.Prelude.{◌≡◌, ◌<◌, ◌+◌, ◌^◌, length, IfOk, Option};
ghost use Rattle.std.specs.Option.{option_copied};
ghost use Rattle.ev_types.specs.Ranges.{shown};
ghost use Rattle.ev_store.specs.Folds.{kv_after_put, key_after_change, key_after_changes, key_after_revisions};
ghost use Rattle.ev_store.specs.Versions.{kept_kv};

use crate::change::{Change, Content};
use crate::shared::Shared;
use crate::versions::Kept;
use ev_types::Kv;
use std::alloc::Global;
use std::marker::Model;
use zx_base::{Bytes, Memory, Seq};

/// A key that is there. Its bytes are borrowed from the change that put it or from the index.
#[derive(Drop)]
pub struct Found<'a> {
    key: &'a Bytes,
    value: &'a Shared,
    create_revision: i64,
    mod_revision: i64,
    version: i64,
    lease: i64,
}

impl<'a> Model for Found<'a> {
    ghost use Rattle.ev_types.specs.declared.answer.Kv.{Kv};

    ghost Value = { Kv };

    ghost view = { λ f. record {
      key = f.key.now;
      value = f.value.now;
      create_revision = f.create_revision;
      mod_revision = f.mod_revision;
      version = f.version;
      lease = f.lease;
    } };
}

impl<'a> Found<'a> {
    /// A key with what was kept of it.
    pub fn of(key: &'a Bytes, kept: &'a Kept) -> Found<'a>
        ensures { result ≡ kept_kv key.now kept.now }
    {
        Found {
            key,
            value: &kept.value,
            create_revision: kept.create_revision,
            mod_revision: kept.mod_revision,
            version: kept.version,
            lease: kept.lease,
        }
    }

    /// What is to be kept of it, without the key. The value gets one more owner, and is not copied.
    pub fn kept(&self) -> Result<Kept, Memory>
        ensures { IfOk result (λ k. kept_kv self.now.key k ≡ self.now) }
    {
        Ok(Kept {
            value: self.value.another()?,
            create_revision: self.create_revision,
            mod_revision: self.mod_revision,
            version: self.version,
            lease: self.lease,
        })
    }

    /// The revision of its last put.
    pub fn mod_revision(&self) -> i64
        ensures { result ≡ self.now.mod_revision }
    {
        self.mod_revision
    }

    /// The number of its lease, 0 for none.
    pub fn lease(&self) -> i64
        ensures { result ≡ self.now.lease }
    {
        self.lease
    }

    /// A copy to hand out, without the value where only keys are asked for.
    pub fn to_kv(&self, alloc: Global, keys_only: bool) -> Result<Kv, Memory>
        ensures { IfOk result (λ kv. kv ≡ shown keys_only self.now) }
    {
        let value = if keys_only {
            &[]
        } else {
            self.value.as_slice()
        };
        Ok(Kv {
            key: Bytes::copy_of(alloc, self.key.as_slice())?,
            value: Bytes::copy_of(alloc, value)?,
            create_revision: self.create_revision,
            mod_revision: self.mod_revision,
            version: self.version,
            lease: self.lease,
        })
    }
}

/// A key after a put at this revision over what it had.
pub fn after_put<'a>(
    revision: i64,
    before: Option<&Found<'_>>,
    key: &'a Bytes,
    content: &'a Content,
) -> Found<'a>
    ensures { result ≡ kv_after_put revision key.now content.now.value content.now.lease (option_copied before.entry) }
{
    let (create_revision, version) = match before {
        Some(old) => (old.create_revision, old.version.saturating_add(1)),
        None => (revision, 1),
    };
    Found {
        key,
        value: &content.value,
        create_revision,
        mod_revision: revision,
        version,
        lease: content.lease,
    }
}

/// What a key has after one change at this revision.
pub fn after_change<'a>(
    revision: i64,
    before: Option<Found<'a>>,
    change: &'a Change,
    key: &[u8],
) -> Option<Found<'a>>
    ensures { result ≡ key_after_change revision key.now before.entry change.now }
{
    match &change.content {
        Some(content) => {
            if change.key.is(key) {
                Some(after_put(revision, before.as_ref(), &change.key, content))
            } else {
                before
            }
        }
        None => { if change.key.is(key) { None } else { before } }
    }
}

/// What a key has after the changes of one revision.
pub fn after_changes<'a>(
    revision: i64,
    before: Option<Found<'a>>,
    changes: &'a [Change],
    key: &[u8],
) -> Option<Found<'a>>
    ensures { result ≡ key_after_changes revision key.now before.entry changes.now }
{
    let mut found = before;
    for change in changes {
        found = after_change(revision, found, change, key);
    }
    found
}

/// What a key has after these revisions. `before` is the number of revisions before them.
pub fn after_revisions<'a>(
    before: usize,
    found: Option<Found<'a>>,
    revisions: &'a [Seq<Change>],
    key: &[u8],
) -> Option<Found<'a>>
    requires { before + length revisions.now < 2 ^ 62 }
    ensures { result ≡ key_after_revisions (before + 1) key.now found.entry revisions.now }
{
    let mut found = found;
    for (index, changes) in revisions.iter().enumerate() {
        found = after_changes((before + index) as i64 + 1, found, changes.as_slice(), key);
    }
    found
}

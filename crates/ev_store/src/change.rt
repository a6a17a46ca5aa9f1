//! What a revision did to one key.

use crate::shared::Shared;
use std::marker::Model;
use zx_base::Bytes;

/// What a put wrote.
#[derive(Drop)]
pub struct Content {
    pub value: Shared,
    /// The lease that the key then has, or 0.
    pub lease: i64,
}

/// One key with what was put; `content` is `None` where the key was removed.
#[derive(Drop)]
pub struct Change {
    pub key: Bytes,
    pub content: Option<Content>,
}

impl Model for Change {
    ghost use Rattle.ev_types.specs.Store as etcd;
    ghost use Rattle.ev_store.specs.Changes.{change_of};

    ghost Value = { etcd.Change };

    ghost view = { λ c. change_of c.key c.content };
}

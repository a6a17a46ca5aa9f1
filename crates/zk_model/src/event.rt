//! Kinds of notices (`Watcher.Event.EventType`).

/// A node was created (`NodeCreated`).
pub const CREATED: u8 = 1;

/// A node was deleted (`NodeDeleted`).
pub const DELETED: u8 = 2;

/// The data of a node changed (`NodeDataChanged`).
pub const CHANGED: u8 = 3;

/// The children of a node changed (`NodeChildrenChanged`).
pub const CHILDREN: u8 = 4;

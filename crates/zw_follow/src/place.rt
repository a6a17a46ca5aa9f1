//! Where the updates stand.

/// At this revision of etcd this is the number of the last update, which is the version that it gave the head. Everything up to the
/// revision was told.
#[derive(Clone, Copy, PartialEq, Eq)]
pub struct Place {
    pub number: i64,
    pub revision: i64,
}

//! How the tree of znodes is kept under etcd's keys.
//!
//! A node has two keys, one for its data and one for the counts of its children: a create below it changes the counts and
//! leaves the data. So the data key's mod_revision is the node's mzxid, and the counts key's its pzxid. An ephemeral node of a
//! session of layout 2 has no counts, which would say nothing: it has no children. The head holds the last update: its
//! mod_revision is the zxid, its version the number of updates. A session has a key for the nodes that it owns, and one for its
//! life, which is attached to its lease. `specs/Keys`, `specs/Records` and `specs/StandsFor` say all of it, and `specs/Counts`
//! how counts change; the layout is this project's own.
//!
//! Keys and records are written and read exactly: a value is read as a record where it is that record's value, and
//! otherwise as damaged. Each key and each value is allocated once, at its full size.
//!
//! `specs/Changes` and `specs/Fits` say when changes of keys are those of one step of the service, and `specs/Commits` what
//! an update's transaction does to a store. The laws on them are the functions of `laws`: what keys stand for after such
//! changes ([`stands_after`]), and after the first transaction ([`begin_stands`]). What one key says of a state is in
//! `proofs/Lookups`.
#![tactic(auto)]

mod act;
mod begin;
mod counts;
mod entry;
mod fault;
mod key;
mod laws;
mod layout;
mod list;
mod node;
mod read;
mod record;
mod test;
mod write;
mod writer;

pub use act::{delete_counts, delete_node, get_head, get_key, put, put_counts, put_head, put_node};
pub use begin::begin_ask;
pub use counts::{cversion, fewer, one_more};
pub use entry::Entry;
pub use fault::RecordFault;
pub use key::{
    COUNTS_FRONT, DATA_FRONT, FRONT, HEAD_NAME, LEASE_FRONT, SESSION_FRONT, counts_key, data_key,
    head_key, lease_key, session_key,
};
pub use laws::{
    begin_again_changes_nothing, begin_stands, children_listed, counts_value_is_injective,
    fits_append, fits_same, foreign_stands, guards_tell_what_was_seen, head_value_is_injective,
    key_bytes_is_injective, lapse_stands, lease_value_is_injective, node_value_is_injective,
    reading_stands, session_value_is_injective, stands_after, update_commits, update_is_allowed,
    update_is_sendable, update_looks_again,
};
pub use layout::has_counts;
pub use list::{head_in, is_before, read_head, read_session, session_in, valid_path};
pub use node::czxid;
pub use read::{counts_in, lease_in, read_counts, read_lease, read_node};
pub use record::{CountRec, FIRST_COUNTS, HeadRec, LeaseRec, NodeRec, SessionRec};
pub use test::{
    NodeNumbers, is_counts_record, is_lease_record, is_node_record, node_content, node_czxid,
    node_numbers,
};
pub use write::{write_counts, write_head, write_lease, write_node, write_session};

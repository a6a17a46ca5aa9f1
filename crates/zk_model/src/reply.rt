//! Replies and notifications (zookeeper.jute, `ReplyHeader`, `WatcherEvent`). Codes are those of
//! `KeeperException.Code`.

use crate::node::Stat;
use zx_base::{Bytes, Seq, Text};

/// What a part of a multi came to.
#[derive(Drop)]
pub enum PartResult {
    /// The path of the new node, with its number where it is a sequence node.
    Created(Text),
    Deleted,
    /// The node's Stat after its data was set.
    Set(Stat),
    Checked,
    /// The code of a part of a refused multi: 0 for a part before the one that was refused, that one's own code, and -2
    /// (RuntimeInconsistency) for a part after it.
    Code(i32),
}

/// What comes after the header of a reply that is no error.
#[derive(Drop)]
pub enum Body {
    /// To a delete, a check, a ping, an auth, a setWatches, a close, a checkWatches and a removeWatches.
    Empty,
    /// To a create, the path of the new node; to a sync, the path that it named.
    Path(Text),
    /// To an exists and a setData.
    Stat(Stat),
    /// To a getData.
    Content(Bytes, Stat),
    /// To a getChildren: the last names of the children's paths.
    Names(Seq<Text>),
    /// To a getChildren2.
    NamesStat(Seq<Text>, Stat),
    /// To a getACL: the one access list that there is, with the node's Stat.
    OpenAcl(Stat),
    /// To a multi, in the order of its parts.
    Parts(Seq<PartResult>),
    /// To a create2, the path of the new node and its Stat.
    PathStat(Text, Stat),
}

/// The answer to a request, without the xid and the zxid of its header.
#[derive(Drop)]
pub enum Reply {
    /// A code other than 0, and no body.
    Refused(i32),
    /// The code 0, and a body that suits the request.
    Good(Body),
}

/// A notification of a watch.
#[derive(Drop)]
pub struct Notice {
    /// The type of the event (`Watcher.Event.EventType`): 1 created, 2 deleted, 3 data changed, 4 children changed.
    pub kind: i32,
    pub path: Text,
}

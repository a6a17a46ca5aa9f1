//! What a setWatches found at each of its paths.

use zx_base::Text;

/// The list of a setWatches that a path stands in (zookeeper.jute, `SetWatches`).
#[derive(Clone, Copy)]
pub enum WatchList {
    /// Data watches on nodes that were there.
    Datas,
    /// Data watches on nodes that were not there.
    Exists,
    Children,
}

/// A path of a setWatches, and what was found there.
#[derive(Drop)]
pub struct SeenPath {
    pub path: Text,
    pub list: WatchList,
    /// The zxid of the node's last change: its pzxid for `Children`, otherwise its mzxid. `None` where no node is there.
    pub at: Option<i64>,
}

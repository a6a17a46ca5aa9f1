//! How a session keeps its nodes in etcd.

ghost use Rattle.std.specs.Prelude.{◌≡◌};
ghost use Rattle.zk_model.specs.Limits.{max_owned};

/// The layout that a session was opened in, which it keeps to its end.
#[derive(Clone, Copy, Debug)]
pub enum Layout {
    /// Each node has a record of its children's counts, an ephemeral one too.
    One,
    /// An ephemeral node, which has no children, has no such record, so that a session may own more of them.
    Two,
}

impl Layout {
    /// The most ephemeral nodes that a session of this layout owns.
    pub fn max_owned(self) -> usize
        ensures { result ≡ max_owned self }
    {
        match self {
            Layout::One => 40,
            Layout::Two => 60,
        }
    }
}

//! What a connection has ready for a new session.

use zk_model::Layout;

/// What a new session is made with.
#[derive(Clone, Copy)]
pub struct Fresh {
    /// The session's number, and that of its lease; at least 1.
    pub id: i64,
    pub passwd: [u8; 16],
    pub layout: Layout,
}

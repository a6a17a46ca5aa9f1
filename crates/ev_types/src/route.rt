//! Where messages are posted.

/// The path that a message is posted to: `/v3/kv/txn`, `/v3/kv/range`, `/v3/lease/grant`, `/v3/lease/keepalive`, `/v3/watch`
/// (etcd API reference, "gRPC gateway").
#[derive(Clone, Copy, Debug, PartialEq, Eq)]
pub enum Route {
    Txn,
    Range,
    Grant,
    Alive,
    Watch,
}

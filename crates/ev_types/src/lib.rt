//! What etcd is asked, and what it answers: the messages of the v3 API as far as this workspace uses them (etcd API
//! reference, "KV", "Lease"). `specs/Store.antt` says what an etcd does with an ask.
//!
//! Numbers of etcd (revisions, versions, counts, limits, lease numbers, seconds) are `i64`, as in its protobuf messages. None is
//! meant to be negative; the types do not forbid it.
#![tactic(auto)]

mod answer;
mod ask;
mod laws;
mod name;
mod route;

pub use answer::{ActAns, Answer, Kv, RangeAns};
pub use ask::{Act, Ask, Guard, RangeReq, TxnReq};
pub use laws::{
    foreign_puts_one_key, keys_were_put, lapse_takes_its_keys, one_key_is_found,
    reads_change_nothing,
};
pub use name::Name;
pub use route::Route;

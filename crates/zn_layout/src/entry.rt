//! One update, as it is told to those who watch.

use zk_model::Trigger;
use zx_base::Seq;

/// An update of the service: its number, its zxid, and the changes by which watches fire.
#[derive(Drop)]
pub struct Entry {
    /// 1 for the store's first update, then one more for each.
    pub number: i64,
    /// The revision of its transaction.
    pub zxid: i64,
    /// In the order in which they fire.
    pub triggers: Seq<Trigger>,
}

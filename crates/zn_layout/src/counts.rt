//! How the counts of a node change with its children (Programmer's Guide, "ZooKeeper Stat Structure"), and what a Stat shows of them.

ghost use Rattle.std.specs.Prelude.{◌≡◌, ◌<ℤ◌, ◌≤ℤ◌, ◌-◌, ◌^◌, pos, nat_abs, false};
ghost use Rattle.std.specs.Ordering.{int_eq};
ghost use Rattle.zk_model.specs.Limits.{max_creates};
ghost use Rattle.zk_model.specs.Znodes.{cversion as cversion_of};
ghost use Rattle.zn_layout.specs.Counts.{fewer as fewer_of, one_more as one_more_of};
ghost use Rattle.zn_layout.specs.Records.{IsCountRec};

use crate::record::CountRec;

/// The counts with one child more, which was created.
pub fn one_more(counts: &CountRec) -> CountRec
    requires creates { counts.now.creates <ℤ pos (2 ^ 31 - 1) }
    requires children { counts.now.children <ℤ pos (2 ^ 31 - 1) }
    ensures is { result ≡ one_more_of counts.now }
    ensures within { IsCountRec counts.now → int_eq counts.now.creates max_creates ≡ false → IsCountRec result }
{
    CountRec {
        creates: counts.creates + 1,
        children: counts.children + 1,
    }
}

/// The counts with so many children fewer, at least 0.
pub fn fewer(counts: &CountRec, gone: usize) -> CountRec
    requires least { pos 0 ≤ℤ counts.now.children }
    ensures is { result ≡ fewer_of counts.now gone }
    ensures within { IsCountRec counts.now → IsCountRec result }
{
    CountRec {
        creates: counts.creates,
        children: (counts.children as usize).saturating_sub(gone) as i32,
    }
}

/// How often the children changed, the Stat's `cversion`: each create and each delete of a child counts.
pub fn cversion(counts: &CountRec) -> i32
    requires { IsCountRec counts.now }
    ensures { result ≡ cversion_of counts.now.creates (nat_abs counts.now.children) }
{
    counts.creates * 2 - counts.children
}

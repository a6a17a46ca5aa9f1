//! What the records of a node show.

ghost use Rattle.std.specs.Prelude.{IsTrue, ◌≡◌, ◌≤◌, ℕ, pos, Bool, IfOk, MatchOption, Option, option_copied, option_map};
ghost use Rattle.zk_model.specs.Paths.{is_path};
ghost use Rattle.zk_model.specs.Limits.{max_frame};
ghost use Rattle.zk_model.specs.Znodes.{stat};
ghost use Rattle.zk_model.specs.declared.node.Node.{Node as Znode};
ghost use Rattle.zn_layout.specs.Records.{IsCountRec};
ghost use Rattle.zn_layout.specs.StandsFor.{stored_of, DataMeans, CountsMean};
ghost use Rattle.zn_reads.specs.SeenPaths.{made_at};
ghost use Rattle.zn_reads.specs.Found.{stat_by, AreCountsBy, AreNoCounts, IsStatAt, IsContentAt, IsVersionAt};

use crate::found::found;
use crate::keys::{counts_key_of, data_key_of};
use ev_types::Kv;
use std::alloc::Global;
use zk_model::{Path, Stat};
use zn_layout::{
    CountRec, FIRST_COUNTS, NodeNumbers, RecordFault, counts_in, cversion, czxid, node_content,
    node_czxid, node_numbers, read_node,
};
use zn_view::View;
use zx_base::{Bytes, Memory};

fn data_length(length: usize) -> i32
    requires { length ≤ max_frame }
    ensures { result ≡ pos length }
{
    length as i32
}

/// The stat of a node by its two records, with so many bytes of data.
fn stat_by(
    numbers: NodeNumbers,
    content_length: usize,
    revision: i64,
    counts: CountRec,
    counts_revision: i64,
) -> Stat
    requires counts { IsCountRec counts }
    requires content { content_length ≤ max_frame }
    ensures { result ≡ stat_by numbers content_length revision counts counts_revision }
{
    Stat {
        czxid: czxid(numbers.czxid, revision),
        mzxid: revision,
        ctime: numbers.ctime,
        mtime: numbers.mtime,
        version: numbers.version,
        cversion: cversion(&counts),
        aversion: 0,
        ephemeral_owner: numbers.owner,
        data_length: data_length(content_length),
        num_children: counts.children,
        pzxid: counts_revision,
    }
}

/// The counts of a node and the revision of their last change. A node without a record of them has had no children since its create.
fn counts_by(numbers: &NodeNumbers, revision: i64, counts: Option<&Kv>) -> Option<(CountRec, i64)>
    ensures { MatchOption result (AreNoCounts (option_copied counts.entry)) (λ x. AreCountsBy numbers.now revision (option_copied counts.entry) x.0 x.1) }
{
    match counts {
        Some(counts) => Some((counts_in(counts.value.as_slice())?, counts.mod_revision)),
        None => Some((FIRST_COUNTS, czxid(numbers.czxid, revision))),
    }
}

fn stat_of_records(own: &Kv, counts: Option<&Kv>) -> Option<Stat>
    ensures { (n : Znode) (k : ℕ) (b : Bool) → DataMeans (Option.Some n) (stored_of (Option.Some own.now)) → CountsMean (Option.Some n) k b (stored_of (option_copied counts.entry)) → Option.Some (stat n k) ≡ result }
{
    let numbers = node_numbers(own.value.as_slice())?;
    let content = node_content(own.value.as_slice());
    let revision = own.mod_revision;
    let (counted, changed) = counts_by(&numbers, revision, counts)?;
    Some(stat_by(numbers, content.len(), revision, counted, changed))
}

fn stat_of_found(own: Option<&Kv>, counts: Option<&Kv>) -> Option<Stat>
    ensures { (n : Option Znode) (k : ℕ) (b : Bool) → DataMeans n (stored_of (option_copied own.entry)) → CountsMean n k b (stored_of (option_copied counts.entry)) → option_map (λ (x : Znode). stat x k) n ≡ result }
{
    stat_of_records(own?, counts)
}

/// The Stat of the node at a path; `None` where there is no node.
pub(crate) fn stat_at(alloc: Global, path: &Path, view: &View) -> Result<Option<Stat>, Memory>
    requires { IsTrue (is_path path.now) }
    ensures { IfOk result (IsStatAt view.now path.now) }
{
    let own = data_key_of(alloc, path)?;
    let counts = counts_key_of(alloc, path)?;
    Ok(stat_of_found(found(view, own.as_slice()), found(view, counts.as_slice())))
}

fn content_of(alloc: Global, own: &Kv) -> Result<Bytes, Memory>
    ensures { IfOk result (λ content. (n : Znode) → DataMeans (Option.Some n) (stored_of (Option.Some own.now)) → content ≡ n.content) }
{
    match read_node(alloc, own.key.as_slice(), own.value.as_slice()) {
        Ok(record) => Ok(record.content),
        Err(RecordFault::Memory) => Err(Memory),
        Err(RecordFault::Damaged { .. }) => Ok(Bytes::new(alloc)),
    }
}

/// A copy of the data of the node at a path, empty where there is no node.
pub(crate) fn content_at(alloc: Global, path: &Path, view: &View) -> Result<Bytes, Memory>
    requires { IsTrue (is_path path.now) }
    ensures { IfOk result (IsContentAt view.now path.now) }
{
    let key = data_key_of(alloc, path)?;
    match found(view, key.as_slice()) {
        Some(own) => content_of(alloc, own),
        None => Ok(Bytes::new(alloc)),
    }
}

/// The zxid of a node's create, by its record.
pub(crate) fn made_at(own: &Kv) -> Option<i64>
    ensures { result ≡ made_at own.now }
{
    let stored = node_czxid(own.value.as_slice())?;
    Some(czxid(stored, own.mod_revision))
}

fn version_of(own: &Kv) -> Option<i32>
    ensures { (n : Znode) → DataMeans (Option.Some n) (stored_of (Option.Some own.now)) → Option.Some n.version ≡ result }
{
    Some(node_numbers(own.value.as_slice())?.version)
}

fn version_of_found(own: Option<&Kv>) -> Option<i32>
    ensures { (n : Option Znode) → DataMeans n (stored_of (option_copied own.entry)) → option_map (λ (x : Znode). x.version) n ≡ result }
{
    version_of(own?)
}

/// The version of the data of the node at a path; `None` where there is no node.
pub(crate) fn version_at(alloc: Global, path: &Path, view: &View) -> Result<Option<i32>, Memory>
    requires { IsTrue (is_path path.now) }
    ensures { IfOk result (IsVersionAt view.now path.now) }
{
    let key = data_key_of(alloc, path)?;
    Ok(version_of_found(found(view, key.as_slice())))
}

//! What a view saw. Each look-up goes over the keys that were seen, of which there are few, and copies no data.

ghost use Rattle.std.specs.Prelude.{◌≡◌, ◌≤◌, ◌≤ℤ◌, pos, nat_abs, length, Some, None, option_map, option_copied, IfOk, IfSome, MatchOption};
ghost use Rattle.ev_types.specs.declared.answer.Kv.{Kv as KeyValue};
ghost use Rattle.zk_model.specs.Limits.{max_path};
ghost use Rattle.zn_layout.specs.Keys.{HeadKey, DataKey, CountsKey, SessionKey, LeaseKey, key_bytes};
ghost use Rattle.zn_layout.specs.Reading.{IsSomeValue};
ghost use Rattle.zn_layout.specs.Records.{node_value, counts_value, lease_value, session_value, IsNodeRec, IsCountRec, IsLeaseRec, IsSessionRec};
ghost use Rattle.zn_view.specs.Lookups.{HasNodesIn, HasSeen, sees, IsNodeIn, IsCountsIn, IsNodesIn, IsLifeIn};
ghost use Rattle.zn_view.specs.Seen.{seen, seen_in, listed, listed_in, found_of, head_of, head_zxid, head_number, IsFound};

use crate::snapshot::{SeenChildren, SeenKey};
use crate::view::View;
use ev_types::Kv;
use std::alloc::Global;
use zn_layout::{
    CountRec, HEAD_NAME, LeaseRec, NodeNumbers, SessionRec, counts_in, counts_key, data_key,
    lease_in, lease_key, node_numbers, session_in, session_key,
};
use zx_base::{Bytes, Memory};

/// What was found under a key: `None` where it was not looked up, `Some(None)` where it was absent.
pub(crate) fn found_among<'a>(keys: &'a [SeenKey], key: &[u8]) -> Option<Option<&'a Kv>>
    ensures { option_map option_copied result ≡ seen_in key.now keys.now }
{
    for seen in keys {
        if seen.key.is(key) {
            return Some(seen.found.as_ref());
        }
    }
    None
}

/// The paths of a node's children: `None` where they were not listed.
fn listed_among<'a>(lists: &'a [SeenChildren], path: &[u8]) -> Option<&'a [Bytes]>
    ensures { MatchOption result (listed_in path.now lists.now ≡ None) (λ ps. listed_in path.now lists.now ≡ Some ps.now) }
{
    for seen in lists {
        if seen.path.bytes() == path {
            return Some(seen.paths.as_slice());
        }
    }
    None
}

/// The head: `None` where it was not looked up or was absent.
#[tactic(auto, unfolding(zn_layout::specs::Keys::key_bytes))]
fn head_among(keys: &[SeenKey]) -> Option<&Kv>
    ensures { option_copied result ≡ found_of (seen_in (key_bytes HeadKey) keys.now) }
{
    match found_among(keys, HEAD_NAME) {
        Some(found) => found,
        None => None,
    }
}

/// The numbers of the node's record that was found.
fn node_in(found: Option<&Kv>) -> Option<(NodeNumbers, &Kv)>
    requires { IfSome (option_copied found) (λ kv. IsSomeValue node_value IsNodeRec kv.value) }
    ensures { MatchOption result (option_copied found.entry ≡ None) (λ x. (option_copied found.entry ≡ Some x.1.now) × IsNodeIn x.1.now x.0) }
{
    let kv = found?;
    let numbers = node_numbers(kv.value.as_slice())?;
    Some((numbers, kv))
}

/// The record of counts that was found.
fn counts_of(found: Option<&Kv>) -> Option<(CountRec, &Kv)>
    requires { IfSome (option_copied found) (λ kv. IsSomeValue counts_value IsCountRec kv.value) }
    ensures { MatchOption result (option_copied found.entry ≡ None) (λ x. (option_copied found.entry ≡ Some x.1.now) × IsCountsIn x.1.now x.0) }
{
    let kv = found?;
    let counts = counts_in(kv.value.as_slice())?;
    Some((counts, kv))
}

/// The record of a session's life that was found.
fn life_in(found: Option<&Kv>) -> Option<(LeaseRec, &Kv)>
    requires { IfSome (option_copied found) (λ kv. IsSomeValue lease_value IsLeaseRec kv.value) }
    ensures { MatchOption result (option_copied found.entry ≡ None) (λ x. (option_copied found.entry ≡ Some x.1.now) × IsLifeIn x.1.now x.0) }
{
    let kv = found?;
    let life = lease_in(kv.value.as_slice())?;
    Some((life, kv))
}

/// The record of a session's nodes that was found.
fn nodes_in(alloc: Global, found: Option<&Kv>) -> Result<Option<SessionRec>, Memory>
    requires { IfSome (option_copied found) (λ kv. IsSomeValue session_value IsSessionRec kv.value) }
    ensures { IfOk result (λ o. MatchOption o (option_copied found.entry ≡ None) (λ r. (kv : KeyValue) × (option_copied found.entry ≡ Some kv) × IsNodesIn kv r)) }
{
    match found {
        Some(kv) => session_in(alloc, kv.value.as_slice()),
        None => Ok(None),
    }
}

impl View {
    /// What was found under a key: `None` where it was not looked up, `Some(None)` where it was absent.
    pub fn found(&self, key: &[u8]) -> Option<Option<&Kv>>
        ensures { option_map option_copied result ≡ seen self.now key.now }
    {
        found_among(self.keys(), key)
    }

    /// The paths of a node's children, in the order in which they were found: `None` where they were not listed.
    pub fn listed(&self, path: &[u8]) -> Option<&[Bytes]>
        ensures { MatchOption result (listed self.now path.now ≡ None) (λ ps. listed self.now path.now ≡ Some ps.now) }
    {
        listed_among(self.lists(), path)
    }

    /// The zxid of the last update: the mod_revision of the head, 0 where the view saw none.
    pub fn zxid(&self) -> i64
        ensures { result ≡ head_zxid (head_of self.now) }
    {
        match head_among(self.keys()) {
            Some(head) => head.mod_revision,
            None => 0,
        }
    }

    /// The number of the last update: the version of the head, 0 where the view saw none.
    pub fn number(&self) -> i64
        ensures { result ≡ head_number (head_of self.now) }
    {
        match head_among(self.keys()) {
            Some(head) => head.version,
            None => 0,
        }
    }

    /// A node's numbers, and its data key with the value, in which the data follow them: `None` where the node is not there.
    /// The data key was looked up.
    pub fn node_at(&self, path: &[u8]) -> Result<Option<(NodeNumbers, &Kv)>, Memory>
        requires short { length path.now ≤ max_path }
        requires seen { HasSeen self.now (DataKey path.now) }
        ensures { IfOk result (λ o. MatchOption o (sees self.now (DataKey path.now) ≡ Some None) (λ x. (sees self.now (DataKey path.now) ≡ Some (Some x.1.now)) × IsNodeIn x.1.now x.0)) }
    {
        let key = data_key(self.allocator(), path)?;
        Ok(node_in(self.found_there(key.as_slice())))
    }

    /// The counts of a node's children, and their key with its value: `None` where there is no record of them, as where the node
    /// is not there. The counts key was looked up.
    pub fn counts_at(&self, path: &[u8]) -> Result<Option<(CountRec, &Kv)>, Memory>
        requires short { length path.now ≤ max_path }
        requires seen { HasSeen self.now (CountsKey path.now) }
        ensures { IfOk result (λ o. MatchOption o (sees self.now (CountsKey path.now) ≡ Some None) (λ x. (sees self.now (CountsKey path.now) ≡ Some (Some x.1.now)) × IsCountsIn x.1.now x.0)) }
    {
        let key = counts_key(self.allocator(), path)?;
        Ok(counts_of(self.found_there(key.as_slice())))
    }

    /// The record of the nodes that a session owns: `None` where the session is not open. Their key was looked up.
    pub fn nodes_of(&self, session: i64) -> Result<Option<SessionRec>, Memory>
        requires least { pos 1 ≤ℤ session }
        requires seen { HasSeen self.now (SessionKey (nat_abs session)) }
        ensures { IfOk result (λ o. MatchOption o (sees self.now (SessionKey (nat_abs session)) ≡ Some None) (λ r. HasNodesIn self.now (SessionKey (nat_abs session)) r)) }
    {
        let key = session_key(self.allocator(), session)?;
        nodes_in(self.allocator(), self.found_there(key.as_slice()))
    }

    /// The record of a session's life, and its key with the value: `None` where the session is closed or has lapsed. The key was
    /// looked up.
    pub fn life_of(&self, session: i64) -> Result<Option<(LeaseRec, &Kv)>, Memory>
        requires least { pos 1 ≤ℤ session }
        requires seen { HasSeen self.now (LeaseKey (nat_abs session)) }
        ensures { IfOk result (λ o. MatchOption o (sees self.now (LeaseKey (nat_abs session)) ≡ Some None) (λ x. (sees self.now (LeaseKey (nat_abs session)) ≡ Some (Some x.1.now)) × IsLifeIn x.1.now x.0)) }
    {
        let key = lease_key(self.allocator(), session)?;
        Ok(life_in(self.found_there(key.as_slice())))
    }

    /// What was found under a key that was looked up.
    fn found_there(&self, key: &[u8]) -> Option<&Kv>
        requires { seen self.now key.now ≡ None → ⊥ }
        ensures is { seen self.now key.now ≡ Some (option_copied result) }
        ensures kept { IfSome (option_copied result) (IsFound key.now) }
    {
        let keys = self.keys();
        match found_among(keys, key) {
            Some(found) => found,
            None => None,
        }
    }
}

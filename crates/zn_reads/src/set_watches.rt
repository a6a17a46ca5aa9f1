//! SetWatches (zookeeper.jute, `SetWatches`): its reply, and what was found at its paths.

ghost use Rattle.std.specs.Prelude.{IsTrue, ◌≡◌, ◌++◌, None, IfOk, OnOk, map, option_copied, option_map};
ghost use Rattle.zk_model.specs.Paths.{is_path};
ghost use Rattle.zk_model.specs.Watches.{set_watches};
ghost use Rattle.zk_model.specs.declared.reply.Body.TheVariants as bodies;
ghost use Rattle.zk_model.specs.declared.reply.Reply.TheVariants as replies;
ghost use Rattle.zn_reads.specs.Places.{place_of};
ghost use Rattle.zn_reads.specs.SeenPaths.{at_by, children_changed, counts_at, place_at, seen_path, seen_paths, IsSetBy};
ghost use Rattle.zw_watch.specs.declared.seen_path.WatchList.TheVariants as lists;
ghost use Rattle.zn_view.specs.declared.plan.Decision.TheVariants as decisions;
ghost use Rattle.zn_view.specs.Indexing.{found_under, IsIndex};
ghost use Rattle.zn_view.specs.Seen.{View as AnyView, found_of, seen};

use crate::keys::{counts_key_of, data_key_of};
use crate::stat::made_at;
use ev_types::Kv;
use std::alloc::Global;
use zk_model::{Body, Path, Reply};
use zn_layout::valid_path;
use zn_view::{Decision, Index, View, found_by};
use zw_watch::{SeenPath, WatchList};
use zx_base::{Bytes, Memory, Seq, Text};

pub(crate) fn set_watches() -> Decision
    ensures { result ≡ decisions.Answered (replies.Good bodies.Empty) None }
{
    Decision::Answered {
        reply: Reply::Good(Body::Empty),
        arm: None,
    }
}

/// The keys that tell when what a watch waits for changed last: the node's record, and for its children that of its counts.
#[derive(Drop)]
struct Place {
    data: Bytes,
    counts: Option<Bytes>,
}

fn counts_at(alloc: Global, list: WatchList, path: &Path) -> Result<Option<Bytes>, Memory>
    requires { IsTrue (is_path path.now) }
    ensures { IfOk result (λ k. k ≡ counts_at list path.now) }
{
    match list {
        WatchList::Datas | WatchList::Exists => Ok(None),
        WatchList::Children => Ok(Some(counts_key_of(alloc, path)?)),
    }
}

/// These keys; `None` where the path is not valid.
fn place_at(alloc: Global, list: WatchList, text: &[u8]) -> Result<Option<Place>, Memory>
    ensures { IfOk result (λ x. option_map place_of x ≡ place_at list text.now) }
{
    match valid_path(alloc, text)? {
        Some(path) => Ok(Some(Place {
            data: data_key_of(alloc, &path)?,
            counts: counts_at(alloc, list, &path)?,
        })),
        None => Ok(None),
    }
}

fn places_at(alloc: Global, list: WatchList, texts: &[Text]) -> Result<Vec<Option<Place>>, Memory>
    ensures { IfOk result (λ xs. map (option_map place_of) xs.items ≡ map (place_at list) texts.now) }
{
    let mut places = Vec::new(alloc);
    for text in texts {
        places.push(place_at(alloc, list, text.as_slice())?)?;
    }
    Ok(places)
}

fn found_under<'a>(index: &Index<'a>, key: &'a [u8]) -> Option<&'a Kv>
    ensures { (v : AnyView) → IsIndex v (found_under index.now) → option_copied result ≡ found_of (seen v key.now) }
{
    match found_by(index, key) {
        Some(found) => found,
        None => None,
    }
}

/// When a node's children changed last: with the last put of its counts, or, where there is no record of them, with its create.
fn children_changed(own: Option<&Kv>, counts: Option<&Kv>) -> Option<i64>
    ensures { result ≡ children_changed (option_copied own.entry) (option_copied counts.entry) }
{
    match counts {
        Some(counts) => Some(counts.mod_revision),
        None => made_at(own?),
    }
}

/// The revision at which what the watch waits for changed last; `None` where the node is absent, and for a path that is not valid.
fn at<'a>(index: &Index<'a>, place: &'a Option<Place>) -> Option<i64>
    ensures { (v : AnyView) → IsIndex v (found_under index.now) → result ≡ at_by v (option_map place_of place.now) }
{
    let Some(place) = place else {
        return None;
    };
    let data = found_under(index, place.data.as_slice());
    match &place.counts {
        Some(counts) => children_changed(data, found_under(index, counts.as_slice())),
        None => Some(data?.mod_revision),
    }
}

/// Adds what was found at each path of a list, by its key.
fn push_seen<'a>(
    alloc: Global,
    list: WatchList,
    texts: &[Text],
    places: &'a [Option<Place>],
    index: &Index<'a>,
    seen: &mut Vec<SeenPath>,
) -> Result<(), Memory>
    requires { map (option_map place_of) places.now ≡ map (place_at list) texts.now }
    ensures { (v : AnyView) → IsIndex v (found_under index.now) → OnOk result (seen.new.items ≡ seen.old.items ++ map (seen_path v list) texts.now) }
{
    for (i, place) in places.iter().enumerate() {
        seen.push(SeenPath {
            path: Seq::copy_of(alloc, texts[i].as_slice())?,
            list,
            at: at(index, place),
        })?;
    }
    Ok(())
}

/// The places of the paths of the three lists; `None` for a path that is not valid.
#[derive(Drop)]
struct Places {
    datas: Vec<Option<Place>>,
    exists: Vec<Option<Place>>,
    children: Vec<Option<Place>>,
}

/// What was found at the paths of the three lists, one list after the other.
fn seen_by<'a>(
    alloc: Global,
    datas: &[Text],
    exists: &[Text],
    children: &[Text],
    places: &'a Places,
    view: &'a View,
) -> Result<Vec<SeenPath>, Memory>
    requires datas { map (option_map place_of) places.now.datas.items ≡ map (place_at lists.Datas) datas.now }
    requires exists { map (option_map place_of) places.now.exists.items ≡ map (place_at lists.Exists) exists.now }
    requires children { map (option_map place_of) places.now.children.items ≡ map (place_at lists.Children) children.now }
    ensures { IfOk result (λ xs. xs.items ≡ seen_paths view.now datas.now exists.now children.now) }
{
    let index = view.index()?;
    let mut seen = Vec::new(alloc);
    push_seen(
        alloc,
        WatchList::Datas,
        datas,
        &places.datas,
        &index,
        &mut seen,
    )?;
    push_seen(
        alloc,
        WatchList::Exists,
        exists,
        &places.exists,
        &index,
        &mut seen,
    )?;
    push_seen(
        alloc,
        WatchList::Children,
        children,
        &places.children,
        &index,
        &mut seen,
    )?;
    Ok(seen)
}

fn seen_in_turn(
    alloc: Global,
    datas: &[Text],
    exists: &[Text],
    children: &[Text],
    view: &View,
) -> Result<Vec<SeenPath>, Memory>
    ensures { IfOk result (λ xs. xs.items ≡ seen_paths view.now datas.now exists.now children.now) }
{
    let places = Places {
        datas: places_at(alloc, WatchList::Datas, datas)?,
        exists: places_at(alloc, WatchList::Exists, exists)?,
        children: places_at(alloc, WatchList::Children, children)?,
    };
    seen_by(alloc, datas, exists, children, &places, view)
}

/// What was found at each path of a setWatches: first its data paths, then its exist paths, then its child paths. Where the view
/// lacks nothing that the request looks up, telling and arming by this list is what the service does on the tree of each state
/// that the view is of. It takes time in proportion to the number of paths and of the keys that were seen, times the logarithm
/// of the latter.
pub fn seen_paths(
    alloc: Global,
    datas: &[Text],
    exists: &[Text],
    children: &[Text],
    view: &View,
) -> Result<Vec<SeenPath>, Memory>
    ensures list { IfOk result (λ xs. xs.items ≡ seen_paths view.now datas.now exists.now children.now) }
    ensures set { IfOk result (λ xs. IsSetBy view.now datas.now exists.now children.now xs.items) }
{
    seen_in_turn(alloc, datas, exists, children, view)
}

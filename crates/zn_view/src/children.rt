//! The range of keys that a node's children have, and the children's paths in it.

ghost use Rattle.std.specs.Prelude.{◌≡◌, ◌<◌, ◌+◌, ◌++◌, ◌∷◌, [], not, ◌&&◌, drop, IfOk, OnOk, List};
ghost use Rattle.ev_types.specs.declared.answer.Kv.{Kv as KeyValue};
ghost use Rattle.ev_types.specs.Ranges.{comes_before};
ghost use Rattle.zx_base.specs.Maps.{Bytes as ByteList};
ghost use Rattle.zn_layout.specs.Keys.{digit as decimal_digit};
ghost use Rattle.zn_layout.specs.Listing.{base, child_front};
ghost use Rattle.zn_view.specs.Asks.{children_start as first_child, children_until as after_children, paths_in};

use ev_types::Kv;
use std::alloc::Global;
use zk_model::Path;
use zn_layout::DATA_FRONT;
use zx_base::{Bytes, Memory, Seq};

const SLASH: u8 = b'/';

/// The byte that follows the slash in the order of bytes.
const AFTER_SLASH: u8 = b'0';

/// How many bytes a data key has before its path.
const BEFORE_PATH: usize = 9;

/// The start of the range of the data keys of a node's children: of `/a` it is `zk/d/0002/a/`.
#[tactic(auto, unfolding(crate::specs::Asks::children_start))]
pub fn children_start(alloc: Global, path: &Path) -> Result<Bytes, Memory>
    ensures { IfOk result (λ k. k ≡ first_child path.now) }
{
    bound(alloc, path, SLASH)
}

/// The end of the range of the data keys of a node's children, which is not in it: of `/a` it is `zk/d/0002/a0`.
#[tactic(auto, unfolding(crate::specs::Asks::children_until))]
pub fn children_end(alloc: Global, path: &Path) -> Result<Bytes, Memory>
    ensures { IfOk result (λ k. k ≡ after_children path.now) }
{
    bound(alloc, path, AFTER_SLASH)
}

fn bound(alloc: Global, path: &Path, last: u8) -> Result<Bytes, Memory>
    ensures { IfOk result (λ k. k ≡ child_front path.now ++ base path.now ++ last ∷ []) }
{
    let n = u64::from(path.depth()) + 1;
    let digits = [digit(n / 1000), digit(n / 100), digit(n / 10), digit(n)];
    let own = own_bytes(path);
    let mut key = Vec::with_capacity(alloc, BEFORE_PATH + own.len() + 1)?;
    key.extend_from_slice(DATA_FRONT)?;
    key.extend_from_slice(&digits)?;
    key.extend_from_slice(own)?;
    key.push(last)?;
    Ok(Bytes::from_vec(key))
}

/// The path, or nothing for the root.
fn own_bytes(path: &Path) -> &[u8]
    ensures { result.now ≡ base path.now }
{
    let bytes = path.bytes();
    if bytes == b"/".as_slice() {
        &bytes[..0]
    } else {
        bytes
    }
}

/// The last decimal digit of a number.
fn digit(n: u64) -> u8
    ensures { result ≡ decimal_digit n }
{
    b'0' + (n % 10) as u8
}

/// Whether a key is in the range from `start` up to `end`, without `end`.
fn is_between(key: &[u8], start: &[u8], end: &[u8]) -> bool
    ensures { result ≡ (not (comes_before key.now start.now) && comes_before key.now end.now) }
{
    !key.cmp(start).is_lt() && key.cmp(end).is_lt()
}

/// The path of a child in its data key.
fn path_of(key: &[u8]) -> &[u8]
    ensures { result.now ≡ drop BEFORE_PATH key.now }
{
    &key[key.len().min(BEFORE_PATH)..]
}

/// Adds the path in a data key, if the key is in the range.
fn push_child(
    paths: &mut Seq<Bytes>,
    alloc: Global,
    kv: &Kv,
    start: &[u8],
    end: &[u8],
) -> Result<(), Memory>
    ensures { (p : ByteList) → start.now ≡ first_child p → end.now ≡ after_children p → OnOk result ((rest : List KeyValue) → paths.new ++ paths_in p rest ≡ paths.old ++ paths_in p (kv.now ∷ rest)) }
{
    let key = kv.key.as_slice();
    if !is_between(key, start, end) {
        return Ok(());
    }
    paths.push(Bytes::copy_of(alloc, path_of(key))?)?;
    Ok(())
}

/// The paths of a node's children among what was found, in the order in which they were found. Each is copied once.
pub(crate) fn paths_among(alloc: Global, path: &Path, kvs: &[Kv]) -> Result<Seq<Bytes>, Memory>
    ensures { IfOk result (λ paths. paths ≡ paths_in path.now kvs.now) }
{
    let start = children_start(alloc, path)?;
    let end = children_end(alloc, path)?;
    let mut paths = Seq::new(alloc);
    for kv in kvs {
        push_child(&mut paths, alloc, kv, start.as_slice(), end.as_slice())?;
    }
    Ok(paths)
}

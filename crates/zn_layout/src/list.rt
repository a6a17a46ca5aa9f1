//! Reading the records that are lists: the head's triggers, and the nodes of a session.

ghost use Rattle.std.specs.Prelude.{◌≡◌, ◌↔◌, ◌*◌, ◌<◌, ◌≤◌, ℕ, List, ◌∷◌, [], IfOk, MatchOption, MatchResult, IsTrue};
ghost use Rattle.std.specs.Cmp.Lexicographic.{slice_cmp};
ghost use Rattle.std.specs.List.Sorted.{IsStrictlySortedBy};
ghost use Rattle.std.specs.Ordering.{nat_cmp};
ghost use Rattle.ev_types.specs.Ranges.{comes_before};
ghost use Rattle.zk_jute.specs.JuteWriting.{string_bytes};
ghost use Rattle.zn_layout.specs.Records.{layout_byte, session_value, trigger_bytes, IsSessionRec};
ghost use Rattle.zn_layout.specs.Reading.{head_bytes, IsHeadWithin, IsValueOf, IsFault, IsReadAs};
ghost use Rattle.zn_layout.specs.ReadingSteps.{IsValidPath, IsValidTrigger, TakesItem, TakesItems, IsOfKind, IsOfNoLayout, IsPathOf, IsCounted, IsNotCounted};

use crate::fault::{RecordFault, damaged};
use crate::read::{after_first, split_int};
use crate::record::{HeadRec, SessionRec};
use std::alloc::Global;
use std::marker::Model;
use zk_model::{Layout, Path, PathFault, Trigger};
use zx_base::{Memory, Seq};

/// The fewest bytes of a path with its length.
const MIN_STRING: usize = 5;

/// The fewest bytes of a trigger: its kind, and a path with its length.
const MIN_TRIGGER: usize = 6;

/// Reads the value under this key as the head's record. `Damaged` where it is none, with the key and the value.
pub fn read_head(alloc: Global, key: &[u8], value: &[u8]) -> Result<HeadRec, RecordFault>
    ensures { MatchResult result (IsValueOf head_bytes IsHeadWithin value.now) (IsFault head_bytes IsHeadWithin key.now value.now) }
{
    match head_in(alloc, value)? {
        Some(head) => Ok(head),
        None => Err(damaged(alloc, key, value)),
    }
}

/// Reads a value as the head's record. `None` where it is no record within its bounds.
pub fn head_in(alloc: Global, value: &[u8]) -> Result<Option<HeadRec>, Memory>
    ensures { IfOk result (IsReadAs head_bytes IsHeadWithin value.now) }
{
    let Some(numbers) = after_first(value) else {
        return Ok(None);
    };
    let Some((count, rest)) = split_count(numbers) else {
        return Ok(None);
    };
    let mut reader = Reader { rest };
    let Some(triggers) = reader.triggers(alloc, count)? else {
        return Ok(None);
    };
    if reader.is_done() {
        Ok(Some(HeadRec { triggers }))
    } else {
        Ok(None)
    }
}

/// Reads the value under this key as the record of a session's nodes. `Damaged` where it is none, with the key and the value.
pub fn read_session(alloc: Global, key: &[u8], value: &[u8]) -> Result<SessionRec, RecordFault>
    ensures { MatchResult result (IsValueOf session_value IsSessionRec value.now) (IsFault session_value IsSessionRec key.now value.now) }
{
    match session_in(alloc, value)? {
        Some(session) => Ok(session),
        None => Err(damaged(alloc, key, value)),
    }
}

/// Reads a value as the record of a session's nodes. `None` where it is no record within its bounds, as where the paths do
/// not rise.
pub fn session_in(alloc: Global, value: &[u8]) -> Result<Option<SessionRec>, Memory>
    ensures { IfOk result (IsReadAs session_value IsSessionRec value.now) }
{
    let Some((layout, numbers)) = split_layout(value) else {
        return Ok(None);
    };
    let Some((count, rest)) = split_count(numbers) else {
        return Ok(None);
    };
    let mut reader = Reader { rest };
    let Some(paths) = reader.paths(alloc, count)? else {
        return Ok(None);
    };
    if !reader.is_done() {
        return Ok(None);
    }
    if are_rising(paths.as_slice()) {
        Ok(Some(SessionRec { layout, paths }))
    } else {
        Ok(None)
    }
}

/// The layout that the first byte tells, and the rest.
fn split_layout(value: &[u8]) -> Option<(Layout, &[u8])>
    ensures { MatchOption result (IsOfNoLayout value.now) (λ x. value.now ≡ layout_byte x.0 ∷ x.1.now) }
{
    match split_byte(value)? {
        (1, rest) => Some((Layout::One, rest)),
        (2, rest) => Some((Layout::Two, rest)),
        _ => None,
    }
}

/// What is still to be read of a value.
#[derive(Drop)]
struct Reader<'a> {
    rest: &'a [u8],
}

impl<'a> Model for Reader<'a> {
    ghost use Rattle.std.specs.Prelude.{ℕ, List};

    ghost Value = { List ℕ };

    ghost view = { λ r. r.rest.now };
}

impl<'a> Reader<'a> {
    fn is_done(&self) -> bool
        ensures { IsTrue result ↔ (self.now ≡ []) }
    {
        self.rest.is_empty()
    }

    fn triggers(&mut self, alloc: Global, count: usize) -> Result<Option<Seq<Trigger>>, Memory>
        ensures { IfOk result (TakesItems trigger_bytes IsValidTrigger count self.old self.new) }
    {
        let most = room(count, self.rest.len(), MIN_TRIGGER);
        let mut triggers = Vec::with_capacity(alloc, most)?;
        for _ in 0..count {
            match self.trigger(alloc)? {
                Some(trigger) => triggers.push(trigger)?,
                None => return Ok(None),
            }
        }
        Ok(Some(Seq::from_vec(triggers)))
    }

    fn trigger(&mut self, alloc: Global) -> Result<Option<Trigger>, Memory>
        ensures { IfOk result (TakesItem trigger_bytes IsValidTrigger self.old self.new) }
    {
        let Some((kind, rest)) = split_byte(self.rest) else {
            return Ok(None);
        };
        self.rest = rest;
        match self.path(alloc)? {
            Some(path) => Ok(trigger_of(kind, path)),
            None => Ok(None),
        }
    }

    fn paths(&mut self, alloc: Global, count: usize) -> Result<Option<Seq<Path>>, Memory>
        ensures { IfOk result (TakesItems string_bytes IsValidPath count self.old self.new) }
    {
        let most = room(count, self.rest.len(), MIN_STRING);
        let mut paths = Vec::with_capacity(alloc, most)?;
        for _ in 0..count {
            match self.path(alloc)? {
                Some(path) => paths.push(path)?,
                None => return Ok(None),
            }
        }
        Ok(Some(Seq::from_vec(paths)))
    }

    fn path(&mut self, alloc: Global) -> Result<Option<Path>, Memory>
        ensures { IfOk result (TakesItem string_bytes IsValidPath self.old self.new) }
    {
        let Some((length, rest)) = split_count(self.rest) else {
            return Ok(None);
        };
        if rest.len() < length {
            return Ok(None);
        }
        let (text, rest) = rest.split_at(length);
        self.rest = rest;
        valid_path(alloc, text)
    }
}

/// How many of `count` items to make room for: no more than `left` bytes can hold at `least` bytes each.
fn room(count: usize, left: usize, least: usize) -> usize
    requires { 0 < least }
    ensures asked { result ≤ count }
    ensures held { result * least ≤ left }
{
    count.min(left / least)
}

/// Whether the paths rise strictly by their bytes.
fn are_rising(paths: &[Path]) -> bool
    ensures { IsTrue result ↔ IsStrictlySortedBy (slice_cmp nat_cmp) paths.now }
{
    for i in 1..paths.len() {
        if !is_before(&paths[i - 1], &paths[i]) {
            return false;
        }
    }
    true
}

/// Whether a path comes before another one, by their bytes.
pub fn is_before(path: &Path, other: &Path) -> bool
    ensures { result ≡ comes_before path.now other.now }
{
    path.bytes().cmp(other.bytes()).is_lt()
}

/// The first byte, and the rest.
fn split_byte(bytes: &[u8]) -> Option<(u8, &[u8])>
    ensures { MatchOption result (bytes.now ≡ []) (λ x. bytes.now ≡ x.0 ∷ x.1.now) }
{
    match bytes {
        [byte, rest @ ..] => Some((*byte, rest)),
        [] => None,
    }
}

/// A length or a count, which is an int and not negative, and the rest.
fn split_count(bytes: &[u8]) -> Option<(usize, &[u8])>
    ensures { MatchOption result (IsNotCounted bytes.now) (λ x. IsCounted bytes.now x.0 x.1.now) }
{
    if bytes.len() < 4 {
        return None;
    }
    let (number, rest) = split_int(bytes);
    match usize::try_from(number) {
        Ok(count) => Some((count, rest)),
        Err(_) => None,
    }
}

/// The path that a text is; `None` where it is not valid.
pub fn valid_path(alloc: Global, text: &[u8]) -> Result<Option<Path>, Memory>
    ensures { IfOk result (IsPathOf text.now) }
{
    match Path::read(alloc, text, false) {
        Ok(path) => Ok(Some(path)),
        Err(PathFault::Memory) => Err(Memory),
        Err(_) => Ok(None),
    }
}

fn trigger_of(kind: u8, path: Path) -> Option<Trigger>
    ensures { IsOfKind kind path result }
{
    match kind {
        1 => Some(Trigger::Created(path)),
        2 => Some(Trigger::Deleted(path)),
        3 => Some(Trigger::Changed(path)),
        4 => Some(Trigger::Children(path)),
        _ => None,
    }
}

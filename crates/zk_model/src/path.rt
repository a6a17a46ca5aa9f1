//! Paths of znodes (Programmer's Guide, "The ZooKeeper Data Model").

ghost use Rattle.std.specs.Prelude.{◌≡◌, length, ◌-◌, ◌+◌, ◌++◌, drop, take, Some, ◌<◌, IfOk, OnOk, IfErr, IfSome, IsTrue, option_map, not, nat_lt};
ghost use Rattle.std.specs.Str.{chars, IsValidUpTo};
ghost use Rattle.zk_model.specs.Paths.{root, is_path, is_path_char, is_sequence_prefix, sequence_path, fixed_digits, parent, depth, last_name, is_child, names, begins_with_slash, at_last_slash};
ghost use Rattle.zk_model.specs.PathFaults.{tested, is_valid, IsPathOf, max_bytes, ends_with_slash, IsFault, IsFirst, IsRefused, first_of, at, bad_name, bad_char, bad_text, bad_text_from, form_defect, defect_of, name_fault};
ghost use Rattle.zk_model.specs.PathFaults.{first_name};
ghost use Rattle.zk_model.specs.declared.path.PathFault.TheVariants.{NoSlash, EndSlash, BadText, TooLong};

use std::alloc::{AllocError, Global};
use std::marker::Model;
use std::str;
use zx_base::Memory;

/// A valid path, of at most 1,024 bytes. Contracts see its bytes.
#[derive(Drop)]
pub struct Path {
    text: Vec<u8>,
}

impl Model for Path {
    ghost use Rattle.std.specs.Prelude.{ℕ, List, IsTrue};
    ghost use Rattle.zk_model.specs.Paths.{is_path};

    ghost Value = { List ℕ };

    ghost view = { λ p. p.text.items };

    ghost invariant = { λ p. IsTrue (is_path p.text.items) };
}

/// Why a text is no path. Of several faults the earliest in the text is told, and of two that begin at one byte the first
/// of this list.
#[derive(Clone, Copy, PartialEq, Eq)]
pub enum PathFault {
    /// It does not begin with a slash.
    NoSlash,
    /// It ends with a slash, and is not the root.
    EndSlash,
    /// A name is empty.
    EmptyName,
    /// A name is `.` or `..`.
    DotName,
    /// A character that no path may have, or bytes that are not UTF-8.
    BadText,
    /// More than 1,024 bytes, or for a sequential path more than 1,014.
    TooLong,
    /// Memory was refused. Nothing is said of the text.
    Memory,
}

/// The most bytes of a path.
const MOST: usize = 1024;

/// The most bytes of the path of a sequential create, before its ten digits.
const MAX_SEQUENTIAL: usize = 1014;

/// The decimal digits at the end of a sequence node's path.
const SEQUENCE_DIGITS: u32 = 10;

/// A fault, and the index of the byte where it begins.
#[derive(Clone, Copy)]
struct Defect {
    place: usize,
    fault: PathFault,
}

/// The earlier of two; the first where they begin at one place.
fn first_of(a: Option<Defect>, b: Option<Defect>) -> Option<Defect>
    ensures { result ≡ first_of a b }
{
    match (a, b) {
        (None, b) => b,
        (Some(a), Some(b)) if b.place < a.place => Some(b),
        (Some(a), _) => Some(a),
    }
}

fn no_slash(path: &[u8]) -> Option<Defect>
    ensures { result ≡ at (not (begins_with_slash path.now)) 0 NoSlash }
{
    match path {
        [b'/', ..] => None,
        _ => Some(Defect {
            place: 0,
            fault: PathFault::NoSlash,
        }),
    }
}

fn end_slash(path: &[u8]) -> Option<Defect>
    ensures { result ≡ at (ends_with_slash path.now) (length path.now - 1) EndSlash }
{
    match path {
        [_, .., b'/'] => Some(Defect {
            place: path.len() - 1,
            fault: PathFault::EndSlash,
        }),
        _ => None,
    }
}

/// What is wrong with the name that these bytes begin with, which ends at their first slash or with them.
#[tactic(auto, unfolding(crate::specs::PathFaults::first_name))]
fn name_fault(rest: &[u8]) -> Option<PathFault>
    ensures { result ≡ name_fault (first_name rest.now) }
{
    match rest {
        [] | [b'/', ..] => Some(PathFault::EmptyName),
        [b'.'] | [b'.', b'/', ..] | [b'.', b'.'] | [b'.', b'.', b'/', ..] => Some(
            PathFault::DotName,
        ),
        _ => None,
    }
}

/// The first name that is empty, `.` or `..`.
#[tactic(auto, unfolding(crate::specs::PathFaults::bad_name))]
fn bad_name(path: &[u8]) -> Option<Defect>
    requires { IsTrue (begins_with_slash path.now) }
    ensures { result ≡ bad_name 1 (names path.now) }
{
    if path == b"/".as_slice() {
        return None;
    }
    for (place, byte) in path.iter().enumerate() {
        if *byte == b'/' {
            if let Some(fault) = name_fault(&path[place + 1..]) {
                return Some(Defect {
                    place: place + 1,
                    fault,
                });
            }
        }
    }
    None
}

fn is_path_char(c: char) -> bool
    ensures { result ≡ is_path_char c }
{
    matches!(c, ' '..='~' | '\u{a0}'..='\u{d7ff}' | '\u{f900}'..='\u{ffef}')
}

/// The first character that no path may have.
fn bad_char(text: &str) -> Option<Defect>
    ensures { result ≡ bad_char 0 (chars text.now) }
{
    let mut place = 0;
    for c in text.chars() {
        if !is_path_char(c) {
            return Some(Defect {
                place,
                fault: PathFault::BadText,
            });
        }
        place += c.len_utf8();
    }
    None
}

/// The first character that no path may have, or else the first byte that is not UTF-8.
fn bad_text(path: &[u8]) -> Option<Defect>
    ensures { result ≡ bad_text path.now }
{
    match str::from_utf8(path) {
        Ok(text) => bad_char(text),
        Err(error) => bad_text_before(path, error.valid_up_to()),
    }
}

/// The first bad character among the first `valid` bytes, or else the byte after them, which is not UTF-8.
fn bad_text_before(path: &[u8], valid: usize) -> Option<Defect>
    requires { IsValidUpTo path.now valid }
    ensures { result ≡ bad_text_from valid path.now }
{
    match str::from_utf8(&path[..valid]) {
        Ok(front) => bad_char(front).or(Some(Defect {
            place: valid,
            fault: PathFault::BadText,
        })),
        Err(_) => unreachable!(),
    }
}

fn too_long(len: usize, most: usize) -> Option<Defect>
    ensures { result ≡ at (nat_lt most len) most TooLong }
{
    if most < len {
        Some(Defect {
            place: most,
            fault: PathFault::TooLong,
        })
    } else {
        None
    }
}

/// The first defect of a path's form, whatever its length.
#[tactic(auto, unfolding(crate::specs::PathFaults::form_defect))]
fn form_defect(path: &[u8]) -> Option<Defect>
    ensures { result ≡ form_defect path.now }
{
    match no_slash(path) {
        None => first_of(end_slash(path), first_of(bad_name(path), bad_text(path))),
        found => found,
    }
}

/// The text whose form is tested: that of a sequential create with `1` added.
fn tested(alloc: Global, text: &[u8], sequential: bool) -> Result<Vec<u8>, AllocError>
    ensures { IfOk result (λ v. v.items ≡ tested sequential text.now) }
{
    let mut path = Vec::with_capacity(alloc, text.len() + 1)?;
    path.extend_from_slice(text)?;
    if sequential {
        path.push(b'1')?;
    }
    Ok(path)
}

fn max_bytes(sequential: bool) -> usize
    ensures { result ≡ max_bytes sequential }
{
    if sequential { MAX_SEQUENTIAL } else { MOST }
}

/// The first defect of a text, whose tested form is `path`.
#[tactic(auto, unfolding(crate::specs::PathFaults::defect_of))]
fn defect_of(path: &[u8], text: &[u8], sequential: bool) -> Option<Defect>
    requires { path.now ≡ tested sequential text.now }
    ensures { result ≡ defect_of sequential text.now }
{
    first_of(
        form_defect(path),
        too_long(text.len(), max_bytes(sequential)),
    )
}

/// Adds the last `count` decimal digits of a number.
fn push_digits(text: &mut Vec<u8>, count: u32, number: u32) -> Result<(), AllocError>
    ensures { OnOk result (text.new.items ≡ text.old.items ++ fixed_digits count number) }
{
    if count == 0 {
        return Ok(());
    }
    push_digits(text, count - 1, number / 10)?;
    Ok(text.push(b'0' + (number % 10) as u8)?)
}

impl Path {
    /// Reads a path. Where `sequential` is set, the text is that of a sequential create, and the path is the text with `1`
    /// added. A path's characters are U+0020 to U+007E, U+00A0 to U+D7FF and U+F900 to U+FFEF.
    pub fn read(alloc: Global, text: &[u8], sequential: bool) -> Result<Path, PathFault>
        ensures ok { IfOk result (λ p. p ≡ tested sequential text.now) }
        ensures valid { IfOk result (λ p. IsTrue (is_valid sequential text.now)) }
        ensures fault { IfErr result (λ f. IsFault f sequential text.now) }
        ensures first { IfErr result (λ f. IsFirst f (defect_of sequential text.now)) }
        ensures refused { IfErr result (λ f. IsRefused f sequential text.now) }
    {
        let Ok(path) = tested(alloc, text, sequential) else {
            return Err(PathFault::Memory);
        };
        match defect_of(&path, text, sequential) {
            Some(defect) => Err(defect.fault),
            None => Ok(Path { text: path }),
        }
    }

    /// The path `/`.
    pub fn root(alloc: Global) -> Result<Path, Memory>
        ensures { IfOk result (λ p. p ≡ root) }
    {
        Ok(Path {
            text: Vec::from_slice(alloc, b"/")?,
        })
    }

    /// The path of a sequence node: the path of its create, and the number as ten digits ("Sequence Nodes").
    pub fn numbered(alloc: Global, prefix: &[u8], number: u32) -> Result<Path, Memory>
        requires { IsTrue (is_sequence_prefix prefix.now) }
        ensures { IfOk result (λ p. p ≡ sequence_path prefix.now number) }
    {
        let mut text = Vec::with_capacity(alloc, prefix.len() + SEQUENCE_DIGITS as usize)?;
        text.extend_from_slice(prefix)?;
        push_digits(&mut text, SEQUENCE_DIGITS, number)?;
        Ok(Path { text })
    }

    /// The path's text.
    pub fn bytes(&self) -> &[u8]
        ensures { result.now ≡ self.now }
    {
        self.text.as_slice()
    }

    /// The same path, in memory of its own.
    pub fn copy(&self, alloc: Global) -> Result<Path, Memory>
        ensures { IfOk result (λ p. p ≡ self.now) }
    {
        Ok(Path {
            text: Vec::from_slice(alloc, self.text.as_slice())?,
        })
    }

    /// The number of names: 0 for the root.
    #[tactic(auto, unfolding(crate::specs::Paths::depth))]
    pub fn depth(&self) -> u32
        ensures { result ≡ depth self.now }
    {
        if self.text.as_slice() == b"/".as_slice() {
            return 0;
        }
        let mut slashes = 0;
        for byte in self.text.as_slice() {
            if *byte == b'/' {
                slashes += 1;
            }
        }
        slashes
    }

    /// The name after the last slash, empty for the root.
    #[tactic(auto, unfolding(crate::specs::Paths::last_name))]
    pub fn last_name(&self) -> &[u8]
        ensures { result.now ≡ last_name self.now }
    {
        let place = last_slash(self.text.as_slice());
        &self.text.as_slice()[place + 1..]
    }

    /// Whether this is the path of a child of the node at `parent`.
    #[tactic(auto, unfolding(crate::specs::Paths::is_child))]
    pub fn is_child_of(&self, parent: &[u8]) -> bool
        ensures { result ≡ is_child parent.now self.now }
    {
        match parent_text(self.text.as_slice()) {
            None => false,
            Some(text) => text == parent,
        }
    }

    /// The path without its last name; `None` for the root.
    pub fn parent(&self, alloc: Global) -> Result<Option<Path>, Memory>
        ensures parent { IfOk result (λ p. p ≡ parent self.now) }
        ensures shorter { IfOk result (λ p. IfSome p (λ q. length q < length self.now)) }
    {
        match parent_text(self.text.as_slice()) {
            None => Ok(None),
            Some(text) => Ok(Some(Path {
                text: Vec::from_slice(alloc, text)?,
            })),
        }
    }
}

/// The parent's text: what stands before the last slash, or that slash where nothing does. The root has none.
fn parent_text(path: &[u8]) -> Option<&[u8]>
    requires { IsTrue (is_path path.now) }
    ensures parent { option_map (λ t. t.now) result ≡ parent path.now }
    ensures valid { IfSome result (λ t. IsTrue (is_path t.now)) }
    ensures shorter { IfSome result (λ t. length t.now < length path.now) }
{
    match last_slash(path) {
        0 if path.len() == 1 => None,
        0 => Some(b"/".as_slice()),
        place => Some(&path[..place]),
    }
}

/// The index of the last slash.
fn last_slash(path: &[u8]) -> usize
    requires { IsTrue (begins_with_slash path.now) }
    ensures within { result < length path.now }
    ensures split { at_last_slash path.now ≡ Some (take result path.now, drop (result + 1) path.now) }
{
    for place in (1..path.len()).rev() {
        if path[place] == b'/' {
            return place;
        }
    }
    0
}

/// The path that a text is; `None` where the text is not valid. With `sequential` the text is that of a sequential create, without
/// its number, and the path is the text with `1` in that place.
pub fn read_path(alloc: Global, text: &[u8], sequential: bool) -> Result<Option<Path>, Memory>
    ensures { IfOk result (IsPathOf sequential text.now) }
{
    match Path::read(alloc, text, sequential) {
        Ok(path) => Ok(Some(path)),
        Err(PathFault::Memory) => Err(Memory),
        Err(_) => Ok(None),
    }
}

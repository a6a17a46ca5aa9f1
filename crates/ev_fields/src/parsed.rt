//! A parsed text: the list of its tokens, with a link past each object and array.

ghost use Rattle.std.specs.Prelude.{◌≡◌, Some, IfOk, IfErr, IsSome, IsUtf8, map};
ghost use Rattle.json.specs.Json.{document};
ghost use Rattle.json.specs.Lex.{tokens};
ghost use Rattle.json.specs.Tape.{node_token};
ghost use Rattle.serde_json.specs.Read.{read};
ghost use Rattle.ev_fields.specs.Places.{IsHeld, data_at};
ghost use Rattle.ev_fields.specs.Fitting.{opened, depth_after, fits_at};
ghost use Rattle.ev_fields.specs.Unparsed.{IsUnparsed, fault_of};

use crate::fault::JsonFault;
use crate::number::is_held;
use crate::place::Place;
use json::{Error, Node, Scratch, Tape};
use std::alloc::Global;
use std::marker::Model;

/// How deep objects and arrays may nest.
const DEEPEST: usize = 127;

/// A JSON text that was parsed.
#[derive(Drop)]
pub struct Parsed<'a> {
    tape: Tape<'a, Global>,
}

impl<'a> Model for Parsed<'a> {
    ghost use Rattle.std.specs.Prelude.{List};
    ghost use Rattle.json.specs.Token.{Token, tokens_code};

    ghost Value = { List Token };

    ghost coded = { tokens_code };

    ghost use Rattle.ev_fields.specs.Places.{IsHeld};

    ghost view = { λ a. a.tape };

    ghost invariant = { λ a. IsHeld a.tape };
}

fn opened(depth: usize) -> Option<usize>
    ensures { result ≡ opened depth }
{
    if depth < DEEPEST {
        Some(depth + 1)
    } else {
        None
    }
}

/// Inside how many objects and arrays the next node stands; `None` where this one nests too deep, or is a number that no value
/// holds.
fn depth_after(depth: usize, node: &Node<'_>) -> Option<usize>
    ensures { result ≡ depth_after depth (node_token node.now) }
{
    match node {
        Node::Object(_) => opened(depth),
        Node::EndObject => Some(depth.saturating_sub(1)),
        Node::Array(_) => opened(depth),
        Node::EndArray => Some(depth.saturating_sub(1)),
        Node::Key(_) => Some(depth),
        Node::String(_) => Some(depth),
        Node::Number(text) => if is_held(text) { Some(depth) } else { None },
        Node::Bool(_) => Some(depth),
        Node::Null => Some(depth),
    }
}

/// Whether no object or array nests deeper than 127, and each number is one that a value holds.
fn fits(nodes: &[Node<'_>]) -> bool
    ensures { result ≡ fits_at (Some 0) (map node_token nodes.now) }
{
    let mut depth = 0;
    for node in nodes {
        match depth_after(depth, node) {
            Some(next) => depth = next,
            None => return false,
        }
    }
    true
}

fn fault_of(error: Error) -> JsonFault
    ensures { result ≡ fault_of error }
{
    match error {
        Error::Invalid => JsonFault::NotJson,
        Error::DuplicateKey => JsonFault::NotJson,
        Error::OutOfMemory => JsonFault::Memory,
        Error::TooLong => JsonFault::Memory,
    }
}

fn tape_of<'a>(
    alloc: Global,
    text: &'a str,
    scratch: &'a mut Scratch,
) -> Result<Tape<'a, Global>, JsonFault>
    ensures ok { IfOk result (λ t. (t ≡ tokens text.now) × IsSome (document text.now)) }
    ensures fault { IfErr result (λ e. IsUnparsed text.now e) }
{
    match Tape::parse(text, scratch, Vec::new(alloc)) {
        Ok(tape) => Ok(tape),
        Err(error) => Err(fault_of(error)),
    }
}

fn parsed_of<'a>(
    alloc: Global,
    text: &'a str,
    scratch: &'a mut Scratch,
) -> Result<Parsed<'a>, JsonFault>
    ensures ok { IfOk result (λ p. read text.now ≡ Some (data_at p)) }
    ensures fault { IfErr result (λ e. IsUnparsed text.now e) }
{
    let tape = tape_of(alloc, text, scratch)?;
    let passes = fits(tape.nodes());
    if !passes {
        return Err(JsonFault::NotJson);
    }
    Ok(Parsed { tape })
}

impl<'a> Parsed<'a> {
    /// Parses a text, in memory of some 5 bytes for each of its bytes and 24 for each token.
    pub fn parse(
        alloc: Global,
        body: &'a [u8],
        scratch: &'a mut Scratch,
    ) -> Result<Parsed<'a>, JsonFault>
        ensures ok { IfOk result (λ p. IsUtf8 body.now × (read body.now ≡ Some (data_at p))) }
        ensures fault { IfErr result (λ e. IsUnparsed body.now e) }
    {
        match simdutf8::compat::from_utf8(body) {
            Ok(text) => {
                let parsed = parsed_of(alloc, text, scratch)?;
                Ok(parsed)
            }
            Err(_) => Err(JsonFault::NotJson),
        }
    }

    /// The value of the whole text.
    pub fn root(&self) -> Place<'_, 'a>
        ensures { result ≡ self.now }
    {
        Place::new(self.tape.root())
    }
}

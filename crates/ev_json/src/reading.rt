//! Reads messages from bodies. A body is parsed once into a list of tokens, and each key and value is decoded once from there.

ghost use Rattle.std.specs.Prelude.{◌≡◌, ◌≢◌, IfOk, IfErr, IfSome};
ghost use Rattle.ev_types.specs.declared.route.Route.TheVariants as routes;
ghost use Rattle.ev_json.specs.Answers.{answer_in, line_in};
ghost use Rattle.ev_json.specs.Asks.{ask_in, watch_in};
ghost use Rattle.ev_json.specs.Bodies.{FaultOf, first_line, message_body, reads, reads_ask, reads_line, reads_watch};

use crate::answer_value::answer;
use crate::ask_value::{ask, watch};
use crate::line::Line;
use crate::line_value::line;
use crate::straight::txn_answer;
use ev_fields::fault::JsonFault;
use ev_fields::parsed::Parsed;
use ev_fields::straight::is_utf8;
use ev_types::{Answer, Ask, Route};
use json::Scratch;
use std::alloc::Global;
use zx_base::Bytes;

/// Reads the ask in a body that was posted to the path of this route, which is not `Watch`: [`read_watch`] reads those.
#[tactic(auto, using(crate::proofs::Faults::unparsed), unfolding(crate::specs::Bodies::ReadsAs, crate::specs::Bodies::FaultOf))]
pub fn read_ask(alloc: Global, route: Route, body: &[u8]) -> Result<Ask, JsonFault>
    requires { route ≢ routes.Watch }
    ensures read { IfOk result (λ a. reads_ask route body.now a) }
    ensures fault { IfErr result (λ e. FaultOf (ask_in route) body.now e) }
{
    let mut scratch = Scratch::new(alloc);
    let parsed = Parsed::parse(alloc, body, &mut scratch)?;
    let ask = ask(alloc, route, &parsed.root())?;
    Ok(ask)
}

/// Reads a request to watch one key: the revision to start at, at least 1, and the key.
#[tactic(auto, using(crate::proofs::Faults::unparsed), unfolding(crate::specs::Bodies::ReadsAs, crate::specs::Bodies::FaultOf))]
pub fn read_watch(alloc: Global, body: &[u8]) -> Result<(i64, Bytes), JsonFault>
    ensures read { IfOk result (λ w. reads_watch body.now w.0 w.1) }
    ensures fault { IfErr result (λ e. FaultOf watch_in body.now e) }
{
    let mut scratch = Scratch::new(alloc);
    let parsed = Parsed::parse(alloc, body, &mut scratch)?;
    let watch = watch(alloc, &parsed.root())?;
    Ok(watch)
}

fn first_line(bytes: &[u8]) -> &[u8]
    ensures { result.now ≡ first_line bytes.now }
{
    for (i, b) in bytes.iter().enumerate() {
        if *b == b'\n' {
            return &bytes[..i];
        }
    }
    bytes
}

#[tactic(auto, unfolding(crate::specs::Bodies::message_body))]
fn message_body<'a>(ask: &Ask, body: &'a [u8]) -> &'a [u8]
    ensures { result.now ≡ message_body ask.now body.now }
{
    match ask {
        Ask::Alive { .. } => first_line(body),
        _ => body,
    }
}

/// The answer to a transaction, where its text is spelled as etcd spells it.
#[tactic(auto, using(crate::proofs::Spellings::straight))]
fn straight_answer(alloc: Global, ask: &Ask, body: &[u8]) -> Option<Answer>
    ensures { IfSome result (λ a. reads ask.now body.now a) }
{
    let Ask::Txn(txn) = ask else {
        return None;
    };
    let answer = txn_answer(alloc, txn, body)?;
    if !is_utf8(body) {
        return None;
    }
    Some(answer)
}

/// Reads the answer to an ask from the body of a response. The response to a keepalive is a stream: its first line is read.
#[tactic(auto, using(crate::proofs::Faults::unparsed), unfolding(crate::specs::Bodies::ReadsAs, crate::specs::Bodies::FaultOf))]
pub fn read_answer(alloc: Global, ask: &Ask, body: &[u8]) -> Result<Answer, JsonFault>
    ensures read { IfOk result (λ a. reads ask.now body.now a) }
    ensures fault { IfErr result (λ e. FaultOf (answer_in ask.now) (message_body ask.now body.now) e) }
{
    if let Some(answer) = straight_answer(alloc, ask, body) {
        return Ok(answer);
    }
    let body = message_body(ask, body);
    let mut scratch = Scratch::new(alloc);
    let parsed = Parsed::parse(alloc, body, &mut scratch)?;
    let answer = answer(alloc, ask, parsed.root())?;
    Ok(answer)
}

/// Reads one line of a watch's stream.
#[tactic(auto, using(crate::proofs::Faults::unparsed), unfolding(crate::specs::Bodies::ReadsAs, crate::specs::Bodies::FaultOf))]
pub fn read_line(alloc: Global, bytes: &[u8]) -> Result<Line, JsonFault>
    ensures read { IfOk result (λ l. reads_line bytes.now l) }
    ensures fault { IfErr result (λ e. FaultOf line_in bytes.now e) }
{
    let mut scratch = Scratch::new(alloc);
    let parsed = Parsed::parse(alloc, bytes, &mut scratch)?;
    let line = line(alloc, parsed.root())?;
    Ok(line)
}

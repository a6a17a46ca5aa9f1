//! Rows of JSON texts. The parts of the left side have ` | ` between them. The right side is what the body reads as: the one text of
//! the message, or the fault.
//!
//!     ask | ROUTE | BODY = ASK
//!     answer | ROUTE | ASK | BODY = ANSWER           an answer to that ask
//!     watch | BODY = WATCH
//!     line | BODY = created REV, ended, compacted REV, events REV, or events REV LINE
//!     repeated | HEX | COUNT | HEX | COUNT = ANSWER  as an answer to the ask that reads the head
//!     many | SIZE | COUNT = the bytes that are written of COUNT answers with a value of SIZE bytes, and those that are read

ghost use Rattle.std.specs.Prelude.{◌≢◌, Some};
ghost use Rattle.ev_types.specs.declared.route.Route.TheVariants as routes;

use crate::many::counted;
use ev_json::{
    JsonFault, Line, read_answer, read_ask, read_line, read_watch, write_answer, write_ask,
    write_line, write_watch,
};
use ev_types::{Ask, Route};
use std::alloc::Global;
use zx_base::Memory;

/// The ask that reads the head.
const HEAD: &str = "{\"success\":[{\"request_range\":{\"key\":\"emsvaGVhZA==\"}}]}";

/// What the body of a row reads as; `None` where the row has no known form.
pub fn found(alloc: Global, left: &str) -> Result<Option<String>, Memory> {
    let Some((kind, given)) = left.split_once(" | ") else {
        return Ok(None);
    };
    let found = match kind {
        "ask" => ask(alloc, given),
        "answer" => answer(alloc, given),
        "watch" => watch(alloc, given),
        "line" => line(alloc, given),
        "repeated" => repeated(alloc, given),
        "many" => counted(alloc, given),
        _ => return Ok(None),
    };
    Ok(Some(found?))
}

fn route_named(word: &str) -> Option<Route>
    ensures { result ≢ Some routes.Watch }
{
    match word {
        "txn" => Some(Route::Txn),
        "range" => Some(Route::Range),
        "grant" => Some(Route::Grant),
        "alive" => Some(Route::Alive),
        _ => None,
    }
}

fn text_of_fault(alloc: Global, fault: JsonFault) -> Result<String, Memory> {
    match fault {
        JsonFault::NotJson => Ok(String::from_str(alloc, "not json")?),
        JsonFault::Unreadable { field } => {
            let name = field.snake();
            Ok(format!(in alloc; "unreadable {name}")?)
        }
        JsonFault::Memory => Err(Memory),
    }
}

fn text_of_bytes(alloc: Global, bytes: Vec<u8>) -> Result<String, Memory> {
    match String::from_utf8(bytes) {
        Ok(text) => Ok(text),
        Err(_) => Ok(String::from_str(alloc, "not utf-8")?),
    }
}

fn ask(alloc: Global, given: &str) -> Result<String, Memory> {
    let Some((word, body)) = given.split_once(" | ") else {
        return Ok(String::from_str(alloc, "no body")?);
    };
    let Some(route) = route_named(word) else {
        return Ok(String::from_str(alloc, "no route")?);
    };
    match read_ask(alloc, route, body.as_bytes()) {
        Ok(asked) => {
            let (_, text) = write_ask(alloc, &asked)?;
            text_of_bytes(alloc, text)
        }
        Err(fault) => text_of_fault(alloc, fault),
    }
}

/// An answer. One to a keepalive is read alone, and again with another line after it.
fn answer(alloc: Global, given: &str) -> Result<String, Memory> {
    let Some((word, rest)) = given.split_once(" | ") else {
        return Ok(String::from_str(alloc, "no ask")?);
    };
    let Some((asked, body)) = rest.split_once(" | ") else {
        return Ok(String::from_str(alloc, "no body")?);
    };
    let alone = answer_to(alloc, word, asked, body.as_bytes())?;
    if word != "alive" {
        return Ok(alone);
    }
    let longer = format!(in alloc; "{body}\n[")?;
    let first = answer_to(alloc, word, asked, longer.as_bytes())?;
    if alone.as_str() == first.as_str() {
        Ok(alone)
    } else {
        Ok(format!(in alloc; "{alone}, but in a stream {first}")?)
    }
}

/// What a body reads as, taken for the answer to this ask.
fn answer_to(alloc: Global, word: &str, asked: &str, body: &[u8]) -> Result<String, Memory> {
    let Some(route) = route_named(word) else {
        return Ok(String::from_str(alloc, "no route")?);
    };
    match read_ask(alloc, route, asked.as_bytes()) {
        Ok(asked) => answer_text(alloc, &asked, body),
        Err(_) => Ok(String::from_str(alloc, "the ask is unreadable")?),
    }
}

fn answer_text(alloc: Global, asked: &Ask, body: &[u8]) -> Result<String, Memory> {
    match read_answer(alloc, asked, body) {
        Ok(answer) => text_of_bytes(alloc, write_answer(alloc, &answer)?),
        Err(fault) => text_of_fault(alloc, fault),
    }
}

fn watch(alloc: Global, body: &str) -> Result<String, Memory> {
    match read_watch(alloc, body.as_bytes()) {
        Ok((from, key)) => text_of_bytes(alloc, write_watch(alloc, from, key.as_slice())?),
        Err(fault) => text_of_fault(alloc, fault),
    }
}

fn line(alloc: Global, body: &str) -> Result<String, Memory> {
    match read_line(alloc, body.as_bytes()) {
        Ok(said) => line_text(alloc, &said),
        Err(fault) => text_of_fault(alloc, fault),
    }
}

fn line_text(alloc: Global, said: &Line) -> Result<String, Memory> {
    match said {
        Line::Created { revision } => Ok(format!(in alloc; "created {revision}")?),
        Line::Ended => Ok(String::from_str(alloc, "ended")?),
        Line::Compacted { rev } => Ok(format!(in alloc; "compacted {rev}")?),
        Line::Events { revision, kvs } => {
            if kvs.len() == 0 {
                return Ok(format!(in alloc; "events {revision}")?);
            }
            let text = text_of_bytes(alloc, write_line(alloc, kvs.as_slice(), *revision)?)?;
            Ok(format!(in alloc; "events {revision} {text}")?)
        }
    }
}

/// A body of two texts, each repeated.
fn repeated(alloc: Global, given: &str) -> Result<String, Memory> {
    let Some((first, second)) = given.split_once(" | ") else {
        return Ok(String::from_str(alloc, "no count")?);
    };
    let Some((count, after)) = second.split_once(" | ") else {
        return Ok(String::from_str(alloc, "no second text")?);
    };
    let Some((text, times)) = after.split_once(" | ") else {
        return Ok(String::from_str(alloc, "no second count")?);
    };
    let mut body = Vec::new(alloc);
    push_repeated(alloc, &mut body, first, count)?;
    push_repeated(alloc, &mut body, text, times)?;
    answer_to(alloc, "txn", HEAD, body.as_slice())
}

fn push_repeated(alloc: Global, body: &mut Vec<u8>, hex: &str, count: &str) -> Result<(), Memory> {
    let Ok(piece) = hex::decode(alloc, hex) else {
        return Ok(());
    };
    let times = count.parse::<u32>().unwrap_or(0);
    for _ in 0..times {
        body.extend_from_slice(piece.as_slice())?;
    }
    Ok(())
}

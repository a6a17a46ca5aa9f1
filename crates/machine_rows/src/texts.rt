//! What comes of a step, as it is spelled in rows.

use row_files::{push, push_number, push_word, word_of};
use row_words::{notice_texts, trigger_word};
use std::alloc::Global;
use zk_history::Session;
use zk_machine::Tree;
use zk_model::{Body, Notice, PartResult, Reply, Stat, Trigger};
use zx_base::{Memory, Text};

/// A reply: a refusal's code, or what the body shows.
pub fn push_reply(alloc: Global, text: &mut String, reply: &Reply) -> Result<(), Memory> {
    match reply {
        Reply::Refused(code) => push_number(alloc, text, "", i64::from(*code)),
        Reply::Good(body) => push_body(alloc, text, body),
    }
}

/// ` told ` and the notices; nothing where there are none.
pub fn push_notices(alloc: Global, text: &mut String, notices: &[Notice]) -> Result<(), Memory> {
    if notices.is_empty() {
        return Ok(());
    }
    push(text, " told ")?;
    push(text, notice_texts(alloc, notices)?.as_str())
}

pub fn push_body(alloc: Global, text: &mut String, body: &Body) -> Result<(), Memory> {
    match body {
        Body::Empty => push(text, "ok"),
        Body::Path(path) => push(text, word_of(path.as_slice())),
        Body::Stat(stat) | Body::OpenAcl(stat) => push_stat(alloc, text, stat),
        Body::Content(content, _) => push(text, word_of(content.as_slice())),
        Body::Names(names) => push_names(text, names.as_slice()),
        Body::NamesStat(names, stat) => {
            push_names(text, names.as_slice())?;
            push(text, " stat ")?;
            push_stat(alloc, text, stat)
        }
        Body::Parts(results) => push_results(alloc, text, results.as_slice()),
        Body::PathStat(path, stat) => {
            push(text, word_of(path.as_slice()))?;
            push(text, " stat ")?;
            push_stat(alloc, text, stat)
        }
    }
}

/// czxid, mzxid, pzxid, version, cversion and numChildren.
fn push_stat(alloc: Global, text: &mut String, stat: &Stat) -> Result<(), Memory> {
    let numbers = [
        stat.czxid,
        stat.mzxid,
        stat.pzxid,
        i64::from(stat.version),
        i64::from(stat.cversion),
        i64::from(stat.num_children),
    ];
    push_numbers(alloc, text, &numbers)
}

/// Numbers with blanks between them.
pub fn push_numbers(alloc: Global, text: &mut String, numbers: &[i64]) -> Result<(), Memory> {
    let mut front = "";
    for number in numbers {
        push_number(alloc, text, front, *number)?;
        front = " ";
    }
    Ok(())
}

fn push_names(text: &mut String, names: &[Text]) -> Result<(), Memory> {
    push(text, "names")?;
    for name in names {
        push_word(text, word_of(name.as_slice()))?;
    }
    Ok(())
}

/// The results of a multi's parts, with ` + ` between them.
fn push_results(alloc: Global, text: &mut String, results: &[PartResult]) -> Result<(), Memory> {
    for one in results {
        if !text.is_empty() {
            push(text, " + ")?;
        }
        push_result(alloc, text, one)?;
    }
    Ok(())
}

fn push_result(alloc: Global, text: &mut String, one: &PartResult) -> Result<(), Memory> {
    match one {
        PartResult::Created(path) => push(text, word_of(path.as_slice())),
        PartResult::Deleted => push(text, "deleted"),
        PartResult::Set(stat) => push_stat(alloc, text, stat),
        PartResult::Checked => push(text, "checked"),
        PartResult::Code(code) => push_number(alloc, text, "", i64::from(*code)),
    }
}

/// What watches see, or `none`.
pub fn push_triggers(text: &mut String, triggers: &[Trigger]) -> Result<(), Memory> {
    if triggers.is_empty() {
        return push(text, "none");
    }
    let mut front = "";
    for trigger in triggers {
        let (name, path) = trigger_word(trigger);
        push(text, front)?;
        push(text, name)?;
        push_word(text, word_of(path))?;
        front = ", ";
    }
    Ok(())
}

/// The node at a path: czxid, mzxid, pzxid, version, creates and children.
pub fn push_node(alloc: Global, text: &mut String, tree: &Tree, path: &[u8]) -> Result<(), Memory> {
    let Some(node) = tree.get(path) else {
        return push(text, "none");
    };
    let numbers = [
        node.czxid,
        node.mzxid,
        node.pzxid,
        i64::from(node.version),
        node.creates as i64,
        tree.num_children(path) as i64,
    ];
    push_numbers(alloc, text, &numbers)
}

/// A session: its timeout in milliseconds, its connection, the zxid of its attachment, and `live` or `lapsed`, or `strange` where
/// its password is not the one that rows give it.
pub fn push_session(
    alloc: Global,
    text: &mut String,
    session: Option<&Session>,
) -> Result<(), Memory> {
    let Some(session) = session else {
        return push(text, "none");
    };
    let word = if session.passwd() != [0xaa; 16].as_slice() {
        "strange"
    } else if session.is_lapsed() {
        "lapsed"
    } else {
        "live"
    };
    let numbers = [
        i64::from(session.timeout()),
        i64::from(session.connection()),
        session.attached(),
    ];
    push_numbers(alloc, text, &numbers)?;
    push_word(text, word)
}

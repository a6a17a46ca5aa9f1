//! Replies in words.

use row_files::{push_number, push_word, word_of};
use row_words::data_word;
use std::alloc::Global;
use zk_model::{Body, PartResult, Reply, Stat};
use zx_base::{Memory, Text};

/// ` CZXID/MZXID/PZXID CTIME/MTIME VERSION/CVERSION/AVERSION OWNER LENGTH CHILDREN`
fn push_stat(alloc: Global, text: &mut String, stat: &Stat) -> Result<(), Memory> {
    let fields = [
        (" ", stat.czxid),
        ("/", stat.mzxid),
        ("/", stat.pzxid),
        (" ", stat.ctime),
        ("/", stat.mtime),
        (" ", i64::from(stat.version)),
        ("/", i64::from(stat.cversion)),
        ("/", i64::from(stat.aversion)),
        (" ", stat.ephemeral_owner),
        (" ", i64::from(stat.data_length)),
        (" ", i64::from(stat.num_children)),
    ];
    for (front, number) in fields {
        push_number(alloc, text, front, number)?;
    }
    Ok(())
}

fn push_names(text: &mut String, names: &[Text]) -> Result<(), Memory> {
    for name in names {
        push_word(text, word_of(name.as_slice()))?;
    }
    Ok(())
}

fn push_body(alloc: Global, text: &mut String, body: &Body) -> Result<(), Memory> {
    match body {
        Body::Empty => push_word(text, "good"),
        Body::Path(path) => {
            push_word(text, "path")?;
            push_word(text, word_of(path.as_slice()))
        }
        Body::Stat(stat) => {
            push_word(text, "stat")?;
            push_stat(alloc, text, stat)
        }
        Body::Content(content, stat) => {
            push_word(text, "data")?;
            push_word(text, data_word(alloc, content.as_slice())?.as_str())?;
            push_stat(alloc, text, stat)
        }
        Body::Names(names) => {
            push_word(text, "names")?;
            push_names(text, names.as_slice())
        }
        Body::NamesStat(names, stat) => {
            push_word(text, "names")?;
            push_names(text, names.as_slice())?;
            push_word(text, "stat")?;
            push_stat(alloc, text, stat)
        }
        Body::OpenAcl(stat) => {
            push_word(text, "open")?;
            push_stat(alloc, text, stat)
        }
        Body::Parts(parts) => push_parts(alloc, text, parts.as_slice()),
        Body::PathStat(path, stat) => {
            push_word(text, "path")?;
            push_word(text, word_of(path.as_slice()))?;
            push_word(text, "stat")?;
            push_stat(alloc, text, stat)
        }
    }
}

fn push_part(alloc: Global, text: &mut String, part: &PartResult) -> Result<(), Memory> {
    match part {
        PartResult::Created(path) => {
            push_word(text, "created")?;
            push_word(text, word_of(path.as_slice()))
        }
        PartResult::Deleted => push_word(text, "deleted"),
        PartResult::Set(stat) => {
            push_word(text, "set")?;
            push_stat(alloc, text, stat)
        }
        PartResult::Checked => push_word(text, "checked"),
        PartResult::Code(code) => push_number(alloc, text, " code ", i64::from(*code)),
    }
}

/// ` parts`, and the result of each
fn push_parts(alloc: Global, text: &mut String, parts: &[PartResult]) -> Result<(), Memory> {
    push_word(text, "parts")?;
    for part in parts {
        push_part(alloc, text, part)?;
    }
    Ok(())
}

/// ` refused CODE`, or the body
pub fn push_reply(alloc: Global, text: &mut String, reply: &Reply) -> Result<(), Memory> {
    match reply {
        Reply::Refused(code) => push_number(alloc, text, " refused ", i64::from(*code)),
        Reply::Good(body) => push_body(alloc, text, body),
    }
}

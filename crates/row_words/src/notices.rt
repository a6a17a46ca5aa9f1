//! What watches see, and what they tell.

use row_files::{push, push_number, push_word, word_of};
use std::alloc::Global;
use zk_model::{Notice, Path, Trigger};
use zx_base::Memory;

/// The trigger of this name at a path; `None` where no trigger has it.
pub fn trigger_of(word: &str, path: Path) -> Option<Trigger> {
    match word {
        "created" => Some(Trigger::Created(path)),
        "deleted" => Some(Trigger::Deleted(path)),
        "changed" => Some(Trigger::Changed(path)),
        "children" => Some(Trigger::Children(path)),
        _ => None,
    }
}

/// The name of a trigger, and its path.
pub fn trigger_word(trigger: &Trigger) -> (&'static str, &[u8]) {
    match trigger {
        Trigger::Created(path) => ("created", path.bytes()),
        Trigger::Deleted(path) => ("deleted", path.bytes()),
        Trigger::Changed(path) => ("changed", path.bytes()),
        Trigger::Children(path) => ("children", path.bytes()),
    }
}

/// ` NAME PATH`
pub fn push_trigger(text: &mut String, trigger: &Trigger) -> Result<(), Memory> {
    let (name, path) = trigger_word(trigger);
    push_word(text, name)?;
    push_word(text, word_of(path))
}

/// `KIND PATH` of each notice, with `, ` between them: kind 1 created, 2 deleted, 3 changed, 4 children.
pub fn notice_texts(alloc: Global, notices: &[Notice]) -> Result<String, Memory> {
    let mut texts = String::new(alloc);
    for notice in notices {
        if !texts.is_empty() {
            push(&mut texts, ", ")?;
        }
        push_number(alloc, &mut texts, "", i64::from(notice.kind))?;
        push_word(&mut texts, word_of(notice.path.as_slice()))?;
    }
    Ok(texts)
}

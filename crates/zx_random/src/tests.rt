use crate::{RandWord, Random, SharedStop, StopWord};
use std::test::Fail;

#[test]
fn random_words_differ(rt: HostRuntime) -> Result<(), Fail> {
    let mut random = RandWord::new(&rt)?;
    let first = random.word();
    assert!(rt; random.word() != first);
    // Another generator has a seed of its own.
    assert!(rt; RandWord::new(&rt)?.word() != first);
    Ok(())
}

#[test]
fn a_stop_word_is_shared(rt: HostRuntime) -> Result<(), Fail> {
    let Ok(mut mine) = SharedStop::new(rt.alloc()) else {
        return Err(Fail::from("a new word"));
    };
    let Ok(mut theirs) = mine.another() else {
        return Err(Fail::from("another owner"));
    };
    assert!(rt; !mine.is_set());
    assert!(rt; !theirs.is_set());
    mine.set();
    assert!(rt; theirs.is_set());
    assert!(rt; mine.is_set());
    Ok(())
}

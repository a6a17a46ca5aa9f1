//! How a connection or a reaper ended.

ghost use Rattle.std.specs.Prelude.{◌≡◌, IfOk};
ghost use Rattle.zt_text.specs.Words.{words_of};
ghost use Rattle.zt_lines.specs.Lines.{bad_length_end as bad_length_of, caused, close_line, damaged as damaged_of, end_of_one as end_of_one_of, end_of_pair as end_of_pair_of, end_of_place as end_of_place_of, end_of_revision as end_of_revision_of, end_of_two as end_of_two_of, end_read, pair_cause as pair_cause_of, place_cause as place_cause_of, plain_cause as plain_cause_of, revision_end as revision_end_of};

use crate::numbers::{length, long, place};
use crate::updates::is;
use std::alloc::Global;
use zk_service::{Cause, Ended};
use zk_transcript::TranscriptLine;
use zt_text::{Words, first_word, hex, number};
use zx_base::Memory;

/// `close C ..`
#[tactic(auto, unfolding(crate::specs::Lines::close_line))]
pub fn close(alloc: Global, words: Words<'_>) -> Result<Option<TranscriptLine>, Memory>
    ensures { IfOk result (λ l. l ≡ close_line (words_of words.entry)) }
{
    let Some(words) = words else {
        return Ok(None);
    };
    let (connection, words) = first_word(words);
    let Some(connection) = number(connection) else {
        return Ok(None);
    };
    match end(alloc, words)? {
        Some(end) => Ok(Some(TranscriptLine::Close { connection, end })),
        None => Ok(None),
    }
}

/// An end: its form, and at most two words after it.
#[tactic(auto, using(crate::proofs::EndWords::end_read_and_more))]
fn end(alloc: Global, words: Words<'_>) -> Result<Option<Ended>, Memory>
    ensures { IfOk result (λ e. e ≡ end_read (words_of words.entry)) }
{
    let Some(words) = words else {
        return Ok(None);
    };
    let (form, words) = first_word(words);
    let Some(words) = words else {
        return Ok(of_form(form));
    };
    let (a, words) = first_word(words);
    let Some(words) = words else {
        return Ok(end_of_one(form, a));
    };
    let (b, words) = first_word(words);
    match words {
        None => end_of_two(alloc, form, a, b),
        Some(_) => Ok(None),
    }
}

fn of_form(form: &[u8]) -> Option<Ended>
    ensures { result ≡ caused (plain_cause_of form.now) }
{
    Some(Ended::Cause(plain_cause(form)?))
}

/// The causes that are one word.
#[tactic(auto, unfolding(crate::specs::Lines::plain_cause))]
fn plain_cause(form: &[u8]) -> Option<Cause>
    ensures { result ≡ plain_cause_of form.now }
{
    if is(form, b"closed") {
        Some(Cause::Closed)
    } else if is(form, b"read") {
        Some(Cause::ReadFault)
    } else if is(form, b"write") {
        Some(Cause::WriteFault)
    } else if is(form, b"auth") {
        Some(Cause::AuthRefused)
    } else if is(form, b"unknown") {
        Some(Cause::Unknown)
    } else if is(form, b"link") {
        Some(Cause::LinkFault)
    } else if is(form, b"feed") {
        Some(Cause::FeedClosed)
    } else if is(form, b"restart") {
        Some(Cause::Restart)
    } else if is(form, b"memory") {
        Some(Cause::Memory)
    } else {
        None
    }
}

/// The causes that name a place in the client's stream.
#[tactic(auto, unfolding(crate::specs::Lines::place_cause))]
fn place_cause(form: &[u8], place: u64) -> Option<Cause>
    ensures { result ≡ place_cause_of form.now place }
{
    if is(form, b"client") {
        Some(Cause::ClientEnd { place })
    } else if is(form, b"noheader") {
        Some(Cause::NoHeader { place })
    } else {
        None
    }
}

/// The ends that name a revision or a zxid.
#[tactic(auto, unfolding(crate::specs::Lines::revision_end))]
fn revision_end(form: &[u8], rev: i64) -> Option<Ended>
    ensures { result ≡ revision_end_of form.now rev }
{
    if is(form, b"taken") {
        Some(Ended::Cause(Cause::Taken { rev }))
    } else if is(form, b"expired") {
        Some(Ended::Cause(Cause::Expired { rev }))
    } else if is(form, b"reaped") {
        Some(Ended::Reaped { zxid: rev })
    } else if is(form, b"kept") {
        Some(Ended::Kept { rev })
    } else if is(form, b"gone") {
        Some(Ended::Gone { rev })
    } else {
        None
    }
}

/// The causes of two numbers.
#[tactic(auto, unfolding(crate::specs::Lines::pair_cause))]
fn pair_cause(form: &[u8], a: i64, b: i64) -> Option<Cause>
    ensures { result ≡ pair_cause_of form.now a b }
{
    if is(form, b"ahead") {
        Some(Cause::ZxidAhead { client: a, head: b })
    } else if is(form, b"moved") {
        Some(Cause::Moved { mine: a, found: b })
    } else if is(form, b"lagged") {
        Some(Cause::Lagged {
            cursor: a,
            floor: b,
        })
    } else {
        None
    }
}

#[tactic(auto, unfolding(crate::specs::Lines::end_of_place))]
fn end_of_place(form: &[u8], a: &[u8]) -> Option<Ended>
    ensures { result ≡ end_of_place_of form.now a.now }
{
    let place = place(a)?;
    Some(Ended::Cause(place_cause(form, place)?))
}

#[tactic(auto, unfolding(crate::specs::Lines::end_of_revision))]
fn end_of_revision(form: &[u8], a: &[u8]) -> Option<Ended>
    ensures { result ≡ end_of_revision_of form.now a.now }
{
    let rev = long(a)?;
    revision_end(form, rev)
}

/// The ends with one word after their form.
#[tactic(auto, unfolding(crate::specs::Lines::end_of_one))]
fn end_of_one(form: &[u8], a: &[u8]) -> Option<Ended>
    ensures { result ≡ end_of_one_of form.now a.now }
{
    match end_of_place(form, a) {
        Some(end) => Some(end),
        None => end_of_revision(form, a),
    }
}

/// `length PLACE LENGTH`
#[tactic(auto, unfolding(crate::specs::Lines::bad_length_end))]
fn bad_length(a: &[u8], b: &[u8]) -> Option<Ended>
    ensures { result ≡ bad_length_of a.now b.now }
{
    let place = place(a)?;
    let length = length(b)?;
    Some(Ended::Cause(Cause::BadLength { place, length }))
}

/// `damaged KEYHEX VALHEX`
#[tactic(auto, unfolding(crate::specs::Lines::damaged))]
fn damaged(alloc: Global, a: &[u8], b: &[u8]) -> Result<Option<Ended>, Memory>
    ensures { IfOk result (λ e. e ≡ damaged_of a.now b.now) }
{
    let Some(key) = hex(alloc, a)? else {
        return Ok(None);
    };
    let Some(value) = hex(alloc, b)? else {
        return Ok(None);
    };
    Ok(Some(Ended::Cause(Cause::Damaged { key, value })))
}

#[tactic(auto, unfolding(crate::specs::Lines::end_of_pair))]
fn end_of_pair(form: &[u8], a: &[u8], b: &[u8]) -> Option<Ended>
    ensures { result ≡ end_of_pair_of form.now a.now b.now }
{
    let a = long(a)?;
    let b = long(b)?;
    Some(Ended::Cause(pair_cause(form, a, b)?))
}

/// The ends with two words after their form.
#[tactic(auto, unfolding(crate::specs::Lines::end_of_two))]
fn end_of_two(alloc: Global, form: &[u8], a: &[u8], b: &[u8]) -> Result<Option<Ended>, Memory>
    ensures { IfOk result (λ e. e ≡ end_of_two_of form.now a.now b.now) }
{
    if is(form, b"length") {
        Ok(bad_length(a, b))
    } else if is(form, b"damaged") {
        damaged(alloc, a, b)
    } else {
        Ok(end_of_pair(form, a, b))
    }
}

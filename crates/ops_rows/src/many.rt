//! Decisions on much: a node with many children, the most data, and many paths.

use crate::asked::decision;
use crate::found::{listed, saw};
use anyhow::{Result as Outcome, bail};
use ev_types::Act;
use row_files::{Piece, Words, joined, push, push_number};
use row_words::request;
use std::alloc::Global;
use std::process::ExitCode;
use std::time::Instant;
use zk_model::{Body, Reply, Request};
use zn_ops::needs;
use zn_reads::seen_paths;
use zn_view::{Decision, Plan, View, Who};
use zx_base::Memory;

/// The session that asks; it was attached at revision 3.
const WHO: Who = Who {
    session: 1,
    mine: 3,
};

/// What is found of the session and of the root.
const ROOT: [&'static str; 4] = [
    "zk/head 3 1 head",
    "zk/l/0000000000000001 3 1 life 10000",
    "zk/d/0000/ 3 1 node 2 0 1000 1000 0 -",
    "zk/c/0000/ 3 1 counts 0 0",
];

/// A request, and a view that has what it reads.
#[derive(Drop)]
struct Case {
    request: Request,
    view: View,
}

/// A slash, and a name for this number.
fn push_name(alloc: Global, text: &mut String, number: u32) -> Result<(), Memory> {
    push_number(alloc, text, "/c", 1_000_000 + i64::from(number))
}

/// A view of the session and the root, with so many children of it listed.
fn root_view(alloc: Global, count: u32) -> Result<View, Memory> {
    let mut view = View::empty(alloc);
    for row in ROOT {
        let _found = saw(alloc, &mut view, 3, &mut Words::new(row))?;
    }
    let mut keys = String::from_str(alloc, "/")?;
    for number in 0..count {
        push(&mut keys, " zk/d/0001")?;
        push_name(alloc, &mut keys, number)?;
    }
    let _found = listed(alloc, &mut view, 3, &mut Words::new(keys.as_str()))?;
    Ok(view)
}

/// A view of the session and the root, and of a node at each of so many paths.
fn nodes_view(alloc: Global, count: u32) -> Result<View, Memory> {
    let mut view = root_view(alloc, 0)?;
    for number in 0..count {
        let mut row = String::from_str(alloc, "zk/d/0001")?;
        push_name(alloc, &mut row, number)?;
        push(&mut row, " 3 1 node 2 0 1000 1000 0 -")?;
        let _found = saw(alloc, &mut view, 3, &mut Words::new(row.as_str()))?;
    }
    Ok(view)
}

/// The words of a setWatches with so many paths, since zxid 2.
fn watch_words(alloc: Global, count: u32) -> Result<String, Memory> {
    let mut words = String::from_str(alloc, "watches 2 ")?;
    for number in 0..count {
        if number > 0 {
            push(&mut words, ",")?;
        }
        push_name(alloc, &mut words, number)?;
    }
    push(&mut words, if count == 0 { "- - -" } else { " - -" })?;
    Ok(words)
}

fn spelled(alloc: Global, words: &str) -> Result<Request, Memory> {
    match request(alloc, &mut Words::new(words))? {
        Some(request) => Ok(request),
        None => Ok(Request::Ping),
    }
}

/// A getChildren of the root, which has so many children.
fn listing(alloc: Global, count: u32) -> Result<Case, Memory> {
    let request = spelled(alloc, "children / 0")?;
    let view = root_view(alloc, count)?;
    Ok(Case { request, view })
}

/// A setData of the root with 1,048,575 bytes, on the same view.
fn setting(alloc: Global, count: u32) -> Result<Case, Memory> {
    let request = spelled(alloc, "set / x*1048575 -1")?;
    let view = root_view(alloc, count)?;
    Ok(Case { request, view })
}

/// A setWatches with a path for each of so many nodes.
fn watching(alloc: Global, count: u32) -> Result<Case, Memory> {
    let words = watch_words(alloc, count)?;
    let request = spelled(alloc, words.as_str())?;
    let view = nodes_view(alloc, count)?;
    Ok(Case { request, view })
}

fn decided(alloc: Global, case: &Case) -> Result<Option<Decision>, Memory> {
    decision(alloc, &case.request, WHO, 1_000, &case.view)
}

/// How many names the reply lists.
fn names_in(decision: &Option<Decision>) -> usize {
    match decision {
        Some(Decision::Answered { reply, .. }) => names_in_reply(reply),
        _ => 0,
    }
}

fn names_in_reply(reply: &Reply) -> usize {
    match reply {
        Reply::Good(Body::Names(names)) => names.len(),
        _ => 0,
    }
}

/// How many bytes the value of the plan's first put has.
fn bytes_in(decision: &Option<Decision>) -> usize {
    match decision {
        Some(Decision::Planned(plan)) => first_put(plan),
        _ => 0,
    }
}

fn first_put(plan: &Plan) -> usize {
    match plan.success.as_slice().first() {
        Some(Act::Put { value, .. }) => value.len(),
        _ => 0,
    }
}

/// At how many of its paths a setWatches finds a node; 0 where the view lacks something.
fn nodes_found(alloc: Global, case: &Case) -> Result<usize, Memory> {
    let Request::SetWatches {
        datas,
        exists,
        children,
        ..
    } = &case.request
    else {
        return Ok(0);
    };
    if !needs(alloc, &case.request, WHO, &case.view)?
        .as_slice()
        .is_empty()
    {
        return Ok(0);
    }
    let seen = seen_paths(
        alloc,
        datas.as_slice(),
        exists.as_slice(),
        children.as_slice(),
        &case.view,
    )?;
    Ok(seen.iter().filter(|seen| seen.at.is_some()).count())
}

/// `COUNT`: how many names a getChildren of so many children lists, how many bytes the setData puts, and at how many of so many
/// paths the setWatches finds a node
pub fn counted(alloc: Global, words: &mut Words) -> Result<Option<String>, Memory> {
    match words.number() {
        Some(count) => Ok(Some(counts_text(alloc, count)?)),
        None => Ok(None),
    }
}

fn counts_text(alloc: Global, count: u32) -> Result<String, Memory> {
    let names = names_listed(alloc, count)?;
    let bytes = bytes_put(alloc, count)?;
    let nodes = nodes_watched(alloc, count)?;
    let pieces = [
        Piece::Count(names as u64),
        Piece::Text(" names, "),
        Piece::Count(bytes as u64),
        Piece::Text(" bytes put, "),
        Piece::Count(nodes as u64),
        Piece::Text(" nodes found"),
    ];
    joined(alloc, &pieces)
}

fn names_listed(alloc: Global, count: u32) -> Result<usize, Memory> {
    let case = listing(alloc, count)?;
    let decision = decided(alloc, &case)?;
    Ok(names_in(&decision))
}

fn bytes_put(alloc: Global, count: u32) -> Result<usize, Memory> {
    let case = setting(alloc, count)?;
    let decision = decided(alloc, &case)?;
    Ok(bytes_in(&decision))
}

fn nodes_watched(alloc: Global, count: u32) -> Result<usize, Memory> {
    let case = watching(alloc, count)?;
    nodes_found(alloc, &case)
}

/// Prints the microseconds of the two decisions, and of the look through the paths.
pub fn print_times(rt: &HostRuntime, count: &str) -> Outcome<ExitCode> {
    let count = count.parse::<u32>().unwrap_or(0);
    let first = micros_of_listing(rt, count)?;
    let second = micros_of_setting(rt, count)?;
    let third = micros_of_watching(rt, count)?;
    println!(rt; "{first} {second} {third}")?;
    Ok(ExitCode::SUCCESS)
}

fn micros_of_listing(rt: &HostRuntime, count: u32) -> Outcome<u128> {
    let case = listing(rt.alloc(), count);
    micros_of(rt, &case)
}

fn micros_of_setting(rt: &HostRuntime, count: u32) -> Outcome<u128> {
    let case = setting(rt.alloc(), count);
    micros_of(rt, &case)
}

/// The microseconds of a decision.
fn micros_of(rt: &HostRuntime, case: &Result<Case, Memory>) -> Outcome<u128> {
    let Ok(case) = case else {
        bail!("out of memory");
    };
    let start = Instant::now(rt)?;
    if decided(rt.alloc(), case).is_err() {
        bail!("out of memory");
    }
    Ok(start.elapsed(rt)?.as_micros())
}

/// The microseconds of a look through the paths of a setWatches.
fn micros_of_watching(rt: &HostRuntime, count: u32) -> Outcome<u128> {
    let case = watching(rt.alloc(), count);
    micros_of_look(rt, &case)
}

fn micros_of_look(rt: &HostRuntime, case: &Result<Case, Memory>) -> Outcome<u128> {
    let Ok(case) = case else {
        bail!("out of memory");
    };
    let start = Instant::now(rt)?;
    if nodes_found(rt.alloc(), case).is_err() {
        bail!("out of memory");
    }
    Ok(start.elapsed(rt)?.as_micros())
}

//! The lines of each connection, apart.

ghost use Rattle.std.specs.Prelude.{◌≡◌, ◌++◌, ◌==◌, ℕ, IfOk, OnOk, filter, map, slice_get};
ghost use Rattle.std.specs.List.{filter_map};
ghost use Rattle.std.specs.Option.{option_to_list};
ghost use Rattle.zp_script.specs.Conversing.{conversation, conversations, is_line_of, opened_by};
ghost use Rattle.zp_ledger.specs.Grouping.{is_number, placed, places_at};

use std::alloc::Global;
use std::collections::BTreeMap;
use zk_service::{Cause, Ended, copy_of_cause};
use zk_transcript::{Conversation, TranscriptLine};
use zx_base::{Bytes, Memory, Seq};

/// The lines of each connection, its updates left out, in the order in which the connections opened. Each line is copied once. It
/// takes the logarithm of the number of connections to find the one that a line belongs to.
pub(crate) fn conversations_in(
    alloc: Global,
    lines: &[TranscriptLine],
) -> Result<Vec<Conversation>, Memory>
    ensures { IfOk result (λ found. found.items ≡ conversations lines.now) }
{
    let places = places_in(alloc, lines)?;
    let mut found = Vec::new(alloc);
    for line in lines {
        open(alloc, lines, &places, opened_by(line), &mut found)?;
    }
    Ok(found)
}

/// Adds the conversation of a connection that opens, if one does.
fn open(
    alloc: Global,
    lines: &[TranscriptLine],
    places: &BTreeMap<u32, Seq<usize>>,
    opened: Option<u32>,
    found: &mut Vec<Conversation>,
) -> Result<(), Memory>
    requires { (c : ℕ) → filter_map (slice_get lines.now) (places_at c places.now.entries) ≡ filter (is_line_of c) lines.now }
    ensures { OnOk result (found.new.items ≡ found.old.items ++ map (conversation lines.now) (option_to_list opened)) }
{
    if let Some(connection) = opened {
        let own = places_of(places, connection);
        found.push(conversation_at(alloc, lines, connection, own)?)?;
    }
    Ok(())
}

/// The places of each connection's lines, by its number.
fn places_in(alloc: Global, lines: &[TranscriptLine]) -> Result<BTreeMap<u32, Seq<usize>>, Memory>
    ensures { IfOk result (λ places. (c : ℕ) → filter_map (slice_get lines.now) (places_at c places.entries) ≡ filter (is_line_of c) lines.now) }
{
    let mut places = BTreeMap::new(alloc);
    for place in 0..lines.len() {
        let connection = connection_of(&lines[place]);
        note_if(alloc, &mut places, connection, place)?;
    }
    Ok(places)
}

/// Notes the place of a line, if the line is a connection's.
fn note_if(
    alloc: Global,
    places: &mut BTreeMap<u32, Seq<usize>>,
    connection: Option<u32>,
    place: usize,
) -> Result<(), Memory>
    ensures { OnOk result ((c : ℕ) → places_at c places.new.entries ≡ places_at c places.old.entries ++ placed (is_number c connection) place) }
{
    match connection {
        Some(connection) => note(alloc, places, connection, place),
        None => Ok(()),
    }
}

/// Notes one more place of a connection's lines.
fn note(
    alloc: Global,
    places: &mut BTreeMap<u32, Seq<usize>>,
    connection: u32,
    place: usize,
) -> Result<(), Memory>
    ensures { OnOk result ((c : ℕ) → places_at c places.new.entries ≡ places_at c places.old.entries ++ placed (c == connection) place) }
{
    let mut own = match places.remove(&connection) {
        Some(own) => own,
        None => Seq::new(alloc),
    };
    own.push(place)?;
    places.insert(connection, own)?;
    Ok(())
}

fn places_of(places: &BTreeMap<u32, Seq<usize>>, connection: u32) -> &[usize]
    ensures { result.now ≡ places_at connection places.now.entries }
{
    match places.get(&connection) {
        Some(own) => own.as_slice(),
        None => &[],
    }
}

/// The conversation of a connection whose lines stand at these places.
fn conversation_at(
    alloc: Global,
    lines: &[TranscriptLine],
    connection: u32,
    places: &[usize],
) -> Result<Conversation, Memory>
    ensures { IfOk result (λ found. found ≡ record { connection = connection; lines = filter_map (slice_get lines.now) places.now }) }
{
    let mut own = Seq::new(alloc);
    for place in places {
        add(alloc, lines, *place, &mut own)?;
    }
    Ok(Conversation {
        connection,
        lines: own,
    })
}

/// Adds a copy of the line at a place, if there is one.
fn add(
    alloc: Global,
    lines: &[TranscriptLine],
    place: usize,
    own: &mut Seq<TranscriptLine>,
) -> Result<(), Memory>
    ensures { OnOk result (own.new ≡ own.old ++ option_to_list (slice_get lines.now place)) }
{
    match lines.get(place) {
        Some(line) => own.push(copy_of(alloc, line)?),
        None => Ok(()),
    }
}

/// The connection that this line opens, if it opens one.
fn opened_by(line: &TranscriptLine) -> Option<u32>
    ensures { result ≡ opened_by line.now }
{
    match line {
        TranscriptLine::Open { connection, .. } => Some(*connection),
        TranscriptLine::Update(_) => None,
        TranscriptLine::Frame { .. } => None,
        TranscriptLine::Send { .. } => None,
        TranscriptLine::Lapse { .. } => None,
        TranscriptLine::Close { .. } => None,
    }
}

/// The connection whose line this is. None for an update and for a lapse.
fn connection_of(line: &TranscriptLine) -> Option<u32>
    ensures { (c : ℕ) → is_line_of c line.now ≡ is_number c result }
{
    match line {
        TranscriptLine::Open { connection, .. } => Some(*connection),
        TranscriptLine::Frame { connection, .. } => Some(*connection),
        TranscriptLine::Send { connection, .. } => Some(*connection),
        TranscriptLine::Close { connection, .. } => Some(*connection),
        TranscriptLine::Update(_) => None,
        TranscriptLine::Lapse { .. } => None,
    }
}

fn copy_of(alloc: Global, line: &TranscriptLine) -> Result<TranscriptLine, Memory>
    ensures { IfOk result (λ copy. copy ≡ line.now) }
{
    match line {
        TranscriptLine::Update(update) => Ok(TranscriptLine::Update(*update)),
        TranscriptLine::Open {
            connection,
            proxy,
            id,
            passwd,
            layout,
        } => Ok(TranscriptLine::Open {
            connection: *connection,
            proxy: *proxy,
            id: *id,
            passwd: *passwd,
            layout: *layout,
        }),
        TranscriptLine::Frame {
            connection,
            index,
            zxid,
            bytes,
        } => Ok(TranscriptLine::Frame {
            connection: *connection,
            index: *index,
            zxid: *zxid,
            bytes: Bytes::copy_of(alloc, bytes.as_slice())?,
        }),
        TranscriptLine::Send { connection, bytes } => Ok(TranscriptLine::Send {
            connection: *connection,
            bytes: Bytes::copy_of(alloc, bytes.as_slice())?,
        }),
        TranscriptLine::Lapse { revision, id } => Ok(TranscriptLine::Lapse {
            revision: *revision,
            id: *id,
        }),
        TranscriptLine::Close { connection, end } => Ok(TranscriptLine::Close {
            connection: *connection,
            end: copy_of_end(alloc, end)?,
        }),
    }
}

fn copy_of_end(alloc: Global, end: &Ended) -> Result<Ended, Memory>
    ensures { IfOk result (λ copy. copy ≡ end.now) }
{
    match end {
        Ended::Cause(cause) => Ok(Ended::Cause(copy_of_cause(alloc, cause)?)),
        Ended::Reaped { zxid } => Ok(Ended::Reaped { zxid: *zxid }),
        Ended::Kept { rev } => Ok(Ended::Kept { rev: *rev }),
        Ended::Gone { rev } => Ok(Ended::Gone { rev: *rev }),
    }
}

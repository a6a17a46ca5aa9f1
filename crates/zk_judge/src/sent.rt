//! Where the packets of each connection stand.

ghost use Rattle.std.specs.Prelude.{◌≡◌, ◌==◌, ◌≤◌, ◌++◌, ◌∷◌, [], ℕ, drop, length, slice_get, if◌then◌else◌, IfOk, MatchOption};
ghost use Rattle.zk_transcript.specs.Walks.{packets};
ghost use Rattle.zk_judge.specs.Sent.{AreSent, packets_in, places_in, sent_bytes, sent_from};

use std::alloc::Global;
use std::collections::BTreeMap;
use zk_transcript::TranscriptLine;
use zx_base::Memory;

/// For each connection the places of the packets that it was sent, in order.
#[derive(Drop)]
pub struct Sent {
    places: BTreeMap<u32, Vec<usize>>,
}

/// The bytes of the packet that the line at a place sends.
fn bytes_at(lines: &[TranscriptLine], place: usize) -> &[u8]
    ensures { result.now ≡ sent_bytes (slice_get lines.now place) }
{
    if lines.len() <= place {
        return &[];
    }
    match &lines[place] {
        TranscriptLine::Send { bytes, .. } => bytes.as_slice(),
        _ => &[],
    }
}

/// The places after the first ones, of which there are `taken`.
fn places_after(places: &[usize], taken: usize) -> &[usize]
    requires { taken ≤ length places.now }
    ensures { result.now ≡ drop taken places.now }
{
    &places[taken..]
}

/// Packets of a connection, in order. They stay in the lines that sent them.
#[derive(Clone, Copy)]
pub struct Packets<'a> {
    lines: &'a [TranscriptLine],
    /// The places of their lines.
    places: &'a [usize],
}

impl<'a> Packets<'a> {
    /// How many there are.
    pub fn len(self) -> usize
        ensures { result ≡ length (packets_in self.entry) }
    {
        self.places.len()
    }

    /// The first packet, by the place of its line and its bytes, and the others.
    pub fn split(self) -> Option<(usize, &'a [u8], Packets<'a>)>
        ensures { MatchOption result (packets_in self.entry ≡ []) (λ x. packets_in self.entry ≡ (x.0, x.1.now) ∷ packets_in x.2) }
    {
        match self.places {
            [] => None,
            [place, rest @ ..] => Some((
                *place,
                bytes_at(self.lines, *place),
                Packets {
                    lines: self.lines,
                    places: rest,
                },
            )),
        }
    }

    /// The packets after the first ones, of which there are `taken`.
    pub fn rest_after(self, taken: usize) -> Packets<'a>
        requires { taken ≤ length (packets_in self) }
        ensures { packets_in result ≡ drop taken (packets_in self.entry) }
    {
        Packets {
            lines: self.lines,
            places: places_after(self.places, taken),
        }
    }
}

impl Sent {
    /// Nothing was sent.
    fn new(alloc: Global) -> Sent
        ensures { (c : ℕ) → places_in result c ≡ [] }
    {
        Sent {
            places: BTreeMap::new(alloc),
        }
    }

    /// The table with one more packet, at a place after the others.
    fn noted(self, alloc: Global, connection: u32, place: usize) -> Result<Sent, Memory>
        ensures { IfOk result (λ s. (c : ℕ) → places_in s c ≡ (if connection == c then places_in self c ++ place ∷ [] else places_in self c)) }
    {
        let mut places = self.places;
        places
            .entry(connection)?
            .or_insert(Vec::new(alloc))
            .push(place)?;
        Ok(Sent { places })
    }

    /// The table with one more line, at a place after the others.
    fn with_line(self, alloc: Global, place: usize, line: &TranscriptLine) -> Result<Sent, Memory>
        ensures { IfOk result (λ s. (c : ℕ) → places_in s c ≡ places_in self c ++ sent_from c place (line.now ∷ [])) }
    {
        match line {
            TranscriptLine::Send { connection, .. } => self.noted(alloc, *connection, place),
            _ => Ok(self),
        }
    }

    /// Goes over the lines once.
    pub fn of(alloc: Global, lines: &[TranscriptLine]) -> Result<Sent, Memory>
        ensures { IfOk result (λ s. AreSent lines.now s) }
    {
        let mut sent = Sent::new(alloc);
        for (place, line) in lines.iter().enumerate() {
            sent = sent.with_line(alloc, place, line)?;
        }
        Ok(sent)
    }

    /// The packets of a connection; `lines` are the lines that the table was made of.
    pub fn packets_of<'a>(&'a self, lines: &'a [TranscriptLine], connection: u32) -> Packets<'a>
        requires { AreSent lines.now self.now }
        ensures { packets_in result ≡ packets connection lines.now }
    {
        match self.places.get(&connection) {
            Some(places) => Packets {
                lines,
                places: places.as_slice(),
            },
            None => Packets { lines, places: &[] },
        }
    }
}

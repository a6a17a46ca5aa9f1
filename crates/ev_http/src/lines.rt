//! The lines of a response that is a stream, as a watch's is.

ghost use Rattle.std.specs.Prelude.{◌≡◌, ◌≤◌, ◌<◌, ◌++◌, [], List, ℕ, length, IfSome, IfOk, IfErr, Some, Err, false};
ghost use Rattle.ev_http.specs.declared.taking.Tally.{Tally};
ghost use Rattle.ev_http.specs.declared.lines.State.TheVariants.{Head, Body, Refused};
ghost use Rattle.ev_http.specs.Taking.{Took, told, failed, is_read_fault};
ghost use Rattle.ev_http.specs.Stream.{IsAt, LineAnswer, FindsPart, FoundFeed, CutsLine, IsRefused, refusal_in, fault_of, ReadsLine};
ghost use Rattle.ev_http.specs.Messages.{HoldsResponse};

use crate::body::{MAX_BODY, Part, first_part, is_whole, take_part};
use crate::fault::HttpFault;
use crate::head::{Kind, take_head};
use crate::response::response_framing;
use crate::taking::Tally;
use std::alloc::Global;
use zx_base::Bytes;
use zx_outside::Source;

/// How far the response was read.
#[derive(Clone, Copy)]
enum State {
    Head,
    Body(Part),
    /// It cannot be read any further, for this reason.
    Refused(Refusal),
}

/// The lines of one response's body, given as they come in. It keeps its source for good.
#[derive(Drop)]
pub struct Lines<S> {
    source: S,
    alloc: Global,
    tally: Tally,
    state: State,
    /// What came of the head, of a chunk line or of trailer fields.
    line: Vec<u8>,
    /// What came of the body after the last line that was given.
    kept: Vec<u8>,
    /// How many of the kept bytes have no line feed.
    scanned: usize,
}

/// Why a response cannot be read any further.
#[derive(Clone, Copy)]
enum Refusal {
    Head,
    Status(u16),
    Body { place: u64 },
    TooLong { limit: u64 },
    Memory,
}

/// The refusal that a fault is, if any. After a fault that is none, the next call goes on where this one stopped.
fn refusal_in(fault: HttpFault) -> Option<Refusal>
    ensures { result ≡ refusal_in fault }
{
    match fault {
        HttpFault::Head => Some(Refusal::Head),
        HttpFault::Status(status) => Some(Refusal::Status(status)),
        HttpFault::Body { place } => Some(Refusal::Body { place }),
        HttpFault::TooLong { limit } => Some(Refusal::TooLong { limit }),
        HttpFault::Memory => Some(Refusal::Memory),
        HttpFault::Route
        | HttpFault::Ended { .. }
        | HttpFault::Idle
        | HttpFault::ReadFault
        | HttpFault::WriteFault => None,
    }
}

fn fault_of(refusal: Refusal) -> HttpFault
    ensures is { result ≡ fault_of refusal }
    ensures calm { is_read_fault result ≡ false }
{
    match refusal {
        Refusal::Head => HttpFault::Head,
        Refusal::Status(status) => HttpFault::Status(status),
        Refusal::Body { place } => HttpFault::Body { place },
        Refusal::TooLong { limit } => HttpFault::TooLong { limit },
        Refusal::Memory => HttpFault::Memory,
    }
}

/// The index of the first line feed at `from` or after it.
fn feed_from(bytes: &[u8], from: usize) -> Option<usize>
    ensures { FoundFeed result bytes.now from }
{
    for at in from..bytes.len() {
        if bytes[at] == b'\n' {
            return Some(at);
        }
    }
    None
}

impl<S: Source> Lines<S> {
    /// The lines of the response that the source gives next. Nothing is read yet.
    pub fn new(alloc: Global, source: S) -> Lines<S>
        ensures source { result.source ≡ source }
        ensures first { IsAt result (told S.given S.left S.counts S.ended S.name source) [] [] }
    {
        Lines {
            source,
            alloc,
            tally: Tally::new(),
            state: State::Head,
            line: Vec::new(alloc),
            kept: Vec::new(alloc),
            scanned: 0,
        }
    }

    /// The next line of the body, without its line feed, of at most 8,388,608 bytes. `Ended` says that no whole line is left,
    /// since the message or the source ended; bytes after the last line feed are not given. Where the source holds a whole
    /// response of status 200, the lines are those of its body in turn, and the only other faults are `TooLong`, at a line
    /// above the limit, and those of the source and of memory.
    ///
    /// After `Idle`, `ReadFault` and `Ended` the next call goes on where this one stopped; after any other fault it
    /// gives that fault again.
    pub fn next(&mut self) -> Result<Bytes, HttpFault>
        ensures line { (added : List ℕ)
            × Took added (failed result) (record { turns = 0; taken = self.old.tally.taken }) self.new.tally
            (told S.given S.left S.counts S.ended S.name self.old.source)
            (told S.given S.left S.counts S.ended S.name self.new.source)
            × ((taken given : List ℕ) → IsAt self.old (told S.given S.left S.counts S.ended S.name self.old.source) taken given
            → LineAnswer result self.new (told S.given S.left S.counts S.ended S.name self.new.source) (taken ++ added) given) }
        ensures refused { IfErr result (λ why. IfSome (refusal_in why) (λ refusal. IsRefused self.new why)) }
        ensures again { (why : HttpFault) → IsRefused self.old why → (result ≡ Err why) × (self.new.source ≡ self.old.source) }
        ensures reads { (taken given all body rest : List ℕ) → IsAt self.old (told S.given S.left S.counts S.ended S.name self.old.source) taken given
            → S.left self.old.source ≡ Some all → HoldsResponse body rest (taken ++ all) → ReadsLine result given body }
    {
        let line = self.take_next();
        line
    }

    /// The next line, or why there is none; a refusal is kept for the calls after this one.
    fn take_next(&mut self) -> Result<Bytes, HttpFault>
        ensures line { (added : List ℕ)
            × Took added (failed result) (record { turns = 0; taken = self.old.tally.taken }) self.new.tally
            (told S.given S.left S.counts S.ended S.name self.old.source)
            (told S.given S.left S.counts S.ended S.name self.new.source)
            × ((taken given : List ℕ) → IsAt self.old (told S.given S.left S.counts S.ended S.name self.old.source) taken given
            → LineAnswer result self.new (told S.given S.left S.counts S.ended S.name self.new.source) (taken ++ added) given) }
        ensures refused { IfErr result (λ why. IfSome (refusal_in why) (λ refusal. IsRefused self.new why)) }
        ensures again { (why : HttpFault) → IsRefused self.old why → (result ≡ Err why) × (self.new.source ≡ self.old.source) }
    {
        self.tally.turns = 0;
        match self.read_line() {
            Ok(line) => Ok(line),
            Err(fault) => {
                if let Some(refusal) = refusal_in(fault) {
                    self.state = State::Refused(refusal);
                }
                Err(fault)
            }
        }
    }

    /// The next line, whether or not the head was read before.
    fn read_line(&mut self) -> Result<Bytes, HttpFault>
        requires within { self.old.tally.turns ≤ 6000 }
        ensures line { (added : List ℕ)
            × Took added (failed result) self.old.tally self.new.tally
            (told S.given S.left S.counts S.ended S.name self.old.source)
            (told S.given S.left S.counts S.ended S.name self.new.source)
            × ((taken given : List ℕ) → IsAt self.old (told S.given S.left S.counts S.ended S.name self.old.source) taken given
            → LineAnswer result self.new (told S.given S.left S.counts S.ended S.name self.new.source) (taken ++ added) given) }
        ensures again { (refusal : Refusal) → self.old.state ≡ Refused refusal → (result ≡ Err (fault_of refusal)) × (self.new.source ≡ self.old.source) }
    {
        match self.part() {
            Ok(part) => self.line_from(part),
            Err(fault) => Err(fault),
        }
    }

    /// The next line, where this part of the body comes next.
    fn line_from(&mut self, part: Part) -> Result<Bytes, HttpFault>
        requires within { self.old.tally.turns ≤ 6000 }
        requires state { self.old.state ≡ Body part }
        ensures line { (added : List ℕ)
            × Took added (failed result) self.old.tally self.new.tally
            (told S.given S.left S.counts S.ended S.name self.old.source)
            (told S.given S.left S.counts S.ended S.name self.new.source)
            × ((taken given : List ℕ) → IsAt self.old (told S.given S.left S.counts S.ended S.name self.old.source) taken given
            → LineAnswer result self.new (told S.given S.left S.counts S.ended S.name self.new.source) (taken ++ added) given) }
    {
        let mut part = part;
        'parts: loop {
            if let Some(end) = feed_from(self.kept.as_slice(), self.scanned) {
                return self.cut(end);
            }
            self.scanned = self.kept.len();
            if self.scanned as u64 > MAX_BODY {
                return Err(HttpFault::TooLong { limit: MAX_BODY });
            }
            if is_whole(part) {
                return Err(HttpFault::Ended {
                    taken: self.tally.taken,
                });
            }
            match take_part(
                &mut self.source,
                &mut self.tally,
                part,
                &mut self.line,
                &mut self.kept,
            ) {
                Ok(next) => part = next,
                Err(fault) => return Err(fault),
            }
            self.state = State::Body(part);
        }
    }

    /// The part of the body that comes next, once the head is read.
    fn part(&mut self) -> Result<Part, HttpFault>
        requires within { self.old.tally.turns ≤ 6000 }
        ensures part { (added : List ℕ)
            × Took added (failed result) self.old.tally self.new.tally
            (told S.given S.left S.counts S.ended S.name self.old.source)
            (told S.given S.left S.counts S.ended S.name self.new.source)
            × ((taken given : List ℕ) → IsAt self.old (told S.given S.left S.counts S.ended S.name self.old.source) taken given
            → FindsPart result self.new.state self.new.line.items self.new.kept.items self.new.scanned self.new.tally (told S.given S.left S.counts S.ended S.name self.new.source) (taken ++ added) given) }
        ensures found { IfOk result (λ part. self.new.state ≡ Body part) }
        ensures again { (refusal : Refusal) → self.old.state ≡ Refused refusal → (result ≡ Err (fault_of refusal)) × (self.new.source ≡ self.old.source) }
    {
        match self.state {
            State::Refused(refusal) => Err(fault_of(refusal)),
            State::Body(part) => Ok(part),
            State::Head => self.read_head(),
        }
    }

    fn read_head(&mut self) -> Result<Part, HttpFault>
        requires within { self.old.tally.turns ≤ 6000 }
        requires head { self.old.state ≡ Head }
        ensures part { (added : List ℕ)
            × Took added (failed result) self.old.tally self.new.tally
            (told S.given S.left S.counts S.ended S.name self.old.source)
            (told S.given S.left S.counts S.ended S.name self.new.source)
            × ((taken given : List ℕ) → IsAt self.old (told S.given S.left S.counts S.ended S.name self.old.source) taken given
            → FindsPart result self.new.state self.new.line.items self.new.kept.items self.new.scanned self.new.tally (told S.given S.left S.counts S.ended S.name self.new.source) (taken ++ added) given) }
        ensures found { IfOk result (λ part. self.new.state ≡ Body part) }
    {
        match take_head(
            &mut self.source,
            &mut self.tally,
            Kind::Response,
            &mut self.line,
        ) {
            Ok(()) => {
                let framing = match response_framing(self.line.as_slice()) {
                    Ok(framing) => framing,
                    Err(fault) => return Err(fault),
                };
                let part = first_part(framing, self.tally.taken);
                self.line.clear();
                self.state = State::Body(part);
                Ok(part)
            }
            Err(fault) => Err(fault),
        }
    }

    /// Gives the kept bytes up to the line feed at `end`, and keeps those after it.
    fn cut(&mut self, end: usize) -> Result<Bytes, HttpFault>
        requires { end < length self.old.kept.items }
        ensures cut { CutsLine result self.old.kept.items self.new.kept.items self.new.scanned end }
        ensures source { self.new.source ≡ self.old.source }
        ensures tally { self.new.tally ≡ self.old.tally }
        ensures state { self.new.state ≡ self.old.state }
        ensures line { self.new.line.items ≡ self.old.line.items }
        ensures calm { IfErr result (λ e. is_read_fault e ≡ false) }
    {
        if end as u64 > MAX_BODY {
            return Err(HttpFault::TooLong { limit: MAX_BODY });
        }
        let Ok(rest) = Vec::from_slice(self.alloc, &self.kept[end + 1..]) else {
            return Err(HttpFault::Memory);
        };
        let mut line = std::mem::replace(&mut self.kept, rest);
        line.truncate(end);
        self.scanned = 0;
        Ok(Bytes::from_vec(line))
    }
}

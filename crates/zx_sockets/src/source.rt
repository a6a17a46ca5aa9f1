//! What comes from a peer over TCP.

ghost use Rattle.std.specs.Prelude.{◌≡◌, ◌≤◌, ◌<◌, ◌-◌, true, false, None, length, take, vec_len, IfOk};
ghost use Rattle.zx_outside.specs.Reading.{EndsForGood, FitsBuffer, HasNoFeed, counts_after_read};
ghost use Rattle.zx_outside.specs.declared.source.Got.TheVariants.{Failed as GotFailed};
ghost use Rattle.zx_sockets.specs.Refilling.{Refilled};
ghost use Rattle.zx_sockets.specs.Silence.{IsPatience, IsPatienceOf};

use crate::bell::{Ear, SocketBell};
use crate::patience::Patience;
use crate::waits::{ANSWER_WAIT, begins, owe, takes_turn};
use std::alloc::{AllocError, Global};
use std::io::Read;
use std::net::{Net as SystemNet, Shutdown, TcpStream};
use std::sync::Arc;
use std::thread;
use std::time::{Clock as SystemClock, Duration};
use zx_net::Wakes;
use zx_outside::{Got, Source, judge};
use zx_random::HangsUp;

/// How many bytes are asked of the system at once.
const ROOM: usize = 8192;

/// So many reads at most take what nobody will read of a stream that is ended.
const MOST_DRAINED: u32 = 1024;

/// Without a bell, so many reads in a row that give bytes are followed by an idle turn.
const MOST_IN_A_ROW: u32 = 100;

/// Without a bell, the wait before the end is answered again, in milliseconds.
const END_WAIT: u64 = 10;

/// The source end of a TCP stream.
#[derive(Drop)]
pub struct SocketSource<R> {
    rt: R,
    alloc: Global,
    /// `None` once the stream was ended here.
    stream: Option<Arc<TcpStream>>,
    room: Vec<u8>,
    at: usize,
    end: usize,
    ended: bool,
    faults: u64,
    idles: u64,
    name: u64,
    /// How many reads of the system in a row gave bytes, at most 2^32 - 1.
    row: u32,
    /// How long the peer may say nothing; `None`: for ever.
    patience: Option<Patience>,
    ear: Option<Ear>,
    /// How many idle turns of the last wait are still to be answered; `None`: a read waits for one turn alone.
    owed: Option<u64>,
    ghost kept: { at ≤ end },
    ghost fits: { end ≤ vec_len room },
    ghost over: { ended ≡ true → at ≡ end },
}

/// Asks the system for bytes once. It is a fault to ask where the stream was ended here.
fn ask(stream: &Option<Arc<TcpStream>>, room: &mut [u8]) -> Got
    ensures size { FitsBuffer result (length room.new) }
    ensures ended { stream.now ≡ None → result ≡ GotFailed }
{
    let Some(stream) = stream else {
        return Got::Failed;
    };
    let mut stream: &TcpStream = stream;
    judge(stream.read(room))
}

/// Takes what the peer has sent and nobody will read. A stream that is closed over bytes that were not read is reset, and the peer may
/// lose what was written to it before (RFC 1122, 4.2.2.13).
fn drain(stream: &TcpStream, room: &mut [u8]) {
    // Where the system does not set it, the last read waits its time.
    let _is_set = stream.set_nonblocking(true);
    let mut stream = stream;
    for _ in 0..MOST_DRAINED {
        match judge(stream.read(room)) {
            Got::Bytes(_) => {}
            Got::End | Got::Nothing | Got::Failed => return,
        }
    }
}

/// Whether the peer has said nothing for too long.
fn is_over<R: SystemClock>(rt: &R, patience: &Option<Patience>) -> bool {
    match patience {
        None => false,
        Some(patience) => patience.is_over(rt),
    }
}

/// Whether what has to come first took too long.
fn is_late<R: SystemClock>(rt: &R, patience: &Option<Patience>) -> bool {
    match patience {
        None => false,
        Some(patience) => patience.is_late(rt),
    }
}

/// The patience after so many bytes came.
fn patience_after<R: SystemClock>(
    rt: &R,
    patience: &Option<Patience>,
    count: usize,
) -> Option<Patience>
    ensures { IsPatience count patience.now result }
{
    match patience {
        None => None,
        Some(patience) => patience.after(rt, count),
    }
}

/// Waits for a byte or the bell where there is one, and says whether it is worth reading now.
fn hears(ear: &mut Option<Ear>) -> bool {
    match ear {
        None => true,
        Some(ear) => ear.hears(),
    }
}

/// Whether an idle turn is due, whatever the peer sends, after so many reads in a row that gave bytes.
fn is_due(ear: &Option<Ear>, row: u32) -> bool {
    match ear {
        None => row >= MOST_IN_A_ROW,
        Some(ear) => ear.was_rung(),
    }
}

/// Waits for the bell, or a moment where there is none.
fn rest<R: SystemClock>(rt: &R, ear: &mut Option<Ear>) {
    match ear {
        None => thread::sleep(rt, Duration::from_millis(END_WAIT)),
        Some(ear) => ear.rest(),
    }
}

/// Notes whether the last read took all that there was.
fn note(ear: &mut Option<Ear>, is_drained: bool) {
    if let Some(ear) = ear {
        ear.note(is_drained);
    }
}

/// Copies the bytes to the front of a buffer, up to the first line feed, which is copied too; how many.
fn copy_line(buf: &mut [u8], bytes: &[u8]) -> usize
    requires some { 0 < length bytes.now }
    requires room { length bytes.now ≤ length buf.old }
    ensures some { 0 < result }
    ensures within { result ≤ length bytes.now }
    ensures feed { HasNoFeed (take (result - 1) buf.new) }
{
    let count = match bytes.iter().position(|byte| *byte == b'\n') {
        Some(at) => at + 1,
        None => bytes.len(),
    };
    buf[..count].copy_from_slice(&bytes[..count]);
    count
}

impl<R: SystemClock + Copy> SocketSource<R> {
    /// The source end of this stream, under a name. A peer that says nothing for too long is a fault.
    pub fn new(
        rt: R,
        alloc: Global,
        stream: Arc<TcpStream>,
        name: u64,
        patience: Option<Patience>,
    ) -> Result<SocketSource<R>, AllocError>
        ensures new { IfOk result (λ source. (source.ended ≡ false) × (source.faults ≡ 0) × (source.idles ≡ 0) × (source.name ≡ name)) }
        ensures patience { IfOk result (λ source. source.patience ≡ patience) }
    {
        let room = vec![in alloc; 0u8; ROOM]?;
        Ok(SocketSource {
            rt,
            alloc,
            stream: Some(stream),
            room,
            at: 0,
            end: 0,
            ended: false,
            faults: 0,
            idles: 0,
            name,
            row: 0,
            patience,
            ear: None,
            owed: None,
        })
    }

    /// The same source, but each read waits up to a second for a byte, where the system lets it.
    pub fn waiting_long(mut self) -> SocketSource<R>
        ensures counts { (result.faults ≡ self.faults) × (result.idles ≡ self.idles) }
        ensures ended { result.ended ≡ self.ended }
        ensures named { result.name ≡ self.name }
        ensures patience { result.patience ≡ self.patience }
    {
        let wait = Some(Duration::from_millis(ANSWER_WAIT));
        if let Some(stream) = &self.stream {
            if stream.set_read_timeout(wait).is_ok() {
                self.owed = Some(0);
            }
        }
        self
    }

    /// Counts a fault.
    fn fail(&mut self) -> Got
        requires empty { self.old.at ≡ self.old.end }
        requires open { self.old.ended ≡ false }
        ensures filled { Refilled result self.new.at self.new.end }
        ensures counts { record { faults = self.new.faults; idles = self.new.idles } ≡ counts_after_read result (record { faults = self.old.faults; idles = self.old.idles }) }
        ensures end { EndsForGood result self.old.ended self.new.ended }
        ensures named { self.new.name ≡ self.old.name }
        ensures patience { IsPatienceOf result self.old.patience self.new.patience }
        ensures failed { result ≡ GotFailed }
    {
        self.faults = self.faults.saturating_add(1);
        Got::Failed
    }

    /// Counts an idle turn.
    fn idle_turn(&mut self) -> Got
        requires empty { self.old.at ≡ self.old.end }
        requires open { self.old.ended ≡ false }
        ensures filled { Refilled result self.new.at self.new.end }
        ensures counts { record { faults = self.new.faults; idles = self.new.idles } ≡ counts_after_read result (record { faults = self.old.faults; idles = self.old.idles }) }
        ensures end { EndsForGood result self.old.ended self.new.ended }
        ensures named { self.new.name ≡ self.old.name }
        ensures patience { IsPatienceOf result self.old.patience self.new.patience }
    {
        self.row = 0;
        self.idles = self.idles.saturating_add(1);
        Got::Nothing
    }

    /// Counts a turn in which no byte came: an idle turn, or a fault where the peer has said nothing for too long.
    fn pass_turn(&mut self) -> Got
        requires empty { self.old.at ≡ self.old.end }
        requires open { self.old.ended ≡ false }
        ensures filled { Refilled result self.new.at self.new.end }
        ensures counts { record { faults = self.new.faults; idles = self.new.idles } ≡ counts_after_read result (record { faults = self.old.faults; idles = self.old.idles }) }
        ensures end { EndsForGood result self.old.ended self.new.ended }
        ensures named { self.new.name ≡ self.old.name }
        ensures patience { IsPatienceOf result self.old.patience self.new.patience }
    {
        if is_over(&self.rt, &self.patience) {
            return self.fail();
        }
        self.idle_turn()
    }

    /// Asks the system for bytes once. Where the peer has ended it waits instead, and where an idle turn is due it does neither:
    /// nobody knows then whether the peer has said something.
    fn refill(&mut self) -> Got
        requires { self.old.at ≡ self.old.end }
        ensures filled { Refilled result self.new.at self.new.end }
        ensures counts { record { faults = self.new.faults; idles = self.new.idles } ≡ counts_after_read result (record { faults = self.old.faults; idles = self.old.idles }) }
        ensures end { EndsForGood result self.old.ended self.new.ended }
        ensures named { self.new.name ≡ self.old.name }
        ensures patience { IsPatienceOf result self.old.patience self.new.patience }
        ensures over { self.old.stream ≡ None → self.old.ended ≡ false → result ≡ GotFailed }
    {
        if self.ended {
            rest(&self.rt, &mut self.ear);
            return Got::End;
        }
        if self.stream.is_none() {
            return self.fail();
        }
        if is_due(&self.ear, self.row) {
            return self.idle_turn();
        }
        if takes_turn(&mut self.owed) {
            return self.pass_turn();
        }
        if !hears(&mut self.ear) {
            return self.pass_turn();
        }
        let began = begins(&self.rt, &self.owed);
        let answer = ask(&self.stream, self.room.as_mut_slice());
        match answer {
            Got::Bytes(count) => {
                let patience = patience_after(&self.rt, &self.patience, count);
                if is_late(&self.rt, &patience) {
                    return self.fail();
                }
                self.patience = patience;
                self.at = 0;
                self.end = count;
                self.row = self.row.saturating_add(1);
                note(&mut self.ear, count < self.room.len());
                answer
            }
            Got::Nothing => {
                note(&mut self.ear, true);
                owe(&self.rt, &mut self.owed, began);
                self.pass_turn()
            }
            Got::End => {
                self.ended = true;
                answer
            }
            Got::Failed => self.fail(),
        }
    }
}

impl<R: SystemClock + Copy> Source for SocketSource<R> {
    ghost use Rattle.std.specs.Prelude.{◌≡◌, ◌<◌, length, None};
    ghost use Rattle.zx_outside.specs.Reading.{FitsBuffer, Reads, EndsForGood, StopsAtFeed, counts_after_read};

    ghost given = { λ _. None };

    ghost left = { λ _. None };

    ghost counts = { λ s. record { faults = s.faults; idles = s.idles } };

    ghost ended = { λ s. s.ended };

    ghost name = { λ s. s.name };

    fn read(&mut self, buf: &mut [u8]) -> Got
        requires { 0 < length buf.old }
        ensures size { FitsBuffer result (length buf.new) }
        ensures bytes { Reads result buf.new None None None None }
        ensures counts { record { faults = self.new.faults; idles = self.new.idles } ≡ counts_after_read result (record { faults = self.old.faults; idles = self.old.idles }) }
        ensures end { EndsForGood result self.old.ended self.new.ended }
        ensures named { self.new.name ≡ self.old.name }
    {
        if self.at == self.end {
            match self.refill() {
                Got::Bytes(_) => {}
                other => return other,
            }
        }
        let count = buf.len().min(self.end - self.at);
        let from = self.at;
        buf[..count].copy_from_slice(&self.room.as_slice()[from..from + count]);
        self.at += count;
        Got::Bytes(count)
    }

    fn read_line(&mut self, buf: &mut [u8]) -> Got
        requires { 0 < length buf.old }
        ensures size { FitsBuffer result (length buf.new) }
        ensures bytes { Reads result buf.new None None None None }
        ensures feed { StopsAtFeed result buf.new }
        ensures counts { record { faults = self.new.faults; idles = self.new.idles } ≡ counts_after_read result (record { faults = self.old.faults; idles = self.old.idles }) }
        ensures end { EndsForGood result self.old.ended self.new.ended }
        ensures named { self.new.name ≡ self.old.name }
    {
        if self.at == self.end {
            match self.refill() {
                Got::Bytes(_) => {}
                other => return other,
            }
        }
        let most = buf.len().min(self.end - self.at);
        let from = self.at;
        let count = copy_line(buf, &self.room.as_slice()[from..from + most]);
        self.at += count;
        Got::Bytes(count)
    }
}

impl<R: SystemClock + SystemNet + Copy> Wakes for SocketSource<R> {
    type Bell = SocketBell;

    fn bell(&mut self) -> Option<Arc<SocketBell>> {
        let Some(stream) = &self.stream else {
            return None;
        };
        let (ear, bell) = Ear::new(&self.rt, self.alloc, stream)?;
        self.ear = Some(ear);
        Some(bell)
    }
}

impl<R: SystemClock + Copy> HangsUp for SocketSource<R> {
    ghost use Rattle.std.specs.Prelude.{◌≡◌, None};

    fn hang_up(&mut self)
        ensures faults { self.new.faults ≡ self.old.faults }
        ensures idles { self.new.idles ≡ self.old.idles }
        ensures ended { self.new.ended ≡ self.old.ended }
        ensures named { self.new.name ≡ self.old.name }
        ensures gone { (self.new.stream ≡ None) × (self.new.ear ≡ None) × (self.new.at ≡ self.new.end) }
    {
        self.at = self.end;
        self.ear = None;
        if let Some(stream) = &self.stream {
            drain(stream, self.room.as_mut_slice());
            // A stream that the peer has ended already cannot be ended again.
            let _over = stream.shutdown(Shutdown::Both);
        }
        self.stream = None;
    }
}

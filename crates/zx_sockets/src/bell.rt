//! What wakes a reader that waits for its peer.

use mio::unix::SourceFd;
use mio::{Events, Interest, Poll, Token, Waker};
use std::alloc::Global;
use std::net::{Net as SystemNet, TcpStream};
use std::os::fd::AsRawFd;
use std::sync::Arc;
use std::sync::atomic::{AtomicBool, AtomicU64, Ordering};
use std::time::Duration;
use zx_net::Bell;

/// The events of the peer's bytes.
const PEER: Token = Token(0);

/// The events of the bell.
const BELL: Token = Token(1);

/// The longest wait for a byte or the bell, in milliseconds.
const LONGEST_WAIT: u64 = 1000;

/// Wakes the reader of one stream.
#[derive(Drop)]
pub struct SocketBell {
    waker: Waker,
    /// The bits of which one is to wake it; none once it was woken.
    asked: AtomicU64,
    /// It was rung for its reader, or was just hung; and no idle turn came since.
    is_rung: AtomicBool,
}

impl SocketBell {
    /// Whether an idle turn is due. The caller answers one, which is after each ring so far.
    fn was_rung(&self) -> bool {
        self.is_rung.swap(false, Ordering::SeqCst)
    }
}

impl Bell for SocketBell {
    fn arm(&self, bits: u64) {
        self.asked.store(bits, Ordering::SeqCst);
    }

    fn ring(&self, bits: u64) {
        let asked = self.asked.load(Ordering::SeqCst);
        if bits & asked == 0 && bits != u64::MAX && asked != u64::MAX {
            return;
        }
        self.is_rung.store(true, Ordering::SeqCst);
        if self.asked.swap(0, Ordering::SeqCst) != 0 {
            let _ = self.waker.wake();
        }
    }
}

/// Waits for bytes of the peer and for the bell at once.
#[derive(Drop)]
pub struct Ear {
    poll: Poll,
    events: Events,
    bell: Arc<SocketBell, Global>,
    /// The system reported a change of the stream only if it came after the last read found nothing more.
    is_drained: bool,
    /// The peer sends no more, or the stream broke: a read answers at once.
    is_closing: bool,
}

impl Ear {
    /// An ear for this stream, and its bell; `None` where the system refuses one, or memory.
    pub fn new<R: SystemNet>(
        rt: &R,
        alloc: Global,
        stream: &TcpStream,
    ) -> Option<(Ear, Arc<SocketBell, Global>)> {
        let poll = Poll::new(rt).ok()?;
        let waker = Waker::new(poll.registry(), BELL).ok()?;
        let fd = stream.as_raw_fd();
        poll.registry()
            .register(&mut SourceFd(&fd), PEER, Interest::READABLE)
            .ok()?;
        let events = Events::with_capacity(alloc, 4).ok()?;
        // Who hangs a bell may have missed the rings before.
        let bell = SocketBell {
            waker,
            asked: AtomicU64::new(0),
            is_rung: AtomicBool::new(true),
        };
        let bell = Arc::new(alloc, bell).ok()?;
        let ear = Ear {
            poll,
            events,
            bell: Arc::try_clone(&bell).ok()?,
            is_drained: false,
            is_closing: false,
        };
        Some((ear, bell))
    }

    /// Whether the bell was rung since the last idle turn, so that the next one is due.
    pub fn was_rung(&self) -> bool {
        self.bell.was_rung()
    }

    /// Waits for a byte or the bell, and says whether it is worth reading now.
    pub fn hears(&mut self) -> bool {
        if !self.is_drained || self.is_closing {
            return true;
        }
        if self
            .poll
            .poll(&mut self.events, Some(Duration::from_millis(LONGEST_WAIT)))
            .is_err()
        {
            return true;
        }
        let mut hears = false;
        for event in self.events.iter() {
            if event.token() == PEER {
                hears = true;
                self.is_closing = event.is_read_closed() || event.is_error();
            }
        }
        if !hears {
            // The idle turn that follows is the one that was due.
            let _due = self.was_rung();
        }
        hears
    }

    /// Waits for the bell, where the peer has ended.
    pub fn rest(&mut self) {
        if !self.was_rung() {
            let longest = Duration::from_millis(LONGEST_WAIT);
            let _woken = self.poll.poll(&mut self.events, Some(longest));
        }
    }

    /// Notes whether the last read took all that there was.
    pub fn note(&mut self, is_drained: bool) {
        self.is_drained = is_drained;
    }
}

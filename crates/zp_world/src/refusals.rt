//! Why a line of a script is refused: the first of its tests that fails.

ghost use Rattle.std.specs.Prelude.{◌≡◌, nat_lt, is_some, is_none, Some, None, not};
ghost use Rattle.zk_model.specs.Limits.{max_frame};
ghost use Rattle.zp_script.specs.Entries.{cursor_at, next_entry, is_lagging};
ghost use Rattle.zp_script.specs.Faults.{new_fault, open_fault, connection_fault, carry_fault, ask_fault, entry_fault, if_fails, has_part, flight_at, is_to_carry_out, left_at};
ghost use Rattle.zp_script.specs.Worlds.{conn_at};

use crate::world::World;
use zk_model::limit::MAX_FRAME;
use zp_script::Flight;
use zt_text::Why;

/// A connection lags where more entries than this follow its cursor (`max_kept` of `zn_layout`).
pub(crate) const MAX_KEPT: u64 = 4_096;

impl World {
    /// Why a line that begins a connection or a reaper is refused: the number was used before.
    pub(crate) fn new_why(&self, number: u32) -> Option<Why>
        ensures { result ≡ new_fault number self.now None }
    {
        match self.activities.get(number) {
            Some(_) => Some(Why::NumberInUse),
            None => None,
        }
    }

    /// Why a line about a connection or a reaper is refused: there is none of this number, or it is closed.
    pub(crate) fn open_why(&self, number: u32) -> Option<Why>
        ensures { result ≡ open_fault number self.now None }
    {
        match self.activities.get(number) {
            None => Some(Why::NoSuchConnection),
            Some(slot) if slot.is_closed() => Some(Why::ConnectionClosed),
            Some(_) => None,
        }
    }

    /// Why a line about a connection is refused: there is none of this number, it is closed, or it is a reaper.
    pub(crate) fn connection_why(&self, number: u32) -> Option<Why>
        ensures { result ≡ connection_fault number self.now None }
    {
        match self.activities.get(number) {
            None => Some(Why::NoSuchConnection),
            Some(slot) if slot.is_closed() => Some(Why::ConnectionClosed),
            Some(slot) if slot.is_reaper() => Some(Why::NotAConnection),
            Some(_) => None,
        }
    }

    /// Why a whole frame of `size` bytes, its length left out, is refused.
    pub(crate) fn frame_why(&self, number: u32, size: usize) -> Option<Why>
        ensures { result ≡ connection_fault number self.now (if_fails (has_part (conn_at number self.now)) Why.FrameOpen (if_fails (nat_lt max_frame size) Why.TooLong None)) }
    {
        if let Some(why) = self.connection_why(number) {
            return Some(why);
        }
        match self.activities.get(number) {
            Some(slot) if slot.has_part() => Some(Why::FrameOpen),
            Some(_) | None => {
                if MAX_FRAME < size {
                    Some(Why::TooLong)
                } else {
                    None
                }
            }
        }
    }

    /// Why a line about an ask is refused: nothing open has this number, or it has asked nothing that is not answered.
    pub(crate) fn ask_why(&self, number: u32) -> Option<Why>
        ensures { result ≡ ask_fault number self.now None }
    {
        match self.activities.get(number) {
            None => Some(Why::NoSuchConnection),
            Some(slot) if slot.is_closed() => Some(Why::ConnectionClosed),
            Some(slot) => match slot.flight() {
                None => Some(Why::NoRequestOut),
                Some(_) => None,
            },
        }
    }

    /// Why an ask is not carried out: there is none, or it was carried out already.
    pub(crate) fn carry_why(&self, number: u32) -> Option<Why>
        ensures { result ≡ carry_fault number self.now }
    {
        match self.activities.get(number) {
            None => Some(Why::NoSuchConnection),
            Some(slot) if slot.is_closed() => Some(Why::ConnectionClosed),
            Some(slot) => match slot.flight() {
                None => Some(Why::NoRequestOut),
                Some(Flight::Out(_)) => None,
                Some(Flight::Carried(_) | Flight::Denied) => Some(Why::AlreadyCarriedOut),
            },
        }
    }

    /// Why no answer is delivered: nothing was asked, or it is not carried out yet.
    pub(crate) fn answer_why(&self, number: u32) -> Option<Why>
        ensures { result ≡ ask_fault number self.now (if_fails (is_to_carry_out (flight_at number self.now)) Why.NotCarriedOut None) }
    {
        match self.activities.get(number) {
            None => Some(Why::NoSuchConnection),
            Some(slot) if slot.is_closed() => Some(Why::ConnectionClosed),
            Some(slot) => match slot.flight() {
                None => Some(Why::NoRequestOut),
                Some(Flight::Out(_)) => Some(Why::NotCarriedOut),
                Some(Flight::Carried(_) | Flight::Denied) => None,
            },
        }
    }

    /// Why no stray is carried out: there is none of this number, or it was carried out before.
    pub(crate) fn stray_why(&self, number: u32) -> Option<Why>
        ensures { result ≡ if_fails (is_none (left_at number self.now.strays)) Why.NoSuchStray None }
    {
        if self.strays.has(number) {
            None
        } else {
            Some(Why::NoSuchStray)
        }
    }

    /// Whether there is an entry that a connection can take next.
    pub(crate) fn has_entry(&self, number: u32) -> bool
        ensures { result ≡ is_some (next_entry number self.now) }
    {
        let Some(cursor) = self.cursor_of(number) else {
            return false;
        };
        match usize::try_from(cursor) {
            Ok(place) => place < self.entries.len(),
            Err(_) => false,
        }
    }

    /// The number of the last entry that a connection took, where it waits for the next one.
    pub(crate) fn cursor_of(&self, number: u32) -> Option<i64>
        ensures { result ≡ cursor_at number self.now }
    {
        match self.activities.get(number) {
            Some(slot) => slot.cursor(),
            None => None,
        }
    }

    /// Whether a connection or a reaper has asked something that is not answered.
    fn has_flight(&self, number: u32) -> bool
        ensures { result ≡ is_some (flight_at number self.now) }
    {
        match self.activities.get(number) {
            Some(slot) => slot.flight().is_some(),
            None => false,
        }
    }

    /// Why no entry is taken: there is no such connection, an answer has to come first, or there is no entry.
    pub(crate) fn entry_why(&self, number: u32) -> Option<Why>
        ensures { result ≡ entry_fault number self.now None }
    {
        match self.connection_why(number) {
            Some(why) => Some(why),
            None => {
                if self.has_flight(number) {
                    Some(Why::RequestOut)
                } else if self.has_entry(number) {
                    None
                } else {
                    Some(Why::NoEntry)
                }
            }
        }
    }

    /// Why a connection is not told that it lags: it can take no entry, or no more than [`MAX_KEPT`] follow its cursor.
    pub(crate) fn lag_why(&self, number: u32) -> Option<Why>
        ensures { result ≡ entry_fault number self.now (if_fails (not (is_lagging number self.now)) Why.NoLag None) }
    {
        match self.entry_why(number) {
            Some(why) => Some(why),
            None => {
                if self.is_lagging(number) {
                    None
                } else {
                    Some(Why::NoLag)
                }
            }
        }
    }

    /// Whether more than [`MAX_KEPT`] entries follow the cursor.
    fn is_lagging(&self, number: u32) -> bool
        ensures { result ≡ is_lagging number self.now }
    {
        let Some(cursor) = self.cursor_of(number) else {
            return false;
        };
        let last = self.entries.len() as u64;
        match u64::try_from(cursor) {
            Ok(cursor) => cursor + MAX_KEPT < last,
            Err(_) => match u64::try_from(cursor + MAX_KEPT as i64) {
                Ok(floor) => floor < last,
                Err(_) => true,
            },
        }
    }
}

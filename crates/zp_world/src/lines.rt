//! Each line of a script: its tests, and what it does.

ghost use Rattle.std.specs.Prelude.{◌≡◌, ◌≤ℤ◌, ℤ, pos, not, Some};
ghost use Rattle.ev_store.specs.FirstDenial.{lapse_denial};
ghost use Rattle.ev_types.specs.Denials.{has_lease};
ghost use Rattle.ev_types.specs.Lapses.{leased_keys, removals};
ghost use Rattle.ev_types.specs.Store.{Store as AnyStore};
ghost use Rattle.zt_text.specs.declared.script.Happening.TheVariants as line;
ghost use Rattle.zp_script.specs.Faults.{full_fault, if_fails, is_kept_key};
ghost use Rattle.zp_world.specs.Applying.{Applies};

use crate::fault::{ApplyFault, refused};
use crate::world::World;
use ev_store::{Denied, StoreFault};
use zk_model::limit::MAX_TIME;
use zk_service::Fresh;
use zk_transcript::TranscriptLine;
use zn_layout::FRONT;
use zt_text::Why;
use zx_base::Bytes;

impl World {
    pub(crate) fn open_line(
        &mut self,
        connection: u32,
        proxy: u32,
        fresh: Fresh,
    ) -> Result<(), ApplyFault>
        requires { pos 1 ≤ℤ fresh.id }
        ensures { Applies self.old (line.Open connection proxy fresh.id fresh.passwd fresh.layout) result self.new }
    {
        match self.new_why(connection) {
            Some(why) => Err(refused(why)),
            None => {
                self.open(connection, proxy, fresh)?;
                Ok(())
            }
        }
    }

    pub(crate) fn frame_line(&mut self, connection: u32, bytes: Bytes) -> Result<(), ApplyFault>
        ensures { Applies self.old (line.Frame connection bytes) result self.new }
    {
        match self.frame_why(connection, bytes.len()) {
            Some(why) => Err(refused(why)),
            None => {
                let Some(slot) = self.activities.get(connection) else {
                    return Err(refused(Why::NoSuchConnection));
                };
                let cut = slot.framed(self.alloc, bytes)?;
                self.arrive(connection, cut)?;
                Ok(())
            }
        }
    }

    pub(crate) fn bytes_line(&mut self, connection: u32, bytes: Bytes) -> Result<(), ApplyFault>
        ensures { Applies self.old (line.Arrive connection bytes) result self.new }
    {
        match self.connection_why(connection) {
            Some(why) => Err(refused(why)),
            None => {
                self.receive(connection, bytes.as_slice())?;
                Ok(())
            }
        }
    }

    pub(crate) fn exec_line(&mut self, connection: u32) -> Result<(), ApplyFault>
        ensures { Applies self.old (line.Exec connection) result self.new }
    {
        match self.carry_why(connection) {
            Some(why) => Err(refused(why)),
            None => {
                self.execute(connection)?;
                Ok(())
            }
        }
    }

    pub(crate) fn answer_line(&mut self, connection: u32) -> Result<(), ApplyFault>
        ensures { Applies self.old (line.Answer connection) result self.new }
    {
        match self.answer_why(connection) {
            Some(why) => Err(refused(why)),
            None => {
                self.deliver(connection)?;
                Ok(())
            }
        }
    }

    pub(crate) fn cut_line(&mut self, connection: u32) -> Result<(), ApplyFault>
        ensures { Applies self.old (line.Cut connection) result self.new }
    {
        match self.ask_why(connection) {
            Some(why) => Err(refused(why)),
            None => {
                self.fail(connection)?;
                Ok(())
            }
        }
    }

    pub(crate) fn refuse_line(&mut self, connection: u32) -> Result<(), ApplyFault>
        ensures { Applies self.old (line.Refuse connection) result self.new }
    {
        match self.carry_why(connection) {
            Some(why) => Err(refused(why)),
            None => {
                self.refuse(connection)?;
                Ok(())
            }
        }
    }

    pub(crate) fn stray_line(&mut self, number: u32) -> Result<(), ApplyFault>
        ensures { Applies self.old (line.Stray number) result self.new }
    {
        match self.stray_why(number) {
            Some(why) => Err(refused(why)),
            None => {
                self.execute_stray(number)?;
                Ok(())
            }
        }
    }

    pub(crate) fn entry_line(&mut self, connection: u32) -> Result<(), ApplyFault>
        ensures { Applies self.old (line.Entry connection) result self.new }
    {
        match self.entry_why(connection) {
            Some(why) => Err(refused(why)),
            None => {
                self.enter(connection)?;
                Ok(())
            }
        }
    }

    pub(crate) fn lag_line(&mut self, connection: u32) -> Result<(), ApplyFault>
        ensures { Applies self.old (line.Lag connection) result self.new }
    {
        match self.lag_why(connection) {
            Some(why) => Err(refused(why)),
            None => {
                self.lag(connection)?;
                Ok(())
            }
        }
    }

    pub(crate) fn end_line(&mut self, connection: u32) -> Result<(), ApplyFault>
        ensures { Applies self.old (line.End connection) result self.new }
    {
        match self.connection_why(connection) {
            Some(why) => Err(refused(why)),
            None => {
                self.end(connection)?;
                Ok(())
            }
        }
    }

    pub(crate) fn restart_line(&mut self, proxy: u32) -> Result<(), ApplyFault>
        ensures { Applies self.old (line.Restart proxy) result self.new }
    {
        self.restart(proxy)?;
        Ok(())
    }

    pub(crate) fn lapse_line(&mut self, id: i64) -> Result<(), ApplyFault>
        ensures { Applies self.old (line.Lapse id) result self.new }
    {
        let zxid = self.zxid;
        self.zxid = None;
        match self.store.lapse(id) {
            Ok(revision) => {
                self.transcript
                    .push(TranscriptLine::Lapse { revision, id })?;
                Ok(())
            }
            Err(StoreFault::Denied(denied)) => {
                self.zxid = zxid;
                Err(refused(lapse_why(&denied)))
            }
            Err(StoreFault::Memory) => Err(ApplyFault::Memory),
        }
    }

    pub(crate) fn foreign_line(&mut self, key: Bytes, value: Bytes) -> Result<(), ApplyFault>
        ensures { Applies self.old (line.Foreign key value) result self.new }
    {
        if is_kept_key(key.as_slice()) {
            return Err(refused(Why::KeyKept));
        }
        let zxid = self.zxid;
        self.zxid = None;
        match self.store.foreign(key.as_slice(), value.as_slice()) {
            Ok(_) => Ok(()),
            Err(StoreFault::Denied(_)) => {
                self.zxid = zxid;
                Err(refused(Why::StoreFull))
            }
            Err(StoreFault::Memory) => Err(ApplyFault::Memory),
        }
    }

    pub(crate) fn reap_line(
        &mut self,
        connection: u32,
        proxy: u32,
        id: i64,
    ) -> Result<(), ApplyFault>
        requires { pos 1 ≤ℤ id }
        ensures { Applies self.old (line.Reap connection proxy id) result self.new }
    {
        match self.new_why(connection) {
            Some(why) => Err(refused(why)),
            None => {
                self.reap(connection, proxy, id)?;
                Ok(())
            }
        }
    }

    pub(crate) fn tick_line(&mut self, millis: u32) -> Result<(), ApplyFault>
        ensures { Applies self.old (line.Tick millis) result self.new }
    {
        let clock = self.clock + u64::from(millis);
        if MAX_TIME < clock {
            return Err(refused(Why::ClockLimit));
        }
        self.clock = clock;
        Ok(())
    }

    pub(crate) fn settle_line(&mut self, connection: u32) -> Result<(), ApplyFault>
        ensures { Applies self.old (line.Settle connection) result self.new }
    {
        match self.open_why(connection) {
            Some(why) => Err(refused(why)),
            None => {
                self.settle(connection)?;
                Ok(())
            }
        }
    }
}

/// Why a lease cannot lapse.
fn lapse_why(denied: &Denied) -> Why
    ensures { (s : AnyStore) (id : ℤ) → lapse_denial s id ≡ Some denied.now → if_fails (not (has_lease s id)) Why.NoSuchLease (full_fault s (removals (leased_keys s id))) ≡ Some result }
{
    match denied {
        Denied::Full { .. } => Why::StoreFull,
        Denied::LeaseExists { .. } => Why::NoSuchLease,
        Denied::NoLease { .. } => Why::NoSuchLease,
        Denied::Future { .. } => Why::NoSuchLease,
        Denied::Compacted { .. } => Why::NoSuchLease,
        Denied::TooMany { .. } => Why::NoSuchLease,
        Denied::Twice { .. } => Why::NoSuchLease,
    }
}

/// Whether a key is empty, or is one of the service's own.
fn is_kept_key(key: &[u8]) -> bool
    ensures { result ≡ is_kept_key key.now }
{
    key.is_empty() || key.starts_with(FRONT.as_slice())
}

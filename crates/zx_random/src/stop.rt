//! The word to stop.

ghost use Rattle.std.specs.Prelude.{◌≡◌, ℕ, IfOk};

use std::alloc::Global;
use std::marker::Model;
use std::sync::Arc;
use std::sync::atomic::{AtomicBool, Ordering};
use zx_base::Memory;

/// Says whether a worker is to end.
pub trait StopWord {
    ghost use Rattle.std.specs.Prelude.{◌≡◌};
    ghost use Rattle.zx_random.specs.Words.{readings_after};

    // How many readings found it set.
    ghost set_readings: { Self → ℕ };

    /// Reads the word.
    fn is_set(&mut self) -> bool
        ensures { set_readings self.new ≡ readings_after result (set_readings self.old) };
}

/// A word that several threads share.
#[derive(Drop)]
pub struct SharedStop {
    flag: Arc<AtomicBool, Global>,
    set_readings: u64,
}

impl SharedStop {
    /// A word that is not set, and that nobody shares yet.
    pub fn new(alloc: Global) -> Result<SharedStop, Memory>
        ensures { IfOk result (λ stop. stop.set_readings ≡ 0) }
    {
        let flag = Arc::new(alloc, AtomicBool::new(false))?;
        Ok(SharedStop {
            flag,
            set_readings: 0,
        })
    }

    /// Sets the word, for all who share it and for good.
    pub fn set(&self) {
        self.flag.store(true, Ordering::SeqCst);
    }

    /// The same word for one more owner, whose readings are counted apart. `Memory`: there can be no more owners.
    pub fn another(&self) -> Result<SharedStop, Memory>
        ensures { IfOk result (λ stop. stop.set_readings ≡ 0) }
    {
        let flag = Arc::try_clone(&self.flag)?;
        Ok(SharedStop {
            flag,
            set_readings: 0,
        })
    }
}

impl StopWord for SharedStop {
    ghost set_readings = { λ s. s.set_readings };

    fn is_set(&mut self) -> bool {
        if !self.flag.load(Ordering::SeqCst) {
            return false;
        }
        self.set_readings = self.set_readings.saturating_add(1);
        true
    }
}

/// A word that is set from a listed reading on.
#[derive(Drop)]
pub struct MemStop {
    from: u64,
    readings: u64,
    set_readings: u64,
}

impl Model for MemStop {
    ghost use Rattle.zx_random.specs.Words.{Planned};

    ghost Value = { Planned };

    ghost view = { λ s. record { from = s.from; readings = s.readings; set_readings = s.set_readings } };
}

impl MemStop {
    ghost use Rattle.std.specs.Prelude.{◌≡◌};

    /// A word that is set from its reading of this number on, counted from 1.
    pub fn new(from: u64) -> MemStop
        ensures { result ≡ record { from = from; readings = 0; set_readings = 0 } }
    {
        MemStop {
            from,
            readings: 0,
            set_readings: 0,
        }
    }
}

impl StopWord for MemStop {
    ghost use Rattle.std.specs.Prelude.{◌≡◌};
    ghost use Rattle.zx_random.specs.Words.{is_due, readings_after, read_once};

    ghost set_readings = { λ s. s.set_readings };

    fn is_set(&mut self) -> bool
        ensures due { result ≡ is_due self.old }
        ensures counted { self.new.set_readings ≡ readings_after result self.old.set_readings }
        ensures once { self.new ≡ read_once self.old }
    {
        self.readings = self.readings.saturating_add(1);
        if self.readings < self.from {
            return false;
        }
        self.set_readings = self.set_readings.saturating_add(1);
        true
    }
}

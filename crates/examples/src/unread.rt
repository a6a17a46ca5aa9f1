//! What a person is told of a line that cannot be read.

use anyhow::Result;
use std::alloc::Global;
use zetcd_cmd::Tells;
use zt_faults::LineFault;

/// What was told last.
#[derive(Drop)]
pub struct Told {
    last: Option<(u64, LineFault)>,
}

impl Tells for Told {
    fn unread(&mut self, line: u64, fault: LineFault) {
        self.last = Some((line, fault));
    }
}

impl Told {
    /// Nothing was told yet.
    pub fn nothing() -> Told {
        Told { last: None }
    }

    /// The text; empty if nothing was told.
    pub fn text(&self, alloc: Global) -> Result<String> {
        match self.last {
            Some((line, fault)) => Ok(format!(in alloc; "line {line} {fault}")?),
            None => Ok(String::new(alloc)),
        }
    }
}

//! Tells a person why a line of the input cannot be read.

use zt_faults::LineFault;

/// Who is told why a line of the input cannot be read.
pub trait Tells {
    /// Tells it of this line, counted from 1.
    fn unread(&mut self, line: u64, fault: LineFault);
}

/// Tells it on standard error.
#[derive(Drop)]
pub struct Terminal<'a, R> {
    rt: &'a R,
}

impl<'a, R: Eprint> Terminal<'a, R> {
    /// The standard error of this runtime.
    pub fn new(rt: &'a R) -> Terminal<'a, R> {
        Terminal { rt }
    }
}

impl<'a, R: Eprint> Tells for Terminal<'a, R> {
    fn unread(&mut self, line: u64, fault: LineFault) {
        // Where standard error takes nothing, nobody is told.
        let _told = eprintln!(self.rt; "zetcd: line {line} {fault}");
    }
}

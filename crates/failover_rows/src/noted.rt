//! Endpoints whose calls are noted.

use ev_failover::{EndFault, Endpoints};
use ev_types::{Answer, Ask};
use row_files::{push, push_number};
use std::alloc::Global;
use zx_base::Memory;

/// What a call came to.
#[derive(Clone, Copy)]
enum Outcome {
    Ok,
    Unsent,
    Failed,
    Memory,
}

/// A call of an endpoint.
#[derive(Clone, Copy)]
struct Note {
    endpoint: u32,
    outcome: Outcome,
}

/// Endpoints, with a note of each call.
#[derive(Drop)]
pub struct Noted<E> {
    ends: E,
    notes: Vec<Note>,
}

impl<E> Noted<E> {
    /// These endpoints, of which none was called.
    pub fn new(alloc: Global, ends: E) -> Noted<E> {
        Noted {
            ends,
            notes: Vec::new(alloc),
        }
    }
}

fn outcome_of(came: &Result<Answer, EndFault>) -> Outcome {
    match came {
        Ok(_) => Outcome::Ok,
        Err(EndFault::NotSent) => Outcome::Unsent,
        Err(EndFault::Failed) => Outcome::Failed,
        Err(EndFault::Memory) => Outcome::Memory,
    }
}

impl<E: Endpoints + Drop> Endpoints for Noted<E> {
    ghost size = { λ n. E.size n.ends };

    ghost faults = { λ n. E.faults n.ends };

    ghost sent = { λ n. E.sent n.ends };

    ghost came = { λ a e q r b. E.came a.ends e q r b.ends };

    fn size(&self) -> u32 {
        self.ends.size()
    }

    fn call_at(&mut self, endpoint: u32, ask: &Ask) -> Result<Answer, EndFault> {
        let came = self.ends.call_at(endpoint, ask);
        let outcome = outcome_of(&came);
        // If memory is refused, the row differs.
        let _ = self.notes.push(Note { endpoint, outcome });
        came
    }
}

/// Adds each try.
pub fn push_tries<E>(alloc: Global, found: &mut String, ends: &Noted<E>) -> Result<(), Memory> {
    for note in &ends.notes {
        push_number(alloc, found, "", i64::from(note.endpoint))?;
        push(
            found,
            match note.outcome {
                Outcome::Ok => " ok, ",
                Outcome::Unsent => " unsent, ",
                Outcome::Failed => " failed, ",
                Outcome::Memory => " memory, ",
            },
        )?;
    }
    Ok(())
}

//! Says why a line of a script or a transcript cannot be read: from which of its bytes on, and what is expected there.
//!
//! [`fault_in_script`] and [`fault_at_line`] are for a line that `zt_text` or `zt_lines` gave no meaning. They go through its words
//! by the same functions, and stop at the first that is not what the line's form has there. `docs/FORMATS.md` has the forms.
//!
//! What they say is meant for a person at a terminal. Of a line of a script a fault is found exactly if it cannot be read (`specs/Faults`);
//! that the place and the words are right is shown by rows (`text_rows`) and examples.
//!
//! # Cost
//!
//! Time in proportion to the line, and memory for the bytes that its hex digits spell.
#![tactic(auto)]

mod expected;
mod fault;
mod forms;
mod words;

pub use expected::Expected;
pub use fault::{LineFault, TOO_LONG, fault_at_line, fault_in_script};

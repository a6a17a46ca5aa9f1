//! Tells an operator.

use crate::fault::Fault;

/// Tells the operator of a fault. Where standard error takes nothing, nobody is told.
pub fn tell<R: Eprint>(rt: &R, what: &str, endpoint: &str, fault: Fault) {
    let _told = eprintln!(rt; "zetcd: {what} {endpoint}: {fault}");
}

/// Tells the operator why the link of a connection failed.
pub fn tell_link<R: Eprint>(rt: &R, number: u64, endpoint: &str, fault: Fault) {
    let _told = eprintln!(rt; "zetcd: link of connection {number} to {endpoint}: {fault}");
}

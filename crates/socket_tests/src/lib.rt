//! Tests of the system's clock, sockets and threads (`zx_sockets`), on the loopback.
//!
//! They stand in a crate of their own, since a crate with tests is proved twice.
#![tactic(auto)]

#[cfg(test)]
mod bells;
#[cfg(test)]
mod clocks;
#[cfg(test)]
mod common;
#[cfg(test)]
mod nets;
#[cfg(test)]
mod patience;

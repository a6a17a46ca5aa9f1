//! What holds a worker before it serves.

/// What holds a worker before it serves, for a test that wants workers to run beside each other.
pub trait Gate {
    /// Returns once the worker of connection `call` may serve.
    fn pass(&self, call: u64);
}

/// Holds nobody.
#[derive(Clone, Copy)]
pub struct OpenGate;

impl Gate for OpenGate {
    fn pass(&self, _call: u64) {}
}

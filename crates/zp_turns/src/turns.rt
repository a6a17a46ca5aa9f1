//! Turns as those who wait for them see them.

/// The turns of one connection.
pub trait Turns {
    /// Whether [`wait`](Turns::wait) returns at once for this frame, whoever else waits: its request contends with none.
    fn is_next(&self, frame: &[u8]) -> bool;

    /// Ends the present turn, and waits for the turn of this frame before it is handed in: a create or a delete at the path of the
    /// node's parent, a setData of any version at the node's own, a multi where its first part does, a closeSession where this
    /// connection waited last, or else where all closes do. Each other request, and a setData that names a version, has no turn.
    /// Where memory is refused, it goes on without one.
    fn wait(&mut self, frame: &[u8]);

    /// Whether an ask goes out now. If none does, the present turn is over, if there is one.
    fn go_on(&mut self, asks: bool);

    /// Ends the present turn, if there is one.
    fn end(&mut self);
}

/// The turns of somebody who updates without frames.
pub trait Reaps {
    /// Ends the present turn, and waits for one at this path. Where memory is refused, it goes on without one.
    fn wait_at(&mut self, path: &[u8]);

    /// Ends the present turn, if there is one.
    fn end(&mut self);
}

/// Nobody waits.
#[derive(Clone, Copy, Drop)]
pub struct NoTurns;

impl Turns for NoTurns {
    fn is_next(&self, _frame: &[u8]) -> bool {
        true
    }

    fn wait(&mut self, _frame: &[u8]) {}

    fn go_on(&mut self, _asks: bool) {}

    fn end(&mut self) {}
}

impl Reaps for NoTurns {
    fn wait_at(&mut self, _path: &[u8]) {}

    fn end(&mut self) {}
}

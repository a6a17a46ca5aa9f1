//! The statuses of the program.

ghost use Rattle.std.specs.Prelude.{◌≡◌};
ghost use Rattle.zetcd_cmd.specs.Outcomes.{status_number};

use std::alloc::Global;
use std::sync::Arc;
use zw_hub::FeedEnd;

/// How a command ended. What was read and written then is said by `specs/Outcomes.antt`, `specs/Serving.antt` and
/// `specs/Proxying.antt`.
#[derive(Drop)]
pub enum Status {
    /// The input was read to its end. Of `show`: that is a frame's end. Of `judge`: the verdict is `lawful`. Of `etcd` and `serve`,
    /// which read nothing: as many connections as the limit allows were accepted, and have ended.
    Done,
    /// The words name no command that is built.
    Usage,
    /// Of `replay`: line `line` of the input, from 1, is the first that cannot be read or is not possible. Of `judge`: it is the
    /// first that cannot be read. Of `show`: the stream did not end at a frame's end; line `line` of the output, its last, says so.
    Script { line: u64 },
    /// The input had a fault, or 1,000 idle turns.
    ReadFault,
    /// The output had a fault.
    WriteFault,
    /// Of `etcd` and `serve`: the address could not be listened on, or the door had a fault. Of `serve` also: the etcd did not
    /// answer the first ask, or a worker could not be started.
    Net,
    /// Memory was refused.
    Memory,
    /// Of `judge`: the verdict is not `lawful`.
    Unlawful,
    /// Of `serve`: the updates could not be followed any further, for this cause. It is never out of memory.
    Feed(Arc<FeedEnd, Global>),
}

impl Status {
    /// The number that the process ends with.
    pub fn number(&self) -> u8
        ensures { result ≡ status_number self.now }
    {
        match self {
            Status::Done => 0,
            Status::Usage => 2,
            Status::Script { .. } => 3,
            Status::ReadFault => 4,
            Status::WriteFault => 5,
            Status::Net => 6,
            Status::Memory => 7,
            Status::Unlawful => 8,
            Status::Feed(_) => 10,
        }
    }
}

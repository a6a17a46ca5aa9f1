//! What ended a run, in words.

ghost use Rattle.std.specs.Prelude.{◌≡◌, is_some};
ghost use Rattle.zetcd.specs.Stopping.{has_stopped};

use zetcd_cmd::Status;

/// What a person at a terminal is told of a run that stopped early. `None`: the output says all there is to say.
pub fn meaning(status: &Status) -> Option<&'static str>
    ensures { is_some result ≡ has_stopped status.now }
{
    match status {
        Status::Done | Status::Usage | Status::Unlawful => None,
        Status::Script { .. } => Some("stopped: the last line of the output says where and why"),
        Status::ReadFault => Some(
            "standard input could not be read, or gave nothing at 1,000 reads",
        ),
        Status::WriteFault => Some("standard output could not be written"),
        Status::Net => Some("stopped: the line before this one says what failed"),
        Status::Memory => Some("out of memory: the output is not complete"),
        Status::Feed(_) => Some(
            "updates cannot be followed any further: the last line of the output says why",
        ),
    }
}

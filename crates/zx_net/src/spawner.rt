//! Who starts jobs.

ghost use Rattle.std.specs.Prelude.{◌≡◌, ℕ, IfErr};
ghost use Rattle.zx_outside.specs.Counts.{one_more};
ghost use Rattle.zx_net.specs.Jobs.{refusals_after, refusals_asked};

use std::thread;
use std::thread::Threads;

/// Who starts jobs: each in a thread of its own, or in place. A refused start is an answer, and is counted.
///
/// A form says what it does by three methods; [`Spawner::start`] is the same for all, and is all that is called.
pub trait Spawner {
    /// The right to start threads.
    type Handle: Threads;

    // How many starts were refused.
    ghost refusals: { Self → ℕ };

    /// Whether the next start is refused without a try.
    fn refuses(&mut self) -> bool
        ensures { refusals self.new ≡ refusals_asked result (refusals self.old) };

    /// The right to start a thread for each job; `None` where a job runs in place.
    fn threads(&self) -> Option<&Self::Handle>;

    /// Counts a start that the system refused.
    fn note_refusal(&mut self)
        ensures { refusals self.new ≡ one_more (refusals self.old) };

    /// Starts a job, which has run when this returns, or runs in a thread of its own. A job that could not be started
    /// is handed back, and has not run.
    final fn start<F: FnOnce() + Send + Drop + 'static>(&mut self, job: F) -> Result<(), F>
    where
        Self: Sized,
        requires { F.pre job }
        ensures counts { refusals self.new ≡ refusals_after result (refusals self.old) }
        ensures back { IfErr result (λ handed. handed ≡ job) }
    {
        start(self, job)
    }
}

/// Starts a job as the spawner's methods say.
fn start<P: Spawner, F: FnOnce() + Send + Drop + 'static>(spawner: &mut P, job: F) -> Result<(), F>
    requires { F.pre job }
    ensures counts { P.refusals spawner.new ≡ refusals_after result (P.refusals spawner.old) }
    ensures back { IfErr result (λ handed. handed ≡ job) }
{
    if spawner.refuses() {
        return Err(job);
    }
    let refused = match spawner.threads() {
        None => {
            job();
            return Ok(());
        }
        Some(rt) => match thread::spawn(rt, job) {
            Ok(_thread) => return Ok(()),
            Err(refused) => refused.value,
        },
    };
    spawner.note_refusal();
    Err(refused)
}

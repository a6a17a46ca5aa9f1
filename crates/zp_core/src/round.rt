//! A round of a request that is out, and what the request lacks besides.

ghost use Rattle.std.specs.Prelude.{◌≡◌, ◌++◌, take, IfOk};
ghost use Rattle.zn_view.specs.Asks.{reading as reading_of};
ghost use Rattle.zn_view.specs.Needs.{AreNeeds};
ghost use Rattle.zp_step.specs.Looking.{max_ranges};

use crate::stage::Task;
use ev_types::Ask;
use std::alloc::Global;
use std::collections::VecDeque;
use std::marker::Model;
use zn_view::{View, Want, Who, reading};
use zx_base::{Memory, Seq};

/// The most ranges in one ask that reads. etcd takes 128 operations in a transaction by default (`--max-txn-ops`).
const MAX_RANGES: usize = 100;

/// Takes the first `MAX_RANGES` wants, or all where there are fewer.
fn front(alloc: Global, wants: &mut VecDeque<Want>) -> Result<Seq<Want>, Memory>
    ensures front { IfOk result (λ first. first ≡ take max_ranges wants.old.items) }
    ensures left { IfOk result (λ first. first ++ wants.new.items ≡ wants.old.items) }
{
    let mut first = Seq::new(alloc);
    'front: while first.len() < MAX_RANGES {
        match wants.pop_front() {
            Some(want) => first.push(want)?,
            None => return Ok(first),
        }
    }
    Ok(first)
}

/// A round that was taken apart: the task, the session that it was asked for, and what was left to ask.
#[derive(Drop)]
pub(crate) struct Opened {
    pub(crate) task: Box<Task>,
    pub(crate) who: Who,
    pub(crate) left: VecDeque<Want>,
}

/// A request of which a round is out. Contracts see its task. What is out and what is left, in this order, are what the request
/// lacked when the round was asked; so what is left need not be worked out anew where an answer cannot change it.
#[derive(Drop)]
pub struct Round {
    task: Box<Task>,
    /// For whom the request was looked up.
    who: Who,
    left: VecDeque<Want>,
}

impl Model for Round {
    ghost use Rattle.std.specs.Prelude.{◌++◌};
    ghost use Rattle.zn_view.specs.Needs.{AreNeeds};
    ghost use Rattle.zp_core.specs.declared.stage.Task.{Task as AnyTask};

    ghost Value = { AnyTask };

    ghost view = { λ r. r.task.value };

    ghost invariant = { λ r. AreNeeds r.task.value.request r.who r.task.value.view (r.task.value.asked ++ r.left.items) };
}

impl Round {
    /// A round for the first `MAX_RANGES` of what is lacking.
    pub(crate) fn begin(
        alloc: Global,
        mut task: Box<Task>,
        who: Who,
        lacking: VecDeque<Want>,
    ) -> Result<Round, Memory>
        requires { AreNeeds task.value.request who task.value.view lacking.items }
        ensures { IfOk result (λ r. r ≡ record task.value { asked = take max_ranges lacking.items }) }
    {
        let mut left = lacking;
        task.asked = front(alloc, &mut left)?;
        Ok(Round { task, who, left })
    }

    /// The ask that is out.
    pub(crate) fn ask(&self, alloc: Global) -> Result<Ask, Memory>
        ensures { IfOk result (λ ask. ask ≡ reading_of self.now.view.revision self.now.asked) }
    {
        reading(alloc, self.task.view.revision(), self.task.asked.as_slice())
    }

    pub(crate) fn view(&self) -> &View
        ensures { result.now ≡ self.now.view }
    {
        &self.task.view
    }

    pub(crate) fn open(self) -> Opened
        ensures task { result.task.value ≡ self }
        ensures needs { AreNeeds self.request result.who self.view (self.asked ++ result.left.items) }
    {
        Opened {
            task: self.task,
            who: self.who,
            left: self.left,
        }
    }
}

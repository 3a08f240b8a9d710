//! What a worker holds.

ghost use Rattle.std.specs.Prelude.{◌≡◌, ◌<◌, length, slice_index_or, slice_set};
ghost use Rattle.cell_core.specs.declared.worker.Holding.TheVariants.{Idle};

use call_rules::Answer;
use hall_core::Job;
use std::mem;

/// What a call was answered with.
#[derive(Drop)]
pub struct Given {
    pub answer: Answer,
    /// Whether the call gets no reply.
    pub silent: bool,
}

/// What a worker holds.
#[derive(Drop)]
pub enum Holding {
    /// It holds no job.
    Idle,
    /// A job of which nothing was done.
    Holds(Job),
    /// A job whose call was answered.
    Answered(Job, Given),
    /// A job whose call was applied and has no answer.
    Unanswered(Job),
}

/// Takes out what a worker holds, so that it holds no job.
pub fn take_out(workers: &mut Vec<Holding>, place: usize) -> Holding
    requires there { place < length workers.old.items }
    ensures taken { result ≡ slice_index_or workers.old.items place Idle }
    ensures left { workers.new.items ≡ slice_set workers.old.items place Idle }
{
    mem::replace(&mut workers[place], Holding::Idle)
}

/// Gives a worker what it holds from now on.
pub fn put_back(workers: &mut Vec<Holding>, place: usize, worker: Holding)
    requires there { place < length workers.old.items }
    ensures { workers.new.items ≡ slice_set workers.old.items place worker }
{
    workers[place] = worker;
}

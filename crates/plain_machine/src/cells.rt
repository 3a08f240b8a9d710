//! The machine: the loop's part, the hall and the workers, and its events.

ghost use Rattle.std.specs.Prelude.{◌≡◌, Some, IfOk};
ghost use Rattle.machine_model.specs.Machine.{with_worker};
ghost use Rattle.machine_model.specs.Plain.{when};
ghost use Rattle.plain_machine.specs.Seen.{worker_of, cell_of};

use crate::conn_events::{PlainConnEvent, PlainLoop};
use crate::halls::PlainHall;
use crate::workers::{PlainWorkerState, set_worker};
use std::alloc::AllocError;

/// How an Apply goes.
#[derive(Clone, Copy)]
pub enum PlainApplyResult {
    /// It is answered.
    Answers,
    /// Memory runs out before its call.
    LacksForCall,
    /// Memory runs out for the copy of its answer.
    LacksForAnswer,
    /// The journal fails.
    FailsJournal,
}

/// What happens; connections and workers have numbers, from 0.
#[derive(Drop)]
pub enum PlainEvent {
    /// Something happens on a connection.
    Happens(PlainConnEvent),
    /// The first payload of a connection that isn't submitted is.
    Submits(u32),
    /// A worker takes a job.
    Takes(u32),
    /// A worker applies its job's call, which goes so.
    Applies(u32, PlainApplyResult),
    /// A worker puts its job's outcome.
    Puts(u32),
    /// A worker puts want of memory.
    PutsNone(u32),
    /// An outcome is collected.
    Collects,
    /// The hall is closed.
    Closes,
}

/// The machine.
#[derive(Drop)]
pub struct PlainCell<C, A, M> {
    pub loop_part: PlainLoop,
    pub hall: PlainHall<C, A, M>,
    pub workers: Vec<PlainWorkerState<A>>,
}

/// Puts this worker in place of worker w's, which can always be.
pub fn with_worker_of<C: Copy, A: Copy, M: Copy>(
    cell: &mut PlainCell<C, A, M>,
    w: u32,
    worker: PlainWorkerState<A>,
) -> Result<bool, AllocError>
    ensures { IfOk result (λ can. when can (Some (cell_of cell.new)) ≡ Some (record (cell_of cell.old) { workers = with_worker (cell_of cell.old).workers w (worker_of worker) })) }
{
    set_worker(&mut cell.workers, w, worker)?;
    Ok(true)
}

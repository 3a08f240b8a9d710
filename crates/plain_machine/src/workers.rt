//! The workers.

ghost use Rattle.std.specs.Prelude.{◌≡◌, ◌<◌, length, IfOk, MatchOption};
ghost use Rattle.machine_model.specs.Machine.{with_worker};
ghost use Rattle.machine_model.specs.Worker.{idle};
ghost use Rattle.plain_machine.specs.Seen.{worker_of, workers_of};

use host_model::Key;
use std::alloc::AllocError;

/// What a worker holds.
#[derive(Drop)]
pub enum PlainWorkerState<A> {
    /// It holds no job.
    Idle,
    /// A job.
    Holds(Key, Vec<u8>),
    /// A job whose call was applied and answered.
    HasAnswer(Key, Vec<u8>, A),
    /// A job whose call was applied and had no answer.
    HasNone(Key, Vec<u8>),
}

/// What this worker holds, where it has done anything.
pub fn worker_at<A: Copy>(workers: &[PlainWorkerState<A>], w: u32) -> Option<&PlainWorkerState<A>>
    ensures { MatchOption result (workers_of workers.now w ≡ idle) (λ worker. worker_of worker.now ≡ workers_of workers.now w) }
{
    let w = w as usize;
    if workers.len() <= w {
        return None;
    }
    Some(&workers[w])
}

/// Makes a place for worker w's among the workers.
#[tactic(auto, using(crate::proofs::Seeing::more_room))]
fn make_room<A: Copy>(workers: &mut Vec<PlainWorkerState<A>>, w: u32) -> Result<(), AllocError>
    ensures there { IfOk result (λ done. w < length workers.new.items) }
    ensures same { IfOk result (λ done. workers_of workers.new.items ≡ workers_of workers.old.items) }
{
    'room: while workers.len() <= w as usize {
        workers.push(PlainWorkerState::Idle)?;
    }
    Ok(())
}

/// Puts this worker in place of worker w's.
#[tactic(auto, using(crate::proofs::Seeing::workers_set))]
pub fn set_worker<A: Copy>(
    workers: &mut Vec<PlainWorkerState<A>>,
    w: u32,
    worker: PlainWorkerState<A>,
) -> Result<(), AllocError>
    ensures { IfOk result (λ done. workers_of workers.new.items ≡ with_worker (workers_of workers.old.items) w (worker_of worker)) }
{
    make_room(workers, w)?;
    workers[w as usize] = worker;
    Ok(())
}

//! A worker's jobs: taken, and put with their outcomes.

ghost use Rattle.std.specs.Prelude.{◌≡◌, ◌++◌, ◌∷◌, [], Some, IfOk};
ghost use Rattle.plain_machine.specs.SeenDesk.{decision_seen};
ghost use Rattle.machine_model.specs.HallState.{without};
ghost use Rattle.machine_model.specs.HallRule.{outcome_of};
ghost use Rattle.machine_model.specs.Worker.{settled_by, settled_with, settlement, key_held};
ghost use Rattle.machine_model.specs.Plain.{when, take_plain, outcome_plain, put_plain, lack_plain};
ghost use Rattle.plain_machine.specs.Seen.{hall_of, cell_of, workers_of};

use crate::cells::{PlainCell, with_worker_of};
use crate::desks::{Decided, PlainDesk};
use crate::halls::{PlainHall, PlainJobOutcome, take_first, take_out};
use crate::workers::{PlainWorkerState, worker_at};
use host_model::Key;
use std::alloc::{AllocError, Global};
use streams::{Bytes, Settled};

/// A job is taken, where there is one. Tells whether the worker can take any.
#[tactic(auto, using(crate::proofs::Seeing::takings))]
pub fn takes<C: Copy, A: Copy, M: Copy>(
    cell: &mut PlainCell<C, A, M>,
    w: u32,
) -> Result<bool, AllocError>
    ensures { IfOk result (λ can. when can (Some (cell_of cell.new)) ≡ take_plain (cell_of cell.old) w ((cell_of cell.old).workers w) (cell_of cell.old).hall.jobs) }
{
    if key_held(cell.workers.as_slice(), w).is_some() {
        return Ok(false);
    }
    match take_first(&mut cell.hall.jobs) {
        None => with_worker_of(cell, w, PlainWorkerState::Idle),
        Some(job) => {
            cell.hall.taken.push(job.key)?;
            with_worker_of(cell, w, PlainWorkerState::Holds(job.key, job.payload))
        }
    }
}

/// What a payload comes to without a call.
fn settled_by<C: Copy>(decided: Decided<C>) -> Option<Settled>
    ensures { result ≡ settled_by (decision_seen decided) }
{
    match decided {
        Decided::Refused(fault) => Some(Settled::Close(fault)),
        Decided::Passed => Some(Settled::Nothing),
        Decided::Replied(reply) => Some(Settled::Reply(reply)),
        Decided::Called(_) => None,
    }
}

/// What a payload comes to by its call's answer.
fn settled_with<D: PlainDesk>(
    alloc: Global,
    desk: &D,
    payload: &[u8],
    answer: D::Answer,
) -> Result<Option<Settled>, AllocError>
    ensures { IfOk result (λ settled. settled ≡ settled_with (D.desk desk.now) payload.now answer ((D.desk desk.now).decide payload.now)) }
{
    let Decided::Called(call) = desk.decide(alloc, payload)? else {
        return Ok(None);
    };
    if desk.is_silent(call) {
        return Ok(Some(Settled::Nothing));
    }
    Ok(Some(Settled::Reply(Bytes::new(desk.reply(alloc, payload, answer)?))))
}

/// An outcome is put in the hall.
fn put_in<C: Copy, A: Copy, M: Copy>(
    hall: &mut PlainHall<C, A, M>,
    key: Key,
    settled: Settled,
) -> Result<(), AllocError>
    ensures { IfOk result (λ done. hall_of hall.new
        ≡ record (hall_of hall.old) { taken = without key (hall_of hall.old).taken; outcomes = (hall_of hall.old).outcomes ++ outcome_of key settled ∷ [] }) }
{
    take_out(key, &mut hall.taken);
    hall.outcomes.push(PlainJobOutcome { key, settled })?;
    Ok(())
}

/// An outcome is put, where the job is settled.
fn puts_outcome<C: Copy, A: Copy, M: Copy>(
    cell: &mut PlainCell<C, A, M>,
    w: u32,
    key: Key,
    settled: Option<Settled>,
) -> Result<bool, AllocError>
    ensures { IfOk result (λ can. when can (Some (cell_of cell.new)) ≡ outcome_plain (cell_of cell.old) w key settled) }
{
    let Some(settled) = settled else {
        return Ok(false);
    };
    put_in(&mut cell.hall, key, settled)?;
    with_worker_of(cell, w, PlainWorkerState::Idle)
}

/// The key of the job that this worker holds.
fn key_held<A: Copy>(workers: &[PlainWorkerState<A>], w: u32) -> Option<Key>
    ensures { result ≡ key_held (workers_of workers.now w) }
{
    match worker_at(workers, w)? {
        PlainWorkerState::Idle => None,
        PlainWorkerState::Holds(key, _) => Some(*key),
        PlainWorkerState::HasAnswer(key, _, _) => Some(*key),
        PlainWorkerState::HasNone(key, _) => Some(*key),
    }
}

/// What the job that this worker holds comes to, as far as it is settled.
fn settlement<D: PlainDesk>(
    alloc: Global,
    desk: &D,
    workers: &[PlainWorkerState<D::Answer>],
    w: u32,
) -> Result<Option<Settled>, AllocError>
    ensures { IfOk result (λ settled. settled ≡ settlement (D.desk desk.now) (workers_of workers.now w)) }
{
    let Some(worker) = worker_at(workers, w) else {
        return Ok(None);
    };
    match worker {
        PlainWorkerState::Idle => Ok(None),
        PlainWorkerState::Holds(_, payload) => {
            Ok(settled_by(desk.decide(alloc, payload.as_slice())?))
        }
        PlainWorkerState::HasAnswer(_, payload, answer) => {
            settled_with(alloc, desk, payload.as_slice(), *answer)
        }
        PlainWorkerState::HasNone(_, _) => Ok(None),
    }
}

/// A worker puts its job's outcome, where it is settled. Tells whether it is.
pub fn puts<D: PlainDesk, M: Copy>(
    alloc: Global,
    desk: &D,
    cell: &mut PlainCell<D::Call, D::Answer, M>,
    w: u32,
) -> Result<bool, AllocError>
    ensures { IfOk result (λ can. when can (Some (cell_of cell.new)) ≡ put_plain (D.desk desk.now) (cell_of cell.old) w ((cell_of cell.old).workers w)) }
{
    let Some(key) = key_held(cell.workers.as_slice(), w) else {
        return Ok(false);
    };
    let settled = settlement(alloc, desk, cell.workers.as_slice(), w)?;
    puts_outcome(cell, w, key, settled)
}

/// A worker puts want of memory. Tells whether it holds a job.
pub fn puts_none<C: Copy, A: Copy, M: Copy>(
    cell: &mut PlainCell<C, A, M>,
    w: u32,
) -> Result<bool, AllocError>
    ensures { IfOk result (λ can. when can (Some (cell_of cell.new)) ≡ lack_plain (cell_of cell.old) w (key_held ((cell_of cell.old).workers w))) }
{
    match key_held(cell.workers.as_slice(), w) {
        None => Ok(false),
        Some(key) => puts_outcome(cell, w, key, Some(Settled::NoMemory)),
    }
}

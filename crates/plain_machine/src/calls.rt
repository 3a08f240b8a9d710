//! A worker's Apply: its job's call takes effect, or goes otherwise.

ghost use Rattle.std.specs.Prelude.{◌≡◌, Some, IfOk, option_map, slice_get};
ghost use Rattle.machine_model.specs.Plain.{when, effect_plain, fault_plain, apply_result_plain, broken_plain, apply_plain};
ghost use Rattle.plain_machine.specs.Seen.{hall_of, cell_of, apply_result_of};

use crate::cells::{PlainApplyResult, PlainCell, with_worker_of};
use crate::desks::{Decided, PlainDesk};
use crate::halls::PlainHall;
use crate::journals::{PlainEntry, PlainServices, after_call};
use crate::rounds::one_more;
use crate::workers::{PlainWorkerState, worker_at};
use host_model::Key;
use std::alloc::{AllocError, Global};

/// A worker applies its job's call, where it has one; it goes so. Tells whether it can.
pub fn applies<D: PlainDesk, S: PlainServices<Call = D::Call, Answer = D::Answer>>(
    alloc: Global,
    desk: &D,
    services: &S,
    cell: &mut PlainCell<D::Call, D::Answer, S::Memory>,
    w: u32,
    apply_result: PlainApplyResult,
) -> Result<bool, AllocError>
    ensures { IfOk result (λ can. when can (Some (cell_of cell.new))
        ≡ apply_plain (D.desk desk.now) (S.rules services.now) (cell_of cell.old) w (apply_result_of apply_result) ((cell_of cell.old).workers w)) }
{
    let Some(worker) = worker_at(cell.workers.as_slice(), w) else {
        return Ok(false);
    };
    let PlainWorkerState::Holds(key, payload) = worker else {
        return Ok(false);
    };
    let key = *key;
    let Decided::Called(call) = desk.decide(alloc, payload.as_slice())? else {
        return Ok(false);
    };
    let payload = Vec::from_slice(alloc, payload.as_slice())?;
    if cell.hall.broken {
        return broken(cell, w, key, payload, apply_result);
    }
    called(services, cell, w, key, payload, call, apply_result)
}

/// Once the journal has failed, an Apply says so.
fn broken<C: Copy, A: Copy, M: Copy>(
    cell: &mut PlainCell<C, A, M>,
    w: u32,
    key: Key,
    payload: Vec<u8>,
    apply_result: PlainApplyResult,
) -> Result<bool, AllocError>
    ensures { IfOk result (λ can. when can (Some (cell_of cell.new)) ≡ broken_plain (cell_of cell.old) w key payload.items (apply_result_of apply_result)) }
{
    let PlainApplyResult::Answers = apply_result else {
        return Ok(false);
    };
    with_worker_of(cell, w, PlainWorkerState::HasNone(key, payload))
}

/// A service's answer to a call at these memories, where the service is there.
#[tactic(auto, using(crate::proofs::Seeing::memory_seen, crate::proofs::Seeing::no_memory_seen))]
fn answer_of<S: PlainServices>(
    services: &S,
    memories: &[S::Memory],
    call: S::Call,
) -> Option<S::Answer>
    ensures { result ≡ option_map (λ m. ((S.rules services.now).rule call m).0) (slice_get memories.now ((S.rules services.now).slot call)) }
{
    let slot = services.slot(call);
    if memories.len() <= slot {
        return None;
    }
    let (answer, _) = services.rule(call, memories[slot]);
    Some(answer)
}

/// A call takes effect in the hall with this answer.
fn takes_effect<S: PlainServices>(
    services: &S,
    hall: &mut PlainHall<S::Call, S::Answer, S::Memory>,
    key: Key,
    call: S::Call,
    answer: S::Answer,
) -> Result<(), AllocError>
    ensures { IfOk result (λ done. hall_of hall.new ≡ effect_plain (S.rules services.now) (hall_of hall.old) key call answer) }
{
    after_call(services, hall.memories.as_mut_slice(), call);
    hall.journal.push(PlainEntry { key, call, answer })?;
    Ok(())
}

/// A call was answered, and the journal has failed after it.
fn fails<S: PlainServices>(
    services: &S,
    hall: &mut PlainHall<S::Call, S::Answer, S::Memory>,
    call: S::Call,
) -> Result<(), AllocError>
    ensures { IfOk result (λ done. hall_of hall.new ≡ fault_plain (S.rules services.now) (hall_of hall.old) call) }
{
    hall.faults = one_more(hall.faults)?;
    hall.broken = true;
    after_call(services, hall.memories.as_mut_slice(), call);
    Ok(())
}

/// A call goes so.
#[tactic(auto, using(crate::proofs::Seeing::apply_results))]
fn called<S: PlainServices>(
    services: &S,
    cell: &mut PlainCell<S::Call, S::Answer, S::Memory>,
    w: u32,
    key: Key,
    payload: Vec<u8>,
    call: S::Call,
    apply_result: PlainApplyResult,
) -> Result<bool, AllocError>
    ensures { IfOk result (λ can. when can (Some (cell_of cell.new)) ≡ apply_result_plain (S.rules services.now) (cell_of cell.old) w key payload.items call (apply_result_of apply_result)
        (slice_get (cell_of cell.old).hall.memories ((S.rules services.now).slot call))) }
{
    let answer = answer_of(services, cell.hall.memories.as_slice(), call);
    match apply_result {
        PlainApplyResult::LacksForCall => {
            with_worker_of(cell, w, PlainWorkerState::HasNone(key, payload))
        }
        PlainApplyResult::FailsJournal => {
            fails(services, &mut cell.hall, call)?;
            with_worker_of(cell, w, PlainWorkerState::HasNone(key, payload))
        }
        PlainApplyResult::Answers => {
            let Some(answer) = answer else {
                return Ok(false);
            };
            takes_effect(services, &mut cell.hall, key, call, answer)?;
            with_worker_of(cell, w, PlainWorkerState::HasAnswer(key, payload, answer))
        }
        PlainApplyResult::LacksForAnswer => {
            let Some(answer) = answer else {
                return Ok(false);
            };
            takes_effect(services, &mut cell.hall, key, call, answer)?;
            with_worker_of(cell, w, PlainWorkerState::HasNone(key, payload))
        }
    }
}

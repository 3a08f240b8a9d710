//! One step of a worker, by what it holds.

ghost use Rattle.std.specs.Prelude.{◌≡◌, true};
ghost use Rattle.call_rules.specs.Desks.{DeskMeaning};
ghost use Rattle.call_rules.specs.PlainCalls.{PlainCall};
ghost use Rattle.call_rules.specs.Handling.{handler_rules};
ghost use Rattle.machine_model.specs.HallState.{has_key};
ghost use Rattle.machine_model.specs.HallRule as rule;
ghost use Rattle.machine_model.specs.Worker.{took, tried};
ghost use Rattle.machine_model.specs.SeenHall.{SeenGives};
ghost use Rattle.hall_core.specs.Asked.{answer_of};
ghost use Rattle.cell_core.specs.declared.worker.Holding.TheVariants.{Idle, Holds};
ghost use Rattle.cell_core.specs.declared.turn.Stepped.TheVariants.{Moves};
ghost use Rattle.cell_core.specs.HallTied.{plain_worker, TellsIfSilent, KnowsItsCall};
ghost use Rattle.cell_core.specs.TurnMoves.{MayTurn};
ghost use Rattle.cell_core.specs.Turns.{stepped_by, IsWorkerTurn, AnswersStep};

use crate::stop::RunStop;
use crate::worker::{Given, Holding};
use call_rules::{Desk, Handler, Journal, Key};
use hall_core::{Hall, HallOp, HallReply, Job, NextStep, next_step, settled_with};
use seat_booth::Object;
use std::alloc::Global;
use streams::Settled;

/// What a worker's step came to.
#[derive(Clone, Copy)]
pub enum Stepped {
    /// It found no job.
    Idle,
    /// It made a step.
    Moves,
    /// The journal failed in it.
    Fails,
}

/// A worker's step, and what it holds after it.
#[derive(Drop)]
pub struct Turned {
    pub worker: Holding,
    pub stepped: Stepped,
}

/// One step of a worker that holds this: it takes a job, applies its call, or puts what it came to.
#[inline(always)]
pub fn turn<D: Desk, H: Handler, J: Journal>(
    alloc: Global,
    desk: &D,
    hall: &mut Hall<H, J>,
    worker: Holding,
) -> Turned
    requires { MayTurn (D.meaning desk.now) hall.old worker }
    ensures { IsWorkerTurn (D.meaning desk.now) hall.old hall.new worker result.worker result.stepped }
{
    match worker {
        Holding::Idle => take(hall),
        Holding::Holds(job) => apply_or_put(alloc, desk, hall, job),
        Holding::Answered(job, given) => {
            let settled = settled_with(alloc, desk, &job, given.silent, &given.answer);
            put(hall, job.key, settled)
        }
        Holding::Unanswered(job) => put(hall, job.key, Settled::NoMemory),
    }
}

/// Takes the oldest job, where there is one.
fn take<H: Handler, J: Journal>(hall: &mut Hall<H, J>) -> Turned
    ensures { (desk : DeskMeaning) → IsWorkerTurn desk hall.old hall.new Idle result.worker result.stepped }
{
    let reply = hall.take();
    taken(reply)
}

/// What a worker holds once it has asked for a job.
fn taken(reply: HallReply) -> Turned
    ensures worker { plain_worker result.worker ≡ took (answer_of reply) }
    ensures stepped { result.stepped ≡ stepped_by rule.take_job (answer_of reply) }
    ensures known { (desk : DeskMeaning) → KnowsItsCall desk result.worker }
{
    match reply {
        HallReply::Job(key, payload) => Turned {
            worker: Holding::Holds(Job { key, payload }),
            stepped: Stepped::Moves,
        },
        _ => Turned {
            worker: Holding::Idle,
            stepped: Stepped::Idle,
        },
    }
}

/// Applies the call of a job of which nothing was done; or puts what it comes to with no call.
fn apply_or_put<D: Desk, H: Handler, J: Journal>(
    alloc: Global,
    desk: &D,
    hall: &mut Hall<H, J>,
    job: Job,
) -> Turned
    requires { MayTurn (D.meaning desk.now) hall.old (Holds job) }
    ensures { IsWorkerTurn (D.meaning desk.now) hall.old hall.new (Holds job) result.worker result.stepped }
{
    match next_step(alloc, desk, &job) {
        NextStep::Apply(call) => {
            let silent = call.silent;
            let reply = hall.step(HallOp::Apply(job.key, call));
            applied(job, silent, reply)
        }
        NextStep::Put(settled) => put(hall, job.key, settled),
    }
}

/// What a worker holds once its job's call was applied.
fn applied(job: Job, silent: bool, reply: HallReply) -> Turned
    ensures worker { plain_worker result.worker ≡ tried job.key job.payload (answer_of reply) }
    ensures silent { (desk : DeskMeaning) → TellsIfSilent silent (desk.decide job.payload) → KnowsItsCall desk result.worker }
    ensures stepped { (call : PlainCall) → result.stepped ≡ stepped_by (rule.apply job.key call) (answer_of reply) }
{
    match reply {
        HallReply::Applied(answer) => Turned {
            worker: Holding::Answered(job, Given { answer, silent }),
            stepped: Stepped::Moves,
        },
        HallReply::JournalFault => Turned {
            worker: Holding::Unanswered(job),
            stepped: Stepped::Fails,
        },
        _ => Turned {
            worker: Holding::Unanswered(job),
            stepped: Stepped::Moves,
        },
    }
}

/// Puts what a job came to.
#[inline(always)]
fn put<H: Handler, J: Journal>(hall: &mut Hall<H, J>, key: Key, settled: Settled) -> Turned
    requires { has_key key hall.old.taken ≡ true }
    ensures gives { SeenGives handler_rules hall.old (rule.put key settled) rule.done hall.new }
    ensures worker { result.worker ≡ Idle }
    ensures stepped { result.stepped ≡ Moves }
{
    let _ = hall.put(key, settled);
    Turned {
        worker: Holding::Idle,
        stepped: Stepped::Moves,
    }
}

/// Whether a step was made, unless the journal has failed in it.
pub fn moved(stepped: Stepped) -> Result<bool, RunStop>
    ensures { AnswersStep stepped result }
{
    match stepped {
        Stepped::Idle => Ok(false),
        Stepped::Moves => Ok(true),
        Stepped::Fails => Err(RunStop::JournalFault),
    }
}

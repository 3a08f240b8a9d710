//! What a job comes to, with any desk: by what is decided on its payload, or by the answer of its call. Neither asks a hall.

ghost use Rattle.std.specs.Prelude.{◌≡◌, ◌≤◌, length};
ghost use Rattle.host_model.specs.DeskRules.{Invoke};
ghost use Rattle.call_rules.specs.Answers.{plain_answer};
ghost use Rattle.call_rules.specs.PlainCalls.{PlainCall};
ghost use Rattle.call_rules.specs.Desks.{desk_rules, longest_payload};
ghost use Rattle.machine_model.specs.Worker.{has_answer, SettlesAs};
ghost use Rattle.hall_core.specs.NextSteps.{IsNextFor};

use crate::job::Job;
use call_rules::{Answer, Call, Decision, Desk};
use std::alloc::Global;
use streams::{Bytes, Settled};

/// What is next for a job that was taken.
#[derive(Drop)]
pub enum NextStep {
    /// Its call is applied.
    Apply(Call),
    /// This is put, which it comes to with no call.
    Put(Settled),
}

/// What is next for a job of which nothing was done, by what the desk decides on its payload.
#[inline(always)]
pub fn next_step<D: Desk>(alloc: Global, desk: &D, job: &Job) -> NextStep
    requires { length job.now.payload ≤ longest_payload }
    ensures { IsNextFor (D.meaning desk.now) job.now result }
{
    match desk.decide(alloc, job.payload.as_slice()) {
        Ok(Decision::Invoke(call)) => NextStep::Apply(call),
        Ok(Decision::Close(fault)) => NextStep::Put(Settled::Close(fault)),
        Ok(Decision::Silent) => NextStep::Put(Settled::Nothing),
        Ok(Decision::Reply(frame)) => NextStep::Put(Settled::Reply(frame)),
        Err(_) => NextStep::Put(Settled::NoMemory),
    }
}

/// What a job comes to whose call had this answer, and is silent or isn't.
pub fn settled_with<D: Desk>(
    alloc: Global,
    desk: &D,
    job: &Job,
    silent: bool,
    answer: &Answer,
) -> Settled
    requires short { length job.now.payload ≤ longest_payload }
    requires called { (call : PlainCall) × ((D.meaning desk.now).decide job.now.payload ≡ Invoke call) × (call.silent ≡ silent) }
    ensures { SettlesAs (desk_rules (D.meaning desk.now)) (has_answer job.now.key job.now.payload (plain_answer answer.now)) job.now.key result }
{
    if silent {
        return Settled::Nothing;
    }
    match desk.reply(alloc, job.payload.as_slice(), answer) {
        Ok(frame) => Settled::Reply(Bytes::new(frame)),
        Err(_) => Settled::NoMemory,
    }
}

//! What a job comes to. Deciding and replying take no turn at the booth.

ghost use Rattle.std.specs.Prelude.{◌≡◌};
ghost use Rattle.host_model.specs.DeskRules.{Invoke};
ghost use Rattle.seat_booth.specs.Seats.{IsSeatOf};
ghost use Rattle.hall_pool.specs.Jobs.{IsOpenedFor, HoldsJob, SettlesJob};

use crate::asking::{Tried, apply};
use call_rules::{Call, Desk, Handler, Journal};
use hall_core::{Hall, Job, NextStep, next_step, settled_with};
use seat_booth::{Booth, Seat};
use std::alloc::Global;
use std::sync::Wait;
use streams::Settled;

/// What a job comes to whose payload makes this call; nothing where the journal has failed at it.
fn called<D: Desk, H: Handler, J: Journal, R: Wait>(
    rt: &R,
    alloc: Global,
    booth: &Booth<Hall<H, J>>,
    seat: &mut Seat<Hall<H, J>>,
    desk: &D,
    job: &Job,
    call: Call,
) -> Option<Settled>
    requires seat { IsSeatOf booth.now seat.old }
    requires hall { IsOpenedFor (D.meaning desk.now) booth.now }
    requires job { HoldsJob booth.now seat.old job.now.key job.now.payload }
    requires call { (D.meaning desk.now).decide job.now.payload ≡ Invoke call }
    ensures seat { IsSeatOf booth.now seat.new }
    ensures number { seat.new.number ≡ seat.old.number }
    ensures settled { SettlesJob (D.meaning desk.now) seat.old seat.new job.now.key job.now.payload result }
{
    let silent = call.silent;
    match apply(rt, booth, seat, job.key, call) {
        Tried::Answered(answer) => { Some(settled_with(alloc, desk, job, silent, &answer)) }
        Tried::Unanswered => Some(Settled::NoMemory),
        Tried::Failed => None,
    }
}

/// What a job comes to; nothing where the journal has failed at its call.
pub(crate) fn settle<D: Desk, H: Handler, J: Journal, R: Wait>(
    rt: &R,
    alloc: Global,
    booth: &Booth<Hall<H, J>>,
    seat: &mut Seat<Hall<H, J>>,
    desk: &D,
    job: &Job,
) -> Option<Settled>
    requires seat { IsSeatOf booth.now seat.old }
    requires hall { IsOpenedFor (D.meaning desk.now) booth.now }
    requires job { HoldsJob booth.now seat.old job.now.key job.now.payload }
    ensures seat { IsSeatOf booth.now seat.new }
    ensures number { seat.new.number ≡ seat.old.number }
    ensures settled { SettlesJob (D.meaning desk.now) seat.old seat.new job.now.key job.now.payload result }
{
    match next_step(alloc, desk, job) {
        NextStep::Apply(call) => called(rt, alloc, booth, seat, desk, job, call),
        NextStep::Put(settled) => Some(settled),
    }
}

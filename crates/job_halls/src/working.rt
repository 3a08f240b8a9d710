//! A worker's calls of the booth, each a function.

ghost use Rattle.std.specs.Prelude.{◌≡◌};
ghost use Rattle.streams.specs.declared.outcomes.Settled.{Settled};
ghost use Rattle.host_model.specs.declared.key.Key.{Key};
ghost use Rattle.machine_model.specs.HallRule as rule;
ghost use Rattle.seat_booth.specs.Seats.{IsSeatOf};
ghost use Rattle.job_halls.specs.Working.{AddsWorkerAsk, TakesJob, HoldsFound, AppliesCall};

use crate::job_hall::{AppliedCall, JobHall, TakenJob};
use call_rules::{Call, Key};
use seat_booth::{Booth, Seat};
use std::sync::Wait;
use streams::Settled;

/// Takes the oldest job, where there is one.
#[inline(always)]
pub fn take<O: JobHall, R: Wait>(rt: &R, booth: &Booth<O>, seat: &mut Seat<O>) -> TakenJob
    requires seat { IsSeatOf booth.now seat.old }
    requires hall { O.opened booth.now.opening }
    ensures seat { IsSeatOf booth.now seat.new }
    ensures number { seat.new.number ≡ seat.old.number }
    ensures taken { TakesJob (O.worker_asks seat.old.mine) (O.worker_asks seat.new.mine) result }
    ensures job { HoldsFound (O.may booth.now.opening seat.new.number seat.new.mine) O.the_apply O.the_put (O.slots booth.now.opening) result }
{
    let op = O::take_op();
    let reply = booth.call(rt, seat, op);
    O::taken(reply)
}

/// Applies a call under the key of the job that was taken.
#[inline(always)]
pub fn apply<O: JobHall, R: Wait>(
    rt: &R,
    booth: &Booth<O>,
    seat: &mut Seat<O>,
    key: Key,
    call: Call,
) -> AppliedCall
    requires seat { IsSeatOf booth.now seat.old }
    requires may { O.may booth.now.opening seat.old.number seat.old.mine (O.the_apply key call) }
    ensures seat { IsSeatOf booth.now seat.new }
    ensures number { seat.new.number ≡ seat.old.number }
    ensures applied { AppliesCall (O.worker_asks seat.old.mine) (O.worker_asks seat.new.mine) key call result }
    ensures held { (held : Key) (settled : Settled) → O.may booth.now.opening seat.old.number seat.old.mine (O.the_put held settled)
        → O.may booth.now.opening seat.new.number seat.new.mine (O.the_put held settled) }
{
    let op = O::apply_op(key, call);
    let reply = booth.call(rt, seat, op);
    O::tried(reply)
}

/// Puts what the job that was taken has come to.
#[inline(always)]
pub fn put<O: JobHall, R: Wait>(
    rt: &R,
    booth: &Booth<O>,
    seat: &mut Seat<O>,
    key: Key,
    settled: Settled,
)
    requires seat { IsSeatOf booth.now seat.old }
    requires may { O.may booth.now.opening seat.old.number seat.old.mine (O.the_put key settled) }
    ensures seat { IsSeatOf booth.now seat.new }
    ensures number { seat.new.number ≡ seat.old.number }
    ensures put { AddsWorkerAsk (O.worker_asks seat.old.mine) (O.worker_asks seat.new.mine) (rule.put key settled) rule.done }
{
    let op = O::put_op(key, settled);
    let reply = booth.call(rt, seat, op);
    O::let_go(reply);
}

/// Closes the hall, whose journal has failed.
#[inline(always)]
pub fn stop<O: JobHall, R: Wait>(rt: &R, booth: &Booth<O>, seat: &mut Seat<O>)
    requires seat { IsSeatOf booth.now seat.old }
    requires hall { O.opened booth.now.opening }
    ensures seat { IsSeatOf booth.now seat.new }
    ensures number { seat.new.number ≡ seat.old.number }
    ensures closed { AddsWorkerAsk (O.worker_asks seat.old.mine) (O.worker_asks seat.new.mine) rule.close rule.done }
{
    let op = O::close_op();
    let reply = booth.call(rt, seat, op);
    O::let_go(reply);
}

//! A worker's calls of the booth, each a function.

ghost use Rattle.std.specs.Prelude.{◌≡◌, true, [], MatchResult};
ghost use Rattle.call_rules.specs.Desks.{DeskMeaning};
ghost use Rattle.call_rules.specs.PlainCalls.{IsPlainCall};
ghost use Rattle.call_rules.specs.Handling.{handler_rules};
ghost use Rattle.machine_model.specs.HallRule as rule;
ghost use Rattle.machine_model.specs.OwnCalls.{holds_key, OwnAsksAllow};
ghost use Rattle.machine_model.specs.SeenHall.{filled};
ghost use Rattle.seat_booth.specs.Seats.{IsSeatOf};
ghost use Rattle.hall_pool.specs.Turns.{asks_made, AddsTurn};
ghost use Rattle.hall_pool.specs.Jobs.{IsOpenedNew, AddsAsk, HoldsJob, TriesCall, job_replied, tried_by};

use crate::turn::Turn;
use call_rules::{Answer, Call, Handler, Journal, Key};
use hall_core::{Hall, HallOp, HallReply, Job};
use seat_booth::{Booth, Seat};
use std::sync::Wait;
use streams::Settled;

/// What has come of a call that was applied.
#[derive(Drop)]
pub(crate) enum Tried {
    /// It is answered so.
    Answered(Answer),
    /// There was no memory for it, or for its answer.
    Unanswered,
    /// The journal has failed.
    Failed,
}

/// Lets a reply go, of whichever kind it is.
fn let_go(_reply: HallReply) {}

/// What a reply to Take means.
fn taken(reply: HallReply) -> Result<Job, Turn>
    ensures { result ≡ job_replied reply }
{
    match reply {
        HallReply::Job(key, payload) => Ok(Job { key, payload }),
        HallReply::Closed => Err(Turn::Closed),
        other => {
            let_go(other);
            Err(Turn::Empty)
        }
    }
}

/// What a reply to Apply means.
fn applied(reply: HallReply) -> Tried
    ensures { result ≡ tried_by reply }
{
    match reply {
        HallReply::Applied(answer) => Tried::Answered(answer),
        HallReply::NoMemory => Tried::Unanswered,
        other => {
            let_go(other);
            Tried::Failed
        }
    }
}

/// Takes the oldest job; or answers what a turn does that finds none.
pub(crate) fn take<H: Handler, J: Journal, R: Wait>(
    rt: &R,
    booth: &Booth<Hall<H, J>>,
    seat: &mut Seat<Hall<H, J>>,
) -> Result<Job, Turn>
    requires seat { IsSeatOf booth.now seat.old }
    requires hall { IsOpenedNew booth.now }
    ensures seat { IsSeatOf booth.now seat.new }
    ensures number { seat.new.number ≡ seat.old.number }
    ensures taken { MatchResult result
        (λ job. AddsAsk seat.old seat.new rule.take_job (rule.job job.key job.payload) × HoldsJob booth.now seat.new job.key job.payload)
        (λ turn. (desk : DeskMeaning) → AddsTurn desk seat.old.mine seat.new.mine turn) }
{
    let reply = booth.call(rt, seat, HallOp::Take);
    taken(reply)
}

/// Applies a call under the key of the job that was taken.
pub(crate) fn apply<H: Handler, J: Journal, R: Wait>(
    rt: &R,
    booth: &Booth<Hall<H, J>>,
    seat: &mut Seat<Hall<H, J>>,
    key: Key,
    call: Call,
) -> Tried
    requires seat { IsSeatOf booth.now seat.old }
    requires hall { IsOpenedNew booth.now }
    requires plain { IsPlainCall call }
    requires may { OwnAsksAllow handler_rules (filled booth.now.opening []) seat.old.number (asks_made seat.old.mine) (rule.apply key call) }
    ensures seat { IsSeatOf booth.now seat.new }
    ensures number { seat.new.number ≡ seat.old.number }
    ensures applied { TriesCall seat.old seat.new key call result }
{
    let reply = booth.call(rt, seat, HallOp::Apply(key, call));
    applied(reply)
}

/// Puts what the job that was taken has come to.
pub(crate) fn put<H: Handler, J: Journal, R: Wait>(
    rt: &R,
    booth: &Booth<Hall<H, J>>,
    seat: &mut Seat<Hall<H, J>>,
    key: Key,
    settled: Settled,
)
    requires seat { IsSeatOf booth.now seat.old }
    requires hall { IsOpenedNew booth.now }
    requires held { holds_key key (asks_made seat.old.mine) ≡ true }
    ensures seat { IsSeatOf booth.now seat.new }
    ensures number { seat.new.number ≡ seat.old.number }
    ensures put { AddsAsk seat.old seat.new (rule.put key settled) rule.done }
{
    let reply = booth.call(rt, seat, HallOp::Put(key, settled));
    let_go(reply);
}

/// Closes the hall.
pub(crate) fn close<H: Handler, J: Journal, R: Wait>(
    rt: &R,
    booth: &Booth<Hall<H, J>>,
    seat: &mut Seat<Hall<H, J>>,
)
    requires seat { IsSeatOf booth.now seat.old }
    requires hall { IsOpenedNew booth.now }
    ensures seat { IsSeatOf booth.now seat.new }
    ensures number { seat.new.number ≡ seat.old.number }
    ensures closed { AddsAsk seat.old seat.new rule.close rule.done }
{
    let reply = booth.call(rt, seat, HallOp::Close);
    let_go(reply);
}

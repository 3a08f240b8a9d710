//! The loop's calls of the booth, each a function.

ghost use Rattle.std.specs.Prelude.{◌≡◌, []};
ghost use Rattle.call_rules.specs.Handling.{handler_rules};
ghost use Rattle.machine_model.specs.HallRule as rule;
ghost use Rattle.machine_model.specs.OwnCalls.{OwnAsksAllow};
ghost use Rattle.machine_model.specs.OwnLoop.{CollectsItsOwn};
ghost use Rattle.machine_model.specs.SeenHall.{filled};
ghost use Rattle.seat_booth.specs.Seats.{IsSeatOf};
ghost use Rattle.hall_pool.specs.Turns.{asks_made};
ghost use Rattle.hall_pool.specs.Jobs.{IsOpenedNew, AddsAsk};
ghost use Rattle.host_loop.specs.Asked.{took_so, SubmitsJob, collected_reply, CollectsOutcome};

use call_rules::{Handler, Journal, Key};
use hall_core::{Hall, HallOp, HallReply};
use seat_booth::{Booth, Seat};
use std::sync::Wait;
use streams::{Bytes, Settled};

/// What has come of a try to collect an outcome.
#[derive(Drop)]
pub(crate) enum Collected {
    /// The oldest outcome, with its key.
    Outcome(Key, Settled),
    /// There is none yet.
    Empty,
    /// There is none, and the hall is closed.
    Closed,
}

/// Lets a reply go, of whichever kind it is.
fn let_go(_reply: HallReply) {}

/// What a reply to Submit means.
fn took(reply: HallReply) -> bool
    ensures { result ≡ took_so reply }
{
    let is_done = matches!(&reply, HallReply::Done);
    let_go(reply);
    is_done
}

/// What a reply to Collect means.
fn meant(reply: HallReply) -> Collected
    ensures { result ≡ collected_reply reply }
{
    match reply {
        HallReply::Settled(key, settled) => Collected::Outcome(key, settled),
        HallReply::Closed => Collected::Closed,
        other => {
            let_go(other);
            Collected::Empty
        }
    }
}

/// Submits a job; answers whether the hall took it.
pub(crate) fn submit<H: Handler, J: Journal, R: Wait>(
    rt: &R,
    booth: &Booth<Hall<H, J>>,
    seat: &mut Seat<Hall<H, J>>,
    key: Key,
    payload: Bytes,
) -> bool
    requires seat { IsSeatOf booth.now seat.old }
    requires hall { IsOpenedNew booth.now }
    requires zeroth { seat.old.number ≡ 0 }
    requires may { OwnAsksAllow handler_rules (filled booth.now.opening []) seat.old.number (asks_made seat.old.mine) (rule.submit key payload) }
    ensures seat { IsSeatOf booth.now seat.new }
    ensures zeroth { seat.new.number ≡ 0 }
    ensures submitted { SubmitsJob seat.old seat.new key payload result }
    ensures own { CollectsItsOwn (asks_made seat.new.mine) }
{
    let reply = booth.call(rt, seat, HallOp::Submit(key, payload));
    took(reply)
}

/// Collects the oldest outcome, where there is one.
pub(crate) fn collect<H: Handler, J: Journal, R: Wait>(
    rt: &R,
    booth: &Booth<Hall<H, J>>,
    seat: &mut Seat<Hall<H, J>>,
) -> Collected
    requires seat { IsSeatOf booth.now seat.old }
    requires hall { IsOpenedNew booth.now }
    requires zeroth { seat.old.number ≡ 0 }
    ensures seat { IsSeatOf booth.now seat.new }
    ensures zeroth { seat.new.number ≡ 0 }
    ensures collected { CollectsOutcome seat.old seat.new result }
    ensures own { CollectsItsOwn (asks_made seat.new.mine) }
{
    let reply = booth.call(rt, seat, HallOp::Collect);
    meant(reply)
}

/// Closes the hall.
pub(crate) fn close<H: Handler, J: Journal, R: Wait>(
    rt: &R,
    booth: &Booth<Hall<H, J>>,
    seat: &mut Seat<Hall<H, J>>,
)
    requires seat { IsSeatOf booth.now seat.old }
    requires hall { IsOpenedNew booth.now }
    requires zeroth { seat.old.number ≡ 0 }
    ensures seat { IsSeatOf booth.now seat.new }
    ensures zeroth { seat.new.number ≡ 0 }
    ensures closed { AddsAsk seat.old seat.new rule.close rule.done }
{
    let_go(booth.call(rt, seat, HallOp::Close));
}

//! A loop's calls of the booth, each a function.

ghost use Rattle.std.specs.Prelude.{◌≡◌};
ghost use Rattle.machine_model.specs.OwnLoop.{CollectsItsOwn};
ghost use Rattle.seat_booth.specs.Seats.{IsSeatOf};
ghost use Rattle.job_halls.specs.Asking.{MaySubmit, HandsInJob, GainsOutcome, ClosesIt};

use crate::job_hall::{JobHall, Side, TakenOutcome};
use call_rules::Key;
use seat_booth::{Booth, Seat};
use std::sync::Wait;
use streams::Bytes;

/// Submits a job; answers whether the hall took it.
#[inline(always)]
pub fn submit<O: JobHall, R: Wait>(
    rt: &R,
    booth: &Booth<O>,
    seat: &mut Seat<O>,
    side: Side,
    key: Key,
    payload: Bytes,
) -> bool
    requires seat { IsSeatOf booth.now seat.old }
    requires hall { O.opened_for side booth.now.opening }
    requires own { seat.old.number ≡ side.number }
    requires fits { O.fits side seat.old.mine }
    requires names { O.names side key }
    requires may { MaySubmit (O.share side) (O.asks side seat.old.mine) key payload }
    ensures seat { IsSeatOf booth.now seat.new }
    ensures number { seat.new.number ≡ side.number }
    ensures fits { O.fits side seat.new.mine }
    ensures submitted { HandsInJob (O.asks side seat.old.mine) (O.asks side seat.new.mine) key payload result }
    ensures own { CollectsItsOwn (O.asks side seat.new.mine) }
{
    let op = O::submit_op(side, key, payload);
    let reply = booth.call(rt, seat, op);
    O::took(reply)
}

/// Collects the oldest outcome, where there is one.
#[inline(always)]
pub fn collect<O: JobHall, R: Wait>(
    rt: &R,
    booth: &Booth<O>,
    seat: &mut Seat<O>,
    side: Side,
) -> TakenOutcome
    requires seat { IsSeatOf booth.now seat.old }
    requires hall { O.opened_for side booth.now.opening }
    requires own { seat.old.number ≡ side.number }
    requires fits { O.fits side seat.old.mine }
    ensures seat { IsSeatOf booth.now seat.new }
    ensures number { seat.new.number ≡ side.number }
    ensures fits { O.fits side seat.new.mine }
    ensures collected { GainsOutcome (O.asks side seat.old.mine) (O.asks side seat.new.mine) result }
    ensures own { CollectsItsOwn (O.asks side seat.new.mine) }
{
    let op = O::collect_op(side);
    let reply = booth.call(rt, seat, op);
    O::collected(side, reply)
}

/// Closes the hall.
#[inline(always)]
pub fn close<O: JobHall, R: Wait>(rt: &R, booth: &Booth<O>, seat: &mut Seat<O>, side: Side)
    requires seat { IsSeatOf booth.now seat.old }
    requires hall { O.opened_for side booth.now.opening }
    requires own { seat.old.number ≡ side.number }
    requires fits { O.fits side seat.old.mine }
    ensures seat { IsSeatOf booth.now seat.new }
    ensures number { seat.new.number ≡ side.number }
    ensures fits { O.fits side seat.new.mine }
    ensures closed { ClosesIt (O.asks side seat.old.mine) (O.asks side seat.new.mine) }
{
    let op = O::close_op();
    let reply = booth.call(rt, seat, op);
    O::let_go(reply);
}

//! The smallest object: a running sum, and what two threads make of it.
ghost use Rattle.std.specs.Prelude.{◌≡◌, ℕ, ◌+◌, ◌%◌, ◌^◌, ◌<◌, ◌≤◌, IfSome};
ghost use Rattle.seat_booth.specs.Seats.{IsSeatOf};
ghost use Rattle.seat_booth.specs.Sums.{Adds, added};

use crate::booth::{Booth, NoBooth, Seat, new_booth};
use crate::object::Object;
use std::alloc::Global;
use std::sync::Wait;
use std::thread::{Threads, join};

/// A sum modulo 2^64. Its one operation adds a number and gives the new sum.
#[derive(Drop)]
pub struct RunningSum {
    /// The sum so far.
    pub sum: u64,
}

impl Object for RunningSum {
    type Op = u64;

    type Reply = u64;

    type Meaning = u64;

    ghost meaning = { λ s. s.sum };

    ghost gives = { Adds };

    ghost can = { λ before n. Unit {0} };

    ghost may = { λ first seat own n. Unit {0} };

    fn step(&mut self, op: u64) -> u64 {
        self.sum = self.sum.wrapping_add(op);
        self.sum
    }

    ghost follows = { λ first seat log op history allowed may. tt };
}

/// Adds a number by one call.
fn add<R: Wait>(
    rt: &R,
    booth: &Booth<RunningSum>,
    mut seat: Seat<RunningSum>,
    n: u64,
) -> Seat<RunningSum>
    requires { IsSeatOf booth.now seat }
    ensures seat { IsSeatOf booth.now result × (result.number ≡ seat.number) }
    ensures added { added result.mine ≡ added seat.mine + n }
{
    booth.call(rt, &mut seat, n);
    seat
}

/// Two threads add a number each, at seats of their own.
fn add_in_threads<R: Threads + Wait + Sync>(
    rt: &R,
    booth: &Booth<RunningSum>,
    first: Seat<RunningSum>,
    second: Seat<RunningSum>,
    a: u64,
    b: u64,
) -> (Seat<RunningSum>, Seat<RunningSum>)
    requires { IsSeatOf booth.now first × IsSeatOf booth.now second }
    ensures seats { IsSeatOf booth.now result.0 × IsSeatOf booth.now result.1 }
    ensures first { (result.0.number ≡ first.number) × (added result.0.mine ≡ added first.mine + a) }
    ensures second { (result.1.number ≡ second.number) × (added result.1.mine ≡ added second.mine + b) }
{
    join(
        rt,
        || add(rt, booth, first, a),
        || add(rt, booth, second, b),
    )
}

/// Two threads add a number each to a sum of 0. What the booth gives at its end is the sum of both.
pub fn add_both<R: Threads + Wait + Sync>(rt: &R, alloc: Global, a: u64, b: u64) -> Option<u64>
    requires { a + b < 2 ^ 64 }
    ensures { IfSome result (λ sum. sum ≡ a + b) }
{
    let Ok((booth, mut seats)) = new_booth(alloc, RunningSum { sum: 0 }, 2) else {
        return None;
    };
    let (Some(second), Some(first)) = (seats.pop(), seats.pop()) else {
        unreachable!()
    };
    let (first, second) = add_in_threads(rt, &booth, first, second, a, b);
    seats.push_reserved(first);
    seats.push_reserved(second);
    Some(booth.close(seats).sum)
}

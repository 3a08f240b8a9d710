//! Threads add to one sum: two by the booth's example, and up to eight at a booth and under a lock of std, with the nanoseconds of a call on standard error.

ghost use Rattle.std.specs.Prelude.{◌≡◌, ◌≤◌, All, length};
ghost use Rattle.seat_booth.specs.Limits.{most_seats};
ghost use Rattle.seat_booth.specs.Seats.{IsSeatOf};

use seat_booth::running_sum::{RunningSum, add_both};
use seat_booth::{Booth, Seat, new_booth};
use std::alloc::Global;
use std::sync::{Mutex, Wait};
use std::test::Fail;
use std::thread::{Threads, map_indices, map_vec};
use std::time::Instant;

/// The calls of all threads together.
const CALLS: u32 = 400_000;

/// One seat makes so many calls.
fn call_booth<R: Wait>(
    rt: &R,
    booth: &Booth<RunningSum>,
    mut seat: Seat<RunningSum>,
    calls: u32,
) -> Seat<RunningSum>
    requires { IsSeatOf booth.now seat }
    ensures { IsSeatOf booth.now result }
{
    for _ in 0..calls {
        booth.call(rt, &mut seat, 1);
    }
    seat
}

/// One thread takes the lock so many times.
fn take_lock<R: Wait>(rt: &R, sum: &Mutex<u64>, calls: u32) {
    for _ in 0..calls {
        let mut held = sum.lock(rt);
        *held = held.wrapping_add(1);
    }
}

/// The sum that so many threads make at a booth.
fn booth_sum<R: Threads + Wait + Sync>(rt: &R, alloc: Global, threads: u32) -> Option<u64>
    requires { (1 ≤ threads) × (threads ≤ most_seats) }
{
    let Ok((booth, seats)) = new_booth(alloc, RunningSum { sum: 0 }, threads) else {
        return None;
    };
    let calls = CALLS / threads;
    let shared = &booth;
    let one = |seat: Seat<RunningSum>| -> Seat<RunningSum>
        requires { IsSeatOf shared.now seat }
        ensures { IsSeatOf shared.entry.now result }
    { call_booth(rt, shared, seat, calls) };
    let Ok(seats) = map_vec(rt, seats, &one) else {
        return None;
    };
    Some(booth.close(seats).sum)
}

/// The sum that so many threads make under a lock.
fn mutex_sum<R: Threads + Wait + Sync>(rt: &R, alloc: Global, threads: u32) -> Option<u64>
    requires { 1 ≤ threads }
{
    let sum = Mutex::new(0);
    let calls = CALLS / threads;
    map_indices(rt, alloc, threads as usize, &|_| take_lock(rt, &sum, calls)).ok()?;
    Some(sum.into_inner())
}

/// The nanoseconds of a call, where all of them took from one time to another.
fn each_takes(from: Instant, to: Instant) -> u128 {
    to.duration_since(from).as_nanos() / u128::from(CALLS)
}

#[test]
fn threads_add_to_one_sum(rt: HostRuntime) -> Result<(), Fail> {
    assert!(rt; add_both(&rt, rt.alloc(), 5, 2) == Some(7));
    for threads in [1, 2, 4, 8] {
        let start = Instant::now(&rt)?;
        let booth = booth_sum(&rt, rt.alloc(), threads);
        let between = Instant::now(&rt)?;
        let mutex = mutex_sum(&rt, rt.alloc(), threads);
        let end = Instant::now(&rt)?;
        assert!(rt; booth == Some(400_000) && mutex == Some(400_000));
        let (booth, mutex) = (each_takes(start, between), each_takes(between, end));
        eprintln!(rt; "threads {threads}: booth {booth} ns, mutex {mutex} ns a call")?;
    }
    Ok(())
}

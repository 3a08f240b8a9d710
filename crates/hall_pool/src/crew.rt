//! A crew's threads: a scope for each worker, inside that of the one before it.

ghost use Rattle.std.specs.Prelude.{◌≡◌, ℕ, ◌+◌, ◌^◌, ◌<◌, ◌≤◌, All, MatchOption, vec_len, vec_capacity};
ghost use Rattle.std.specs.Thread.{IsSync};
ghost use Rattle.hall_pool.specs.Crew.{MayServe, HasServed, HasServedAs, numbers_of};

use crate::workplace::{Workplace, run_out};
use crate::{Door, Worker};
use call_rules::{Desk, Handler, Journal};
use hall_core::Hall;
use outside::{Bell, Gate};
use seat_booth::{Booth, Object, Seat};
use std::snapshot::Snapshot;
use std::sync::Wait;
use std::thread;
use std::thread::{Promise, Threads};

/// What a thread promises of the worker that it hands back.
#[derive(Drop)]
struct Service<O: Object, D> {
    booth: Snapshot<Booth<O>>,
    desk: Snapshot<D>,
    before: Snapshot<Worker<O>>,
}

impl<D: Desk, H: Handler, J: Journal> Promise<Worker<Hall<H, J>>> for Service<Hall<H, J>, D> {
    ghost use Rattle.hall_pool.specs.Crew.{HasServedAs};

    ghost kept_by = { λ s worker. HasServedAs (D.meaning s.desk.value) s.booth.value s.before.value worker };
}

impl<O: Object, D> Service<O, D> {
    fn of<G, B>(place: &Workplace<O, D, G, B>, worker: &Worker<O>) -> Self
        ensures booth { result.booth.value ≡ place.now.booth.now }
        ensures desk { result.desk.value ≡ place.now.desk.now }
        ensures before { result.before.value ≡ worker.now }
    {
        Service {
            booth: Snapshot::of(place.booth),
            desk: Snapshot::of(place.desk),
            before: Snapshot::of(worker),
        }
    }
}

/// Leads, and closes the door behind that, so that each worker finds the hall closed.
fn call_and_close<T, F: FnOnce(u32) -> T>(door: &Door, started: u32, lead: &mut Option<F>) -> T
    requires { MatchOption lead.old ⊥ (λ l. F.IsAlwaysCallable l) }
    ensures { MatchOption lead.old ⊥ (λ l. F.post l started result) }
{
    let Some(lead) = lead.take() else {
        unreachable!()
    };
    let led = lead(started);
    door.close();
    led
}

/// Starts a worker on a thread of its own, and does the rest beside it, which is told how many were started by then. Once the rest is
/// done it joins the worker, or runs it here where no thread could be made.
fn beside<
    D: Desk + Sync,
    G: Gate + Sync,
    B: Bell,
    H: Handler,
    J: Journal + Send,
    R: Threads + Wait + Sync,
    T,
    M: FnOnce(u32) -> T,
>(
    rt: &R,
    place: &Workplace<Hall<H, J>, D, G, B>,
    worker: Worker<Hall<H, J>>,
    started: u32,
    rest: M,
) -> (T, Worker<Hall<H, J>>)
    requires threads { IsSync R.row }
    requires seat { MayServe (D.meaning place.now.desk.now) place.now.booth.now worker }
    requires rest { M.IsAlwaysCallable rest }
    ensures rest { (n : ℕ) × (n ≤ started + 1) × M.post rest n result.0 }
    ensures served { HasServedAs (D.meaning place.now.desk.now) place.now.booth.now worker result.1 }
{
    thread::scope(
        thread::scope_env(),
        rt,
        move |scope| -> (T, Worker<Hall<H, J>>)
            requires threads { IsSync R.row }
            requires seat { MayServe (D.meaning place.now.desk.now) place.now.booth.now worker }
            requires rest { M.IsAlwaysCallable rest }
            ensures rest { (n : ℕ) × (n ≤ started + 1) × M.post rest n result.0 }
            ensures served { HasServedAs (D.meaning place.entry.now.desk.now) place.entry.now.booth.now worker result.1 }
        {
            match scope.spawn_with(
                Service::of(place, &worker),
                move || -> Worker<Hall<H, J>>
                    requires { MayServe (D.meaning place.now.desk.now) place.now.booth.now worker }
                    ensures { HasServedAs (D.meaning place.entry.now.desk.now) place.entry.now.booth.now worker result }
                { run_out(rt, place, worker) },
            ) {
                Ok(child) => {
                    let more = started.saturating_add(1);
                    let done = rest(more);
                    (done, child.join(rt))
                }
                Err(refused) => {
                    let done = rest(started);
                    (done, (refused.value)())
                }
            }
        },
    )
}

/// Starts a worker for each of these seats, the last one first, and leads; so many were started already.
fn with_rest<
    D: Desk + Sync,
    G: Gate + Sync,
    B: Bell,
    H: Handler,
    J: Journal + Send,
    R: Threads + Wait + Sync,
    T,
    F: FnOnce(u32) -> T,
>(
    rt: &R,
    place: &Workplace<Hall<H, J>, D, G, B>,
    mut seats: Vec<Seat<Hall<H, J>>>,
    started: u32,
    lead: &mut Option<F>,
) -> (T, Vec<Seat<Hall<H, J>>>)
    requires threads { IsSync R.row }
    requires seats { All (MayServe (D.meaning place.now.desk.now) place.now.booth.now) seats.items }
    requires lead { MatchOption lead.old ⊥ (λ l. F.IsAlwaysCallable l) }
    ensures led { MatchOption lead.old ⊥ (λ l. (n : ℕ) × (n ≤ started + vec_len seats) × F.post l n result.0) }
    ensures seats { All (HasServed (D.meaning place.now.desk.now) place.now.booth.now) result.1.items }
    ensures numbers { numbers_of result.1.items ≡ numbers_of seats.items }
    ensures room { (vec_len result.1 ≡ vec_len seats) × (vec_capacity result.1 ≡ vec_capacity seats) }
{
    let Some(seat) = seats.pop() else {
        return (call_and_close(place.door, started, lead), seats);
    };
    let worker = Worker::new(seat);
    let ((led, mut seats), worker) = beside(
        rt,
        place,
        worker,
        started,
        move |more| -> (T, Vec<Seat<Hall<H, J>>>)
            requires threads { IsSync R.row }
            requires seats { All (MayServe (D.meaning place.now.desk.now) place.now.booth.now) seats.items }
            requires lead { MatchOption lead.now ⊥ (λ l. F.IsAlwaysCallable l) }
            ensures led { MatchOption lead.entry.now ⊥ (λ l. (n : ℕ) × (n ≤ more + vec_len seats) × F.post l n result.0) }
            ensures seats { All (HasServed (D.meaning place.entry.now.desk.now) place.entry.now.booth.now) result.1.items }
            ensures numbers { numbers_of result.1.items ≡ numbers_of seats.items }
            ensures room { (vec_len result.1 ≡ vec_len seats) × (vec_capacity result.1 ≡ vec_capacity seats) }
        { with_rest(rt, place, seats, more, lead) },
    );
    seats.push_reserved(worker.into_seat());
    (led, seats)
}

/// Starts a worker for each seat on a thread of its own, leads in this thread, and takes every seat back: once what leads is done it
/// joins each worker, or runs it here where no thread could be made. What leads is told how many were started, and closes the
/// hall; then the door is closed.
pub fn with_crew<
    D: Desk + Sync,
    G: Gate + Sync,
    B: Bell,
    H: Handler,
    J: Journal + Send,
    R: Threads + Wait + Sync,
    T,
    F: FnOnce(u32) -> T,
>(
    rt: &R,
    place: &Workplace<Hall<H, J>, D, G, B>,
    seats: Vec<Seat<Hall<H, J>>>,
    lead: F,
) -> (T, Vec<Seat<Hall<H, J>>>)
    requires seats { All (MayServe (D.meaning place.now.desk.now) place.now.booth.now) seats.items }
    requires few { vec_len seats < 2 ^ 32 }
    requires lead { F.IsAlwaysCallable lead }
    ensures led { (started : ℕ) × (started ≤ vec_len seats) × F.post lead started result.0 }
    ensures seats { All (HasServed (D.meaning place.now.desk.now) place.now.booth.now) result.1.items }
    ensures numbers { numbers_of result.1.items ≡ numbers_of seats.items }
    ensures room { (vec_len result.1 ≡ vec_len seats) × (vec_capacity result.1 ≡ vec_capacity seats) }
{
    let mut lead = Some(lead);
    with_rest(rt, place, seats, 0, &mut lead)
}

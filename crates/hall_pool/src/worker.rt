//! Workers: threads of a pool, each with a seat of its own at the booth.

ghost use Rattle.std.specs.Prelude.{◌≡◌, List, [], ◌∷◌, ◌++◌};
ghost use Rattle.machine_model.specs.HallRule as rule;
ghost use Rattle.seat_booth.specs.Seats.{IsSeatOf};
ghost use Rattle.hall_core.specs.Asked.{StepCall};
ghost use Rattle.hall_pool.specs.Turns.{asked_in, AddsTurn, AddsRun};
ghost use Rattle.hall_pool.specs.Jobs.{IsOpenedFor, HoldsJob};

use crate::asking::{close, put, take};
use crate::door::{Door, DoorGate};
use crate::settling::settle;
use crate::turn::Turn;
use call_rules::{Desk, Handler, Journal};
use hall_core::{Hall, Job};
use outside::{Bell, Gate};
use seat_booth::{Booth, Object, Seat};
use std::alloc::Global;
use std::marker::Model;
use std::sync::Wait;

/// What takes jobs, calls for them, and puts what they come to. Contracts see it as its seat.
#[derive(Drop)]
pub struct Worker<O: Object> {
    seat: Seat<O>,
}

impl<O: Object> Model for Worker<O> {
    ghost use Rattle.seat_booth.specs.Seats.{SeatView};

    ghost Value = { SeatView O.Op O.Reply O.Meaning };

    ghost view = { λ w. w.seat };
}

/// Does what a job that was taken asks for, and puts what it came to; or closes the hall, where the journal has failed at its call.
fn work<D: Desk, G: Gate, H: Handler, J: Journal, R: Wait>(
    rt: &R,
    alloc: Global,
    booth: &Booth<Hall<H, J>>,
    seat: &mut Seat<Hall<H, J>>,
    desk: &D,
    gate: &G,
    job: Job,
) -> Turn
    requires seat { IsSeatOf booth.now seat.old }
    requires hall { IsOpenedFor (D.meaning desk.now) booth.now }
    requires job { HoldsJob booth.now seat.old job.key job.payload }
    ensures seat { IsSeatOf booth.now seat.new }
    ensures number { seat.new.number ≡ seat.old.number }
    ensures turn { (before : List StepCall) → asked_in seat.old.mine ≡ asked_in before ++ (rule.take_job, rule.job job.key job.payload) ∷ []
        → AddsTurn (D.meaning desk.now) before seat.new.mine result }
{
    let Some(settled) = settle(rt, alloc, booth, seat, desk, &job) else {
        close(rt, booth, seat);
        return Turn::Journal;
    };
    put(rt, booth, seat, job.key, settled);
    gate.done(rt, job.key.c, job.key.i);
    Turn::Worked(job.key)
}

impl<H: Handler, J: Journal> Worker<Hall<H, J>> {
    /// A worker with this seat, which has made no call.
    pub fn new(seat: Seat<Hall<H, J>>) -> Self
        requires { seat.mine ≡ [] }
        ensures { result ≡ seat }
    {
        Worker { seat }
    }

    /// One turn: takes a job, passes the gate, does what the job asks for, and puts what it came to. It answers what it found.
    pub fn turn<D: Desk, G: Gate, R: Wait>(
        &mut self,
        rt: &R,
        alloc: Global,
        booth: &Booth<Hall<H, J>>,
        desk: &D,
        gate: &G,
    ) -> Turn
        requires seat { IsSeatOf booth.now self.old }
        requires hall { IsOpenedFor (D.meaning desk.now) booth.now }
        ensures seat { IsSeatOf booth.now self.new }
        ensures number { self.new.number ≡ self.old.number }
        ensures turn { AddsTurn (D.meaning desk.now) self.old.mine self.new.mine result }
    {
        let seat = &mut self.seat;
        match take(rt, booth, seat) {
            Ok(job) => {
                gate.pass(rt, job.key.c, job.key.i);
                work(rt, alloc, booth, seat, desk, gate, job)
            }
            Err(turn) => turn,
        }
    }

    /// Makes turns until the hall is closed, or the journal has failed. It waits at the door where there is no job, and rings the bell
    /// after each job, and before it answers.
    pub fn run<D: Desk + Sync, G: Gate + Sync, B: Bell, R: Wait>(
        self,
        rt: &R,
        alloc: Global,
        booth: &Booth<Hall<H, J>>,
        desk: &D,
        gate: &G,
        door: &Door,
        bell: &B,
    ) -> (Self, Turn)
        requires seat { IsSeatOf booth.now self }
        requires hall { IsOpenedFor (D.meaning desk.now) booth.now }
        ensures seat { IsSeatOf booth.now result.0 }
        ensures number { result.0.number ≡ self.number }
        ensures turns { AddsRun (D.meaning desk.now) self.mine result.0.mine result.1 }
    {
        let mut worker = self;
        let gate = DoorGate { gate, door };
        let mut found: u32 = 0;
        door.look();
        for _ in rt.forever() {
            match worker.turn(rt, alloc, booth, desk, &gate) {
                Turn::Worked(_) => {
                    bell.ring(rt);
                    found = found.saturating_add(1);
                }
                Turn::Empty => found = door.wait(rt, found),
                Turn::Closed => {
                    bell.ring(rt);
                    return (worker, Turn::Closed);
                }
                Turn::Journal => {
                    bell.ring(rt);
                    return (worker, Turn::Journal);
                }
            }
        }
        unreachable!()
    }

    /// Hands the seat back.
    pub fn into_seat(self) -> Seat<Hall<H, J>>
        ensures { result ≡ self }
    {
        self.seat
    }
}

//! Serving at a booth: the loop and its crew, and the end of the booth.

ghost use Rattle.std.specs.Prelude.{◌≡◌, ◌+◌, ◌≤◌, ℕ, All, [], length, map, vec_len, vec_capacity};
ghost use Rattle.outside.specs.Opening.{AreFreshLinks};
ghost use Rattle.conn_table.specs.Servable.{CanServe};
ghost use Rattle.machine_model.specs.HallState.{IsNewlyOpened};
ghost use Rattle.machine_model.specs.SeenHall.{MayHave, filled};
ghost use Rattle.seat_booth.specs.Seats.{IsSeatOf};
ghost use Rattle.hall_pool.specs.Jobs.{IsOpenedFor};
ghost use Rattle.hall_pool.specs.Crew.{IsNewSeating};
ghost use Rattle.loop_conns.specs.Going.{longest_payload};
ghost use Rattle.host_loop.specs.Going.{AreNewTools};
ghost use Rattle.host_loop.specs.Left.{IsLeftOf};
ghost use Rattle.host_loop.specs.Served.{IsServed};

use crate::holdings::{Host, Serving};
use crate::laws::{nothing_is_served, what_ends_is_served};
use crate::leading::lead_crew;
use crate::opening::{Tools, unserved};
use crate::serving::Served;
use call_rules::{Desk, Handler, Journal};
use conn_table::Outcome;
use hall_core::Hall;
use hall_pool::{Seating, Worker, Workplace, close_all, open_for_crew};
use outside::{Gate, Links};
use seat_booth::{Booth, NoBooth, Seat};
use std::sync::Wait;
use std::thread::Threads;

/// Ends a booth with all its seats. What is left of serving comes back.
fn end<H: Handler, J: Journal>(
    booth: Booth<Hall<H, J>>,
    serving: Serving<Hall<H, J>>,
    crew: Vec<Seat<Hall<H, J>>>,
    outcome: Outcome,
) -> Served<H, J>
    requires seat { IsSeatOf booth serving.seat }
    requires own { IsSeatOf booth serving.own }
    requires crew { All (IsSeatOf booth) crew.items }
    requires every { length crew.items + 2 ≡ booth.seats }
    requires room { vec_len crew + 2 ≤ vec_capacity crew }
    ensures ended { IsLeftOf booth serving.seat serving.own crew.items (map H.service result.handlers.items) (J.told result.journal) (J.torn result.journal) (J.faults result.journal) }
    ensures ends { result.ends ≡ serving.conns.causes.items }
    ensures outcome { result.outcome ≡ outcome }
{
    let Serving {
        conns,
        seat,
        own,
        held: _,
        buffer: _,
    } = serving;
    let hall = close_all(booth, seat, own.into_seat(), crew);
    let (handlers, journal) = hall.into_parts();
    Served {
        ends: conns.into_ends(),
        handlers,
        journal,
        outcome,
    }
}

/// Serves with these tools, at a booth with these seats.
fn serve_at<
    L: Links,
    D: Desk + Sync,
    H: Handler,
    J: Journal + Send,
    G: Gate + Sync,
    R: Threads + Wait + Sync,
>(
    rt: &R,
    host: &Host<D, G>,
    links: &mut L,
    booth: Booth<Hall<H, J>>,
    seating: Seating<Hall<H, J>>,
    tools: Tools<L::Bell>,
) -> Served<H, J>
    requires fresh { AreFreshLinks (L.state links.old) }
    requires small { host.now.limits.max_frame ≤ longest_payload }
    requires longest { (D.meaning host.now.desk.now).max_frame ≡ host.now.limits.max_frame }
    requires opened { IsOpenedFor (D.meaning host.now.desk.now) booth }
    requires tools { AreNewTools host.now.limits.read_budget tools }
    requires many { booth.seats ≤ 10 }
    requires seating { (workers : ℕ) × (booth.seats ≡ workers + 2) × IsNewSeating booth workers seating.first seating.own seating.crew.items }
    requires room { vec_len seating.crew + 2 ≤ vec_capacity seating.crew }
    ensures plan { L.plan links.new ≡ L.plan links.old }
    ensures served { IsServed
        (record { desk = D.meaning host.now.desk.now; services = booth.opening.memories; budget = host.now.limits.read_budget })
        (record {
          first = L.state links.old;
          links = L.state links.new;
          causes = result.ends;
          outcome = result.outcome;
          services = map H.service result.handlers.items;
          told = J.told result.journal;
          torn = J.torn result.journal;
          faults_before = booth.opening.faults;
          faults = J.faults result.journal;
        }) }
{
    what_ends_is_served();
    let Seating { first, own, crew } = seating;
    let Tools {
        conns,
        buffer,
        door,
        bell,
    } = tools;
    let serving = Serving {
        conns,
        seat: first,
        own: Worker::new(own),
        held: Vec::new(host.alloc),
        buffer,
    };
    let place = Workplace {
        alloc: host.alloc,
        booth: &booth,
        desk: host.desk,
        gate: host.gate,
        door: &door,
        bell: &bell,
    };
    let (outcome, serving, crew) = lead_crew(rt, &place, links, serving, crew, host.limits);
    end(booth, serving, crew, outcome)
}

/// Serves with these tools, this hall and so many workers.
pub(crate) fn serve_hall<
    L: Links,
    D: Desk + Sync,
    H: Handler,
    J: Journal + Send,
    G: Gate + Sync,
    R: Threads + Wait + Sync,
>(
    rt: &R,
    host: &Host<D, G>,
    links: &mut L,
    hall: Hall<H, J>,
    tools: Tools<L::Bell>,
    workers: u32,
) -> Served<H, J>
    requires fresh { AreFreshLinks (L.state links.old) }
    requires can { CanServe host.now.limits workers (D.meaning host.now.desk.now).max_frame (D.meaning host.now.desk.now).slots (length hall.memories) }
    requires newly { IsNewlyOpened (filled hall []) }
    requires empty { MayHave hall.told [] }
    requires tools { AreNewTools host.now.limits.read_budget tools }
    ensures plan { L.plan links.new ≡ L.plan links.old }
    ensures served { IsServed
        (record { desk = D.meaning host.now.desk.now; services = hall.memories; budget = host.now.limits.read_budget })
        (record {
          first = L.state links.old;
          links = L.state links.new;
          causes = result.ends;
          outcome = result.outcome;
          services = map H.service result.handlers.items;
          told = J.told result.journal;
          torn = J.torn result.journal;
          faults_before = hall.faults;
          faults = J.faults result.journal;
        }) }
{
    nothing_is_served();
    match open_for_crew(host.alloc, hall, workers) {
        Ok((booth, seating)) => serve_at(rt, host, links, booth, seating, tools),
        Err(NoBooth(hall)) => {
            let (handlers, journal) = hall.into_parts();
            unserved(host.alloc, handlers, journal)
        }
    }
}

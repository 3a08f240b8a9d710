//! The loop in its thread, and its crew beside it.

ghost use Rattle.std.specs.Prelude.{◌≡◌, ◌≤◌, All, vec_len, vec_capacity};
ghost use Rattle.hall_pool.specs.Crew.{MayServe, HasServed};
ghost use Rattle.host_loop.specs.Going.{BeginsToServe, EndsIn};

use crate::holdings::{Run, Serving};
use call_rules::{Desk, Handler, Journal};
use conn_table::{Limits, Outcome};
use hall_core::Hall;
use hall_pool::{Workplace, with_crew};
use outside::{Gate, Links};
use seat_booth::Seat;
use std::snapshot::Snapshot;
use std::sync::Wait;
use std::thread::Threads;

/// The loop, beside so many workers that were started. What it holds comes back, and how it came out.
fn run_loop<L: Links, D: Desk, G: Gate, H: Handler, J: Journal, R: Wait>(
    rt: &R,
    place: &Workplace<Hall<H, J>, D, G, L::Bell>,
    links: &mut L,
    serving: Serving<Hall<H, J>>,
    limits: Limits,
    started: u32,
) -> (Outcome, Serving<Hall<H, J>>)
    requires serving { BeginsToServe D.meaning L.state place.now limits links.old serving }
    ensures ended { EndsIn D.meaning L.state place.now limits links.old links.new result.1 result.0 }
    ensures plan { L.plan links.new ≡ L.plan links.old }
{
    let mut serving = serving;
    let run = Run {
        alloc: place.alloc,
        booth: place.booth,
        desk: place.desk,
        gate: place.gate,
        door: place.door,
        bell: place.bell,
        first: Snapshot::of(links),
        limits,
        crewed: started > 0,
    };
    let outcome = serving.run_to_end(rt, &run, links);
    (outcome, serving)
}

/// The loop, and a crew with these seats beside it. The seats come back.
pub(crate) fn lead_crew<
    L: Links,
    D: Desk + Sync,
    G: Gate + Sync,
    H: Handler,
    J: Journal + Send,
    R: Threads + Wait + Sync,
>(
    rt: &R,
    place: &Workplace<Hall<H, J>, D, G, L::Bell>,
    links: &mut L,
    serving: Serving<Hall<H, J>>,
    crew: Vec<Seat<Hall<H, J>>>,
    limits: Limits,
) -> (Outcome, Serving<Hall<H, J>>, Vec<Seat<Hall<H, J>>>)
    requires serving { BeginsToServe D.meaning L.state place.now limits links.old serving }
    requires crew { All (MayServe (D.meaning place.now.desk.now) place.now.booth.now) crew.items }
    requires few { vec_len crew ≤ 8 }
    ensures ended { EndsIn D.meaning L.state place.now limits links.old links.new result.1 result.0 }
    ensures plan { L.plan links.new ≡ L.plan links.old }
    ensures crew { All (HasServed (D.meaning place.now.desk.now) place.now.booth.now) result.2.items }
    ensures room { (vec_len result.2 ≡ vec_len crew) × (vec_capacity result.2 ≡ vec_capacity crew) }
{
    let ((back, outcome, serving), crew) = with_crew(
        rt,
        place,
        crew,
        move |started| -> (&mut L, Outcome, Serving<Hall<H, J>>)
            requires serving { BeginsToServe D.meaning L.state place.now limits links.now serving }
            ensures same { result.0.ghost_name ≡ links.entry.ghost_name }
            ensures ended { EndsIn D.meaning L.state place.entry.now limits links.entry.now result.0.now result.2 result.1 }
            ensures plan { L.plan result.0.now ≡ L.plan links.entry.now }
        {
            let (outcome, serving) = run_loop(rt, place, links, serving, limits, started);
            (links, outcome, serving)
        },
    );
    let _ = back;
    (outcome, serving, crew)
}

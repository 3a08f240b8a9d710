//! Where workers work, and what a worker does there.

ghost use Rattle.std.specs.Prelude.{◌≡◌};
ghost use Rattle.hall_pool.specs.Crew.{MayServe, HasServedAs};

use crate::{Door, Worker, laws};
use call_rules::{Desk, Handler, Journal};
use hall_core::Hall;
use outside::{Bell, Gate};
use seat_booth::{Booth, Object};
use std::alloc::Global;
use std::sync::Wait;

/// What workers share: the booth round their hall, the desk that decides and replies, the gate that jobs pass, the door at
/// which they wait, and the bell that they ring.
#[derive(Drop)]
pub struct Workplace<'a, O: Object, D, G, B> {
    pub alloc: Global,
    pub booth: &'a Booth<O>,
    pub desk: &'a D,
    pub gate: &'a G,
    pub door: &'a Door,
    pub bell: &'a B,
}

/// Runs a worker to its end.
pub(crate) fn run_out<D: Desk + Sync, G: Gate + Sync, B: Bell, H: Handler, J: Journal, R: Wait>(
    rt: &R,
    place: &Workplace<Hall<H, J>, D, G, B>,
    worker: Worker<Hall<H, J>>,
) -> Worker<Hall<H, J>>
    requires { MayServe (D.meaning place.now.desk.now) place.now.booth.now worker }
    ensures { HasServedAs (D.meaning place.now.desk.now) place.now.booth.now worker result }
{
    laws::turns_add_up();
    let (worker, _end) = worker.run(
        rt,
        place.alloc,
        place.booth,
        place.desk,
        place.gate,
        place.door,
        place.bell,
    );
    worker
}

//! The seats of a booth, apart and together.

ghost use Rattle.std.specs.Prelude.{◌≡◌, ◌+◌, ◌≤◌, ◌∷◌, All, IfOk, IfErr, length, vec_len, vec_capacity};
ghost use Rattle.seat_booth.specs.Limits.{most_seats};
ghost use Rattle.seat_booth.specs.Seats.{IsSeatOf, EndsBooth};
ghost use Rattle.hall_pool.specs.Crew.{IsNewSeating};

use call_rules::{Handler, Journal};
use hall_core::Hall;
use seat_booth::{Booth, NoBooth, Object, Seat, new_booth};
use std::alloc::Global;

/// The seats of a booth: the loop's, that of the loop's own worker, and those of a crew.
#[derive(Drop)]
pub struct Seating<O: Object> {
    pub first: Seat<O>,
    pub own: Seat<O>,
    pub crew: Vec<Seat<O>>,
}

/// The seats of the list, the first two apart.
pub fn apart<O: Object>(mut seats: Vec<Seat<O>>) -> Seating<O>
    requires { 2 ≤ length seats.items }
    ensures seats { result.first ∷ result.own ∷ result.crew.items ≡ seats.items }
    ensures room { (vec_len result.crew + 2 ≡ vec_len seats) × (vec_capacity result.crew ≡ vec_capacity seats) }
{
    let first = seats.remove(0);
    let own = seats.remove(0);
    Seating {
        first,
        own,
        crew: seats,
    }
}

/// Opens a booth round a hall, with the seats of a loop and of a crew of so many workers.
pub fn open_for_crew<H: Handler, J: Journal>(
    alloc: Global,
    hall: Hall<H, J>,
    workers: u32,
) -> Result<(Booth<Hall<H, J>>, Seating<Hall<H, J>>), NoBooth<Hall<H, J>>>
    requires { workers + 2 ≤ most_seats }
    ensures booth { IfOk result (λ made. (made.0.opening ≡ hall) × (made.0.seats ≡ workers + 2)) }
    ensures seating { IfOk result (λ made. IsNewSeating made.0 workers made.1.first made.1.own made.1.crew.items) }
    ensures room { IfOk result (λ made. vec_len made.1.crew + 2 ≤ vec_capacity made.1.crew) }
    ensures err { IfErr result (λ no. no.0 ≡ hall) }
{
    match new_booth(alloc, hall, workers + 2) {
        Ok((booth, seats)) => Ok((booth, apart(seats))),
        Err(no) => Err(no),
    }
}

/// Ends a booth with all its seats.
pub fn close_all<O: Object>(
    booth: Booth<O>,
    first: Seat<O>,
    own: Seat<O>,
    mut crew: Vec<Seat<O>>,
) -> O
    requires first { IsSeatOf booth first }
    requires own { IsSeatOf booth own }
    requires crew { All (IsSeatOf booth) crew.items }
    requires every { length crew.items + 2 ≡ booth.seats }
    requires room { vec_len crew + 2 ≤ vec_capacity crew }
    ensures { EndsBooth O.gives O.may booth (first ∷ own ∷ crew.items) (O.meaning result) }
{
    let Ok(()) = crew.insert(0, own) else {
        unreachable!()
    };
    let Ok(()) = crew.insert(0, first) else {
        unreachable!()
    };
    booth.close(crew)
}

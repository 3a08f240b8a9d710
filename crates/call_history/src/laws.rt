//! Laws of calls, each the contract of a function that does nothing. Those that speak of an object's rule, which no contract of
//! such a function can quantify over, stand in `specs/Laws.antt`.

ghost use Rattle.std.specs.Prelude.{◌≡◌, ℕ, List, ◌++◌};
ghost use Rattle.call_history.specs.declared.seat_call.SeatCall.{SeatCall};
ghost use Rattle.call_history.specs.Calls.{calls_by, asks_of};

/// A seat's asks are its calls as asks, and the calls of a seat in two lists are those of both together.
pub fn calls_of_one_seat<Q, A, M>()
    ensures asks { (seat : ℕ) (log : List (SeatCall Q A M)) → calls_by seat (asks_of log) ≡ asks_of (calls_by seat log) }
    ensures both { (seat : ℕ) (front back : List (SeatCall Q A M)) → calls_by seat (front ++ back) ≡ calls_by seat front ++ calls_by seat back }
{}

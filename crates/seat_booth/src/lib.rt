//! A ticket lock round one object, whose every call is a point of one history.
//!
//! `new_booth` gives a booth and its seats, a thread calls the object by `booth.call(rt, &mut seat, op)`, and
//! `booth.close(seats)` gives the object back, as it is after the one history of all calls.
//!
//! ```rust
//! let (booth, mut seats) = new_booth(alloc, RunningSum { sum: 0 }, 2)?;
//! let (Some(mut second), Some(mut first)) = (seats.pop(), seats.pop()) else { unreachable!() };
//! booth.call(rt, &mut first, 5);
//! booth.call(rt, &mut second, 2);
//! seats.push(first)?;
//! seats.push(second)?;
//! let sum = booth.close(seats).sum;
//! ```
//!
//! Nothing is claimed of waiting: not that a call returns, nor of fairness, waking, deadlock or time.
#![tactic(auto)]

pub mod baton;
mod booth;
mod crossing;
mod object;
mod opening;
mod plays;
pub mod running_sum;
mod table;
mod view;
mod waiting;

pub use booth::{Booth, NoBooth, Seat, new_booth};
pub use call_history::SeatCall;
pub use crossing::crosses;
pub use object::Object;

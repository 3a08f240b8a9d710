//! What it means that calls are a history of one object: definitions and laws, and the struct of one call.
//!
//! The files of `specs/`, in reading order: a history, whose calls the object gives one after another (a sequential history in
//! the literature on linearizable objects); the calls of one seat, and the condition that each call met; laws of both; and the
//! induction by which an object shows what its histories keep. It knows neither lock nor host, and nothing runs. A crate over
//! it says what its object gives and what a seat may ask:
//!
//! ```rust
//! ghost follows: { (first : Meaning) (seat : ℕ) (log : List (SeatCall Op Reply Meaning)) (op : Op) →
//!     IsHistory gives first log → AllAllowed may first log → may first seat (calls_by seat log) op → can (meaning_after first log) op };
//! ```
#![tactic(auto)]

pub mod laws;
mod seat_call;

pub use seat_call::SeatCall;

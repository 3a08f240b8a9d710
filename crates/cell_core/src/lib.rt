//! The machine of loop, hall and workers, without threads: a script of many connections is run by it, as its lines say.
//!
//! ```rust
//! let rehearsed = rehearse(alloc, &script, &desk, handlers, journal, 2, limits);
//!
//! let worker = take_out(&mut workers, place);
//! let Turned { worker, stepped } = turn(alloc, desk, &mut hall, worker);     // it held a job, whose call is applied now
//! put_back(&mut workers, place, worker);                                     // Holding::Answered(job, given)
//! ```
//!
//! Each move, a worker's step too, is one of `script_model`'s; each loop over moves is its loop. A worker's step knows no connection, no tape and no script.
#![tactic(auto)]

pub mod laws;
mod machine;
mod outs;
mod passes;
mod rehearsal;
mod stop;
pub mod turn;
pub mod turn_laws;
mod worker;

pub use outs::{Outs, written};
pub use rehearsal::{Rehearsed, rehearse};
pub use stop::RunStop;
pub use turn::{Stepped, Turned, moved};
pub use worker::{Given, Holding, put_back, take_out};

//! What loops and workers ask of an object that hands out jobs, over any such object at a booth; a hall is one.
//!
//! A loop submits jobs and collects outcomes, by the keys of its own links; what it has asked is seen as asks of a hall of its
//! own, of which it is the one loop. A worker takes a job, applies its call and puts what it came to. So one loop and one worker
//! serve every object that is a [`JobHall`].
//!
//! ```
//! let side = Side { loops: 1, number: 0 };
//! if submit(rt, &booth, &mut seat, side, key, payload) { .. }                   // whether it took the job
//! match take(rt, &booth, &mut workers_seat) {
//!     TakenJob::Found(job) => put(rt, &booth, &mut workers_seat, job.key, Settled::Nothing),
//!     TakenJob::Empty | TakenJob::Closed => ..,
//! }
//! let TakenOutcome::Outcome(key, settled) = collect(rt, &booth, &mut seat, side) else { .. };
//! ```
//!
//! It decides on no payload, knows no connection, and starts no thread.
#![tactic(auto)]

mod asking;
mod hall;
mod job_hall;
mod replies;
mod working;

pub use asking::{close, collect, submit};
pub use job_hall::{AppliedCall, JobHall, Side, TakenJob, TakenOutcome};
pub use replies::{drop_reply, taken_by, took_job, tried_by};
pub use working::{apply, put, stop, take};

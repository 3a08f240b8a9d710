//! The hall: a queue of jobs with the services that answer their calls, and the journal of these calls.
//!
//! The loop submits payloads and collects outcomes; a worker takes a payload, lets the service of its call answer, and puts the
//! outcome. What an operation replies and changes is `machine_model`'s rule of the hall.
//!
//! ```
//! let Ok(mut hall) = Hall::new(alloc, handlers, journal) else { .. };
//! hall.step(HallOp::Submit(key, payload));                                    // Done
//! let HallReply::Job(key, payload) = hall.step(HallOp::Take) else { .. };
//! let reply = hall.step(HallOp::Apply(key, call));                            // Applied(answer)
//! hall.step(HallOp::Put(key, Settled::Nothing));                              // Done
//! let HallReply::Settled(key, settled) = hall.step(HallOp::Collect) else { .. };
//! let (handlers, journal) = hall.into_parts();
//! ```
//!
//! What a job comes to, a worker finds out with its desk, and without the hall:
//!
//! ```
//! match next_step(alloc, &desk, &job) {
//!     NextStep::Apply(call) => ..,     // and, once it is answered: settled_with(alloc, &desk, &job, silent, &answer)
//!     NextStep::Put(settled) => ..,
//! }
//! ```
//!
//! A hall is an [`Object`](seat_booth::Object), so a booth may keep it for many threads. It knows no connection, no desk and no
//! frame, decides on no payload, and makes no reply.
#![tactic(auto)]

mod answering;
mod hall;
mod hall_steps;
mod job;
mod laws;
mod operation;
mod queue;
mod queueing;
mod settling;

pub use hall::{Hall, HallMeaning, NoHall};
pub use hall_steps::HallSteps;
pub use job::Job;
pub use laws::journals_tell_of_services;
pub use operation::{HallOp, HallReply};
pub use settling::{NextStep, next_step, settled_with};

//! A hub: a hall that several loops share, in which the outcomes of each loop's jobs stand in a list of its own.
//!
//! Of n loops, the one of number l has the connections c with c % n = l. It submits their jobs and collects their outcomes;
//! workers take jobs and put outcomes as at a hall. What an operation replies and changes is `hub_model`'s rule of the hub.
//!
//! ```
//! let Ok(mut hub) = Hub::new(alloc, handlers, journal, 2) else { .. };
//! hub.step(HubOp::SubmitFrom(1, Key { c: 3, i: 0 }, payload));                    // Done
//! let HallReply::Job(key, payload) = hub.step(HubOp::Take) else { .. };
//! hub.step(HubOp::Put(key, Settled::Nothing));                                    // Done
//! hub.step(HubOp::CollectFor(0));                                                 // Empty
//! let HallReply::Settled(key, settled) = hub.step(HubOp::CollectFor(1)) else { .. };
//! let (handlers, journal) = hub.into_parts();
//! ```
//!
//! A hub is an [`Object`](seat_booth::Object), so a booth may keep it for many threads, and a [`JobHall`](job_halls::JobHall), so
//! each loop asks it as a hall of its own. It knows no link, and decides on no payload.
#![tactic(auto)]

mod hub;
mod job_hall;
pub mod laws;
mod operation;
mod outcome_lists;
mod stepping;

pub use hub::{Hub, HubMeaning};
pub use operation::HubOp;

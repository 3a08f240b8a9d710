//! Serving: one loop over links, a hall of services behind a lock, and up to eight workers on threads of their own. It knows no sockets, no IDL, no files and no words, and
//! it opens no port: links, desk, handlers and journal are its caller's.
//!
//! The loop reads frames and submits their payloads, workers decide and call, and the loop collects the replies and writes them, each connection's in order:
//!
//! ```rust
//! let served = serve(rt, alloc, &mut links, &office, handlers, journal, 2, &EmptyGate, limits);
//! match served.outcome {
//!     Outcome::All => ..,      // the links have said that all is over, and no connection was stopped
//!     Outcome::NetFault | Outcome::JournalFault | Outcome::NoMemory => ..,      // those that were open were stopped
//! }
//! let (causes, calls) = (served.ends.as_slice(), &served.journal);
//! ```
//!
//! What a run of it is, for every interleaving of its threads, stands in `specs/Served.antt`, above the headline of `host_model`. The loop's part over links is `loop_conns`'s, the
//! hall `hall_core`'s, its lock `seat_booth`'s, and a worker's turn `hall_pool`'s; workers are started and joined by `hall_pool`.
//!
//! It takes turns among connections: a visit to one makes its moves up to the next frame that it submits, and after so many outcomes the links are asked again. No
//! clause says so, nor that it gets on at all: links, gates and bells may wait as long as they like.
#![tactic(auto)]

mod asking;
mod buffer;
mod collecting;
mod halting;
mod handing;
mod holding;
mod holdings;
pub mod laws;
mod leading;
mod opening;
mod rounds;
mod seating;
mod serving;
mod visits;

pub use serving::{Served, serve};

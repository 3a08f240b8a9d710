//! Workers on threads, and a crew of them beside a loop: each takes jobs from a hall at a booth, calls for them, and puts what they come to.
//!
//! ```rust
//! let mut worker = Worker::new(seat);
//! match worker.turn(rt, alloc, &booth, &desk, &gate) {
//!     Turn::Worked(key) => ..,     // this job was taken, and put with its own outcome
//!     Turn::Empty | Turn::Closed => ..,
//!     Turn::Journal => ..,     // the journal has failed, and the hall is closed
//! }
//!
//! let (booth, seating) = open_for_crew(alloc, hall, workers)?;
//! let Seating { first, own, crew } = seating;
//! let place = Workplace { alloc, booth: &booth, desk, gate, door: &door, bell: &bell };
//! let ((ended, first, own), crew) = with_crew(rt, &place, crew, move |started| ..);     // the loop, which closes the hall
//! let hall = close_all(booth, first, own, crew);
//! ```
//!
//! A worker's calls of the hall are those of its turns alone (`specs/Turns.antt`), as `machine_model` says what a worker's are. What is decided on a
//! payload and replied is the desk's, outside of the booth, and what a call is answered the hall's. Each worker of a crew has a thread, or where none could be
//! started it runs after the loop, so that every seat comes back (`specs/Crew.antt`); the calls of all seats are one history of the machine
//! (`specs/Ends.antt`). Neither knows a connection. Nothing is claimed of doors, bells and gates, nor of waiting, nor that a worker gets on.
#![tactic(auto)]

mod asking;
mod crew;
pub mod crew_laws;
mod crossing;
mod door;
pub mod laws;
mod seating;
mod settling;
mod turn;
mod worker;
mod workplace;

pub use crew::with_crew;
pub use crossing::crosses;
pub use door::Door;
pub use seating::{Seating, apart, close_all, open_for_crew};
pub use turn::Turn;
pub use worker::Worker;
pub use workplace::Workplace;

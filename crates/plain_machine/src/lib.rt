//! The definitions of `host_model` and of the plain machine (`Plain` of `machine_model`) as programs, which compute them on small
//! inputs, slowly. Tests alone cite them: they show by examples what the definitions mean, and compare what another loop does
//! with the machine.
//!
//! ```rust
//! let (payloads, rest) = split(alloc, max, bytes)?;
//! let calls = called(alloc, &desk, payloads.as_slice())?;
//! let out = sent(alloc, &desk, journal, payloads.as_slice())?;
//! after(&services, &mut memories, journal);
//!
//! let first = start(alloc, memories);
//! let events = [PlainEvent::Happens(PlainConnEvent::Opens), PlainEvent::Closes];
//! match run(alloc, max, &desk, &services, first, &events)? {
//!     Some(last) => assert!(rt; last.loop_part.tape.as_slice() == tape),
//!     None => panic!(rt; "one of the events can't be"),
//! }
//! ```
//!
//! Of a whole run there are frames (`frames`), marks on the tape (`tape`), what a desk calls and sends (`desks`), and what a
//! journal leaves in services (`journals`). Of the machine there are its connections and what happens on them (`progress`, `conns`,
//! `conn_events`), the hall (`halls`), workers (`workers`), what the loop and the workers ask of the hall (`rounds`, `jobs`,
//! `calls`), and its events and runs (`cells`, `runs`). In `specs/` stands how their values are seen (`SeenDesk`, `Seen`), on which
//! connection something happens (`Happening`), and what is made of a value that was changed, where that could be (`Changed`).
#![tactic(auto)]

mod calls;
mod cells;
mod conn_events;
mod conns;
mod desks;
mod frames;
mod halls;
mod jobs;
mod journals;
mod progress;
mod rounds;
mod runs;
mod tape;
mod workers;

pub use cells::{PlainApplyResult, PlainCell, PlainEvent};
pub use conn_events::{PlainConnEvent, PlainLoop};
pub use conns::PlainConn;
pub use desks::{Decided, PlainDesk, called, sent};
pub use frames::split;
pub use halls::{PlainHall, PlainJob, PlainJobOutcome};
pub use journals::{PlainEntry, PlainServices, after, after_call, entries_of, is_legal};
pub use runs::{run, start};
pub use tape::{input, marks_of, output};
pub use workers::PlainWorkerState;

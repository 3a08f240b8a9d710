//! Connections at a port, served by the loop with workers on threads: the journal's lines go through a buffer into a file that is made for it, and a summary tells at which port
//! connections are awaited, and at the end what each ended by and how many calls there were. It knows no words, IDL or statuses, and decides nothing of calls.
//!
//! ```rust
//! let place = ServedPort { port: 9090, accept: 100, journal: "calls.txt" };
//! match serve_port(rt, alloc, &mut files, &mut output, &mut binder, &desk, handlers, &gate, 2, limits, &place) {
//!     Ok(()) => assert!(rt; output.bytes().starts_with(b"listening 127.0.0.1:9090\n")),
//!     Err(fault) => println!(rt; "{fault}")?,
//! }
//! ```
//!
//! What an answer says of the files, the binder and the output stands in `specs/Answered.antt`, what was served in `specs/Served.antt`; what a run of serving is in
//! `host_loop` (`IsServed`), and what a summary is in `run_report` (`summary`).
#![tactic(auto)]

mod fault;
mod file_journal;
mod listening;
mod place;
mod serving;

pub use fault::PortFault;
pub use place::ServedPort;
pub use serving::serve_port;

//! The top call: it reads its words, checks an IDL, serves recorded connections or those of a port, and says why where it isn't done.
//!
//! ```rust
//! // rehearse a.thrift binary 0 V=store
//! let status = host(&rt, alloc, &words, &mut files, &mut input, &mut output, &mut errors, &mut binder, &EmptyGate, handlers);
//! ExitCode::from(status as u8)
//! ```
//!
//! `host` takes the files, the streams, the binder and the handlers that it works with, so that a test or `main` hands in its own; it opens nothing by itself.
//! It prints the schema of an IDL, compares an IDL with the one that comes after it, and it serves the services of any IDL in either protocol: on recorded connections, without threads or by a loop with workers,
//! and at a port; it calls a method of a service at a port; and it runs a workload, whose script is made from a seed.
#![tactic(auto)]

mod arranging;
mod binding;
mod calling;
mod checking;
mod command;
mod comparing;
mod ending;
mod journal;
pub mod laws;
mod recording;
mod rehearsing;
mod saying;
mod serving;
mod status;
mod workloads;

pub use binding::bind;
pub use command::host;
pub use service_binding::{BindFault, BindKind};
pub use status::Status;

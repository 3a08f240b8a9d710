//! Links, pipes, sinks and a binder over any others, which pass each call on and tell what it answered. What is told
//! stands in lists that only proofs read, so that it costs nothing when it runs. The system's sockets tell nothing of
//! their bytes; with these over them, what a contract says of a tape, or of the bytes that went out and came in, is
//! said of sockets too.
//!
//! It isn't said that the system carries these bytes as they are: a mark of a write says that the links took the bytes,
//! and one of a read that the links gave them. Nor is it told what is still to be read, what has arrived, or where
//! links were at rest.
//!
//! A program wraps its binder once; then the contract of `hang_up` tells the port, what was written to it and what was
//! read:
//!
//! ```rust
//! let mut binder = ToldBinder::new(NetBinder::new(handle));
//! let mut pipe = binder.dial(alloc, port)?;
//! write_all(&mut pipe, frame)?;
//! binder.hang_up(pipe);
//! ```
#![tactic(auto)]

mod binder;
mod links;
mod note;
mod noting;
mod pipe;
mod sink;

pub use binder::ToldBinder;
pub use links::ToldLinks;
pub use pipe::ToldPipe;
pub use sink::ToldSink;

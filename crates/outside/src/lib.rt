//! The outside as the program sees it. Of connections it has what a loop sees: links, the bell that wakes the loop, the
//! binder that makes them, and the gate that a worker passes; and what a client sees, a pipe, which the binder dials. Streams
//! of bytes, files, and the marks and tapes of what happened are those of `streams`, and are handed on here.
//!
//! A loop asks links what is next, and reads and writes on those that are open:
//!
//! ```rust
//! match links.next(rt, Ask { idle, room, held })? {
//!     Hint::Readable(c) => match links.read(c, &mut into) {
//!         Taken::Bytes(count) => ..,
//!         ..
//!     },
//!     ..
//! }
//! ```

#![tactic(auto)]

mod answers;
mod binder;
mod gate;
mod handed;
mod links;
mod pipe;

pub use answers::{Ask, Hint, Taken};
pub use binder::{BindFail, Binder};
pub use gate::{EmptyGate, Gate};
pub use handed::Handed;
pub use links::{Bell, Links};
pub use pipe::Pipe;
pub use streams::{
    Bytes, Cursor, EnvelopeFault, Failed, FileFail, Files, Mark, MarkAt, MemFiles, MemSink,
    MemSource, RealFiles, RealIn, RealOut, RestPlace, Settled, Sink, Source, Tape, TapeLog,
    write_all,
};

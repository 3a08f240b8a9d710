//! Streams of bytes and files as the program sees them: a source of bytes, a sink for bytes and a store of files, each with
//! a meaning that may be untold and a count of faults; kinds in memory that tell everything, for tests and proofs; and thin
//! adapters over the standard streams and the system's files that tell nothing. It decides nothing about their bytes.
//! And what is kept of connections: the marks of what happened on them, the tape of all marks, in two vectors, so that a
//! mark takes no memory of its own, and what a frame came to. Connections themselves are of `outside`.
//!
//! A layer above takes `S: Source`, `K: Sink` or `F: Files` and hands each `Failed` on with its cause: the count rose.
//!
//! ```rust
//! fn copy<S: Source, K: Sink>(source: &mut S, sink: &mut K) -> Result<usize, Failed> {
//!     let mut into = [0u8; 4096];
//!     let count = source.read(&mut into)?;
//!     sink.write(&into[..count])
//! }
//!
//! let mut source = MemSource::in_pieces(content, fails, 2);
//! let mut sink = MemSink::new(alloc, Vec::new(alloc));
//! copy(&mut source, &mut sink)?;
//! let text = files.read_whole(alloc, "a.thrift", limit)?;
//! ```

#![tactic(auto)]

mod cursor;
mod files;
mod mark_at;
mod mark_row;
mod marks;
mod mem_files;
mod mem_sink;
mod mem_source;
mod octets;
mod outcomes;
mod real;
mod real_files;
mod rest_place;
mod streams;
mod tape;
mod tape_log;

pub use cursor::Cursor;
pub use files::{FileFail, Files};
pub use mark_at::MarkAt;
pub use marks::Mark;
pub use mem_files::MemFiles;
pub use mem_sink::MemSink;
pub use mem_source::MemSource;
pub use octets::Bytes;
pub use outcomes::{EnvelopeFault, Settled};
pub use real::{RealIn, RealOut};
pub use real_files::RealFiles;
pub use rest_place::RestPlace;
pub use streams::{Failed, Sink, Source, write_all};
pub use tape::Tape;
pub use tape_log::TapeLog;

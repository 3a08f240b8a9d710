//! The report of a run of any number of connections, written to a sink: a line for each mark of the tape, one for each entry of the
//! journal, one for each connection with what it ended by and all bytes that were written to it, and the number of calls.
//!
//! What stands pending is handed on in pieces of about 64 KiB, so that memory doesn't grow with the run. The line of an entry comes
//! from the caller's `EntryLine`, and the entries themselves from its `ReportedJournal`, one by one.
//!
//! ```rust
//! let written = vec![in alloc; Bytes::new(sent)]?;
//! write_report::<TextLines, J, K>(alloc, output, &tape, &journal, &[EndCause::End], &written)?;
//! ```
//!
//! Of what is served at a port a summary is written: `write_listening` once connections are awaited, and at the end `write_summary`.
//!
//! What the report of a run is stands in `host_model` (`report`), what a summary is in `specs/Summary.antt`.
#![tactic(auto)]

mod entries;
mod fault;
mod lines;
mod report;
mod summary;

pub use entries::{EntryLine, ReportedJournal};
pub use fault::ReportFault;
pub use report::write_report;
pub use summary::{write_listening, write_summary};

//! Journals of calls: the line of an entry, printed and read back, and the places where entries are kept: memory, or a sink that takes their lines.
//!
//! ```
//! let line = print_entry(alloc, &entry)?;           // call 0 1 0 add {1=1i,2=2i} ok 3i
//! let again = read_entry(alloc, line.as_slice())?;  // the entry, or the place of the first fault
//!
//! let mut journal = SegmentJournal::new(alloc);     // in memory, 1,024 entries at a time
//! journal.reserve()?;
//! journal.append(entry)?;
//! let first = journal.entry(0);
//! journal.spool(&mut sink)?;                        // the sink has the lines, and the journal no entry
//!
//! let mut journal = SpoolJournal::new(alloc, sink)?; // through a buffer of 65,536 bytes
//! journal.append(entry)?;
//! let count = journal.finish()?;                    // the sink has the lines
//! let sink = journal.into_sink();
//! ```
//!
//! For tests there are besides `ListJournal`, one vector, and `SinkJournal`, whose sink has each line before its append is over.
//!
//! Not here: what makes a journal a legal history (`host_model`), and the other lines of a report.
#![tactic(auto)]

mod buffered;
pub mod crossing;
mod front;
mod laws;
mod list_journal;
mod printing;
mod reading;
mod segment_journal;
mod sink_journal;
mod spelling;
mod spool_journal;

pub use laws::{each_entry_is_one_line, lines_tell_connections, lines_tell_entries};
pub use list_journal::ListJournal;
pub use printing::{print_entry, put_entry};
pub use reading::read_entry;
pub use segment_journal::SegmentJournal;
pub use sink_journal::{NoJournal, SinkJournal};
pub use spool_journal::SpoolJournal;

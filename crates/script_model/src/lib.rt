//! What a script of many connections makes of a run, by definitions and laws alone: its lines and write rules as plain data,
//! which runs it feeds, and which text is the report of such a run. Desk, services, causes and an entry's line are given, so that it stands for any service. It
//! reads no text, makes no call, and nothing runs.
//!
//! The files of `specs/`, in reading order: what arrives; what a read takes; what a write takes; a run of one connection and its report; the lines of a script,
//! and what they say of each connection; what lets inputs end
//! after all pieces; how much each write takes under its rule; what a line of rest asks of a run; the run that a script feeds;
//! the moves of a machine in rehearsal; the whole rehearsal; what a script gives for its connections to move and to end; a
//! rehearsal told by what shows of it; which runs a report tells; what ends a connection on its bytes alone; and by what the connections of a script end, where
//! nothing lets them fail. Every script has a rehearsal (`steps`), which the script feeds (`feeding`), and what shows
//! of it is one (`showing`). A crate that runs scripts says that its run is fed, and is the rehearsal where memory is ample:
//!
//! ```rust
//! ensures fed { IsFedBy desk budget (plain_script script.now) result.tape.items (journal_of result) }
//! ```
#![tactic(auto)]

pub mod ending;
pub mod ending_laws;
pub mod examples;
pub mod feeding;
pub mod laws;
pub mod reading;
pub mod report_laws;
pub mod showing;
pub mod steps;
pub mod wants;

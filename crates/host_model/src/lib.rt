//! The definitions that the host's headline is said in, and their laws.
//!
//! The files of `specs/`, in reading order: the split of a stream into frames; marks on the tape; the journal and its
//! legal histories; desks; the conversation of a connection; the order between connections; the headline; the
//! world, whose every run meets it; the report of a run; and a tiny desk for examples. Nothing runs: `plain_machine`
//! computes the definitions on small inputs, for tests.
//!
//! A crate above cites a law where its proof needs it:
//!
//! ```rust
//! every_run_meets::<Call, Answer, Memory>();
//! ```
#![tactic(auto)]

mod cause;
pub mod examples;
mod key;
pub mod laws;

pub use cause::EndCause;
pub use key::Key;

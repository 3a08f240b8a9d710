//! The host without threads, as a machine of definitions: a hall of jobs, a loop with its connections, and workers.
//!
//! The files of `specs/`, in reading order: the hall; its rule, and what that leaves open; what may be asked of it; how often
//! a key comes; a hall whose journal may be untold; how it comes to be broken; the loop's part of the machine; a worker's
//! part; the machine's step and its runs; what bounds them, also at each front of the tape; a moment of rest; the places of a
//! frame, which are kept at each moment; the run that one history of the hall and the loop's own order make; what the loop
//! knows in mid-run; and the same machine as functions, the plain machine (`Plain`), with small runs for examples. Nothing runs:
//! `plain_machine` computes those functions on small inputs, for tests.
//!
//! A crate above cites a law where its proof needs it:
//!
//! ```rust
//! one_history_runs::<Call, Answer, Memory>();
//! ```
#![tactic(auto)]

pub mod examples;
pub mod laws;
pub mod moments;

//! What a payload asks of a host that serves services of a schema, and what goes back, by definitions and laws alone: the
//! decision on a message, and the reply to a call. It is for crates that decide and reply; nothing runs.
//!
//! The files of `specs/`, in reading order: what is served (`Offices`); which function a message's name asks for (`Names`); why
//! there is no call, or no result, as callers are told (`Failures`), and that as a value (`FailureValues`); the arguments of a
//! call (`Arguments`); the decision on a payload, in the order of its content (`Decisions`); the reply to a call, by its answer
//! (`Replies`); both as what a desk means (`Desk`); and what is served and sent in the worked examples (`Examples`).
//!
//! A crate that decides says in its contract that it decides just this, and gets the rest from the laws:
//!
//! ```
//! fn decide(office: &Office, alloc: Global, payload: &[u8]) -> Result<Decision, AllocError>
//!     ensures { IfOk result (λ d. plain_decision d ≡ decision (plain_office office.now) payload.now) }
//! ```
//!
//! By [`an_office_is_a_desk`] each call that is decided is plain and its slot is bound, whatever the payload, and each reply to a
//! payload of at most 268,435,456 bytes is a whole frame. [`examples`] has worked rows, and an office that is sound. Not here: how a
//! handler answers (`call_rules`), and connections.
#![tactic(auto)]

pub mod examples;
mod failure_laws;
mod laws;

pub use failure_laws::{failures_are_read, failures_are_written};
pub use laws::{an_office_is_a_desk, calls_are_plain, refusals_are_framed, replies_are_framed};

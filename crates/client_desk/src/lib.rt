//! What a client of a service does between a method's arguments and the reply: it makes the frame that asks for a call, and reads what
//! answers it, by the schema, in the binary and in the compact protocol. It is fed bytes and asked for bytes; nothing here is sent.
//!
//! ```
//! let client = Client::new(schema, service, name, Protocol::Binary, false, 16_384_000);
//! let frame = client.ask(alloc, b"add", &args, 1)?;                // AskFault says why there is none
//! match client.read_reply(alloc, b"add", 1, payload)? {            // HeardFault says why it is no answer
//!     Heard::Success(value) => show(&value),
//!     Heard::Throws(id, value) => show_exception(id, &value),
//!     ..
//! }
//! ```
//!
//! The files of `specs/`, in reading order: who calls (`Clients`); the frame that asks for a call (`Asking`); what a payload answers to it
//! (`Hearing`). [`worked_calls`] and [`worked_replies`] have worked rows.
#![tactic(auto)]

mod arguments;
mod ask_fault;
mod asking;
mod client;
mod frames;
mod heard;
mod heard_fault;
mod hearing;
mod replies;
mod rows;

pub use ask_fault::AskFault;
pub use client::Client;
pub use heard::Heard;
pub use heard_fault::HeardFault;
pub use rows::{worked_calls, worked_replies};

//! One exchange with a port ([`ask_port`]): a frame goes out on a pipe, and one frame comes back, or none is awaited. And one call of a method at a port ([`call_port`]), from its
//! words to the line that tells what it came to: the arguments are read, the frame is exchanged for the reply, and its line is written. It knows no files and no statuses.
//!
//! ```rust
//! let call = PortCall { protocol: Protocol::Binary, name: b"Calculator", method: b"add", args: b"{1=1i,2=1i}", multiplexed: false, port: 9090 };
//! match call_port(alloc, schema, &mut binder, &mut output, &call) {
//!     Ok(()) => assert!(rt; output.bytes() == b"ok 2i\n"),
//!     Err(CallFault::Refused(refusal)) => println!(rt; "no call: {}", refusal.kind())?,
//!     Err(CallFault::ReplyRefused(refusal)) => println!(rt; "no answer: {}", refusal.kind())?,
//!     Err(_) => ..
//! }
//! ```
//!
//! The files of `specs/`, in reading order: what is known of the pipe behind each answer of an exchange (`Asked`); the words of refusals (`Kinds`); the line of what was heard (`HeardText`); what a call is, and the frame that it sends (`Calls`); a call
//! in memory, as plain data (`PortCallOf`); what an answer says of the pipe and of the output (`Called`). What a frame has and what a reply means is in `client_desk`.
#![tactic(auto)]

mod asking;
mod asking_fault;
mod call;
mod calling;
mod fault;
mod hearing;
mod lines;
mod sending;

pub use asking::ask_port;
pub use asking_fault::AskingFault;
pub use call::PortCall;
pub use calling::call_port;
pub use fault::{CallFault, CallRefusal, ReplyRefusal};

//! Message heads: name, type and sequence id in front of a message's struct (Thrift binary and compact protocol, 'Message'). Of
//! the binary protocol it reads both forms of a head, strict and old, and writes the strict one. It reads no struct, knows no
//! service, and judges a message's type only so far that a host takes calls alone. The one whole message that it writes is the
//! exception that answers a call which failed: its struct has two fields, whatever the service.
//!
//! ```
//! // The head, and the place behind it, where the arguments begin.
//! let head = read_head(alloc, Protocol::Binary, payload)?;
//! let arguments = payload.split_at(head.behind).1;
//! // The head of the reply: type 2, with the name and the sequence id of the call.
//! let mut reply = Vec::new(alloc);
//! write_head(Protocol::Binary, head.name.as_slice(), 2, head.id, &mut reply)?;
//! // Or, in its place, the whole message that says why there is none.
//! write_exception(Protocol::Binary, head.name.as_slice(), head.id, b"Internal error", 6, &mut reply)?;
//! ```

#![tactic(auto)]

pub mod examples;
mod exception;
mod head;
mod laws;
mod read;
mod reply;
mod write;

pub use exception::write_exception;
pub use head::{Head, HeadFault, LentHead, Protocol};
pub use laws::{
    heads_are_read_back, no_head_is_a_prefix, reply_heads_are_read_back, written_heads_are_spelled,
};
pub use read::{lend_head, read_head};
pub use reply::{lend_reply_head, read_reply_head};
pub use write::write_head;

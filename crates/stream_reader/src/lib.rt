//! One message without a frame, as its bytes come (Thrift binary protocol, 'Message', 'Struct'): how many bytes are
//! missing of the item of its grammar that is under way, and, once none are, where the message ends or what is wrong
//! with it. It is for a reader of connections that may not read a byte behind a message. It makes no value, and asks
//! for no more than an item; what is read again of a whole message is the business of who gets it.
//!
//! ```
//! let mut reader = MessageReader::new(alloc, max_frame)?;
//! loop {
//!     match reader.progress() {
//!         MessageProgress::Wants(_) => {}
//!         MessageProgress::Whole(_) | MessageProgress::Refused(_, _) => break,
//!     }
//!     reader.reserve()?;
//!     let count = source.read(&mut buffer[..(reader.missing() as usize).min(MOST_READ)])?;
//!     reader.take(&buffer[..count]);
//! }
//! ```
#![tactic(auto)]

mod levels;
mod message;
mod sizes;
mod stage;
mod walk;

pub use message::MessageReader;

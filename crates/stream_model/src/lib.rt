//! Messages without frames, by definitions and laws alone: where one ends, what is wrong with one, and how a stream of them splits. It is for crates that
//! read unframed connections; no byte is read here, and nothing runs.
//!
//! The files of `specs/`, in reading order: what a message asks for, item by item; what becomes of bytes under it; messages, the split of a stream into them,
//! and the fault of a rest; what is handed on of a stream to who reads frames; the talk, the turns and the headline of unframed connections; and what
//! reading the head and the struct of whole bytes says, to which the laws tie all of it.
//!
//! A reader says in its contract what becomes of the bytes that came, and gets the rest by citing a law:
//!
//! ```rust
//! fn took(&mut self, bytes: &[u8]) -> Result<(), AllocError>
//!     ensures { OnOk result (self.new.bytes ≡ self.old.bytes ++ bytes.now) }
//!
//! fn progress(&self) -> MessageProgress
//!     ensures { result ≡ message_progress self.now.max self.now.bytes }
//! ```
#![tactic(auto)]

mod cause;
pub mod examples;
mod fault;
pub mod laws;
mod outcome;

pub use cause::StreamCause;
pub use fault::StreamFault;
pub use outcome::MessageProgress;

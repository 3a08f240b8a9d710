//! Values on the wire, by definitions and laws alone: what it means to decode a value from bytes, to spell it, and to encode
//! it, for Thrift's binary and compact protocol at once. It is for crates that read and write; no byte of either protocol
//! is known here, and nothing runs.
//!
//! A protocol has decoders of its own for field headers, numbers, texts and container headers, the spellings of these with
//! their first faults, and what it writes of them ([`WireProtocol`]). From these parts the files of `specs/` make the reading
//! of a whole value with its first fault, the spellings of a value, and the bytes that are written for it. A protocol proves
//! of its parts alone that they agree (`IsProtocol`, in `parts_agree`); the laws then say it of every value. A protocol whose
//! parts are read at places of bytes, without memory, and whose values are passed over there, is a [`Wire`].
//!
//! A crate that reads says in its contract what it answers, and gets the rest by citing a law:
//!
//! ```
//! fn read<P: Codec>(alloc: Global, bytes: &[u8], at: usize) -> Result<(Raw, usize), WireFault>
//!     requires { at ≤ length bytes.now }
//!     ensures exact { AnswersOrNoMemory (λ x. (tree_of x.0, x.1)) result (struct_at P.wire bytes.now at) }
//!     ensures found { IfOk result (λ x. IsEncodedAt P.format bytes.now at (tree_of x.0) x.1) }
//! {
//!     // In the answer: c.struct_read_is_spelled.ensures
//!     struct_read_is_spelled::<P>();
//!     ..
//! }
//! ```
#![tactic(auto)]

pub mod laws;
mod one_pass;
mod protocol;

pub use one_pass::{FieldHead, Wire};
pub use protocol::WireProtocol;

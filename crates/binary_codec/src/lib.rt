//! Structs in Thrift's binary protocol: read from bytes at a place, and written to the end of a vector. It reads what
//! anyone sent, so it takes memory only for what is there, and names the fault that comes first. It knows no message
//! head, no IDL and no types but the eleven kinds of the wire; what it reads is raw, in wire order and with repeats.
//!
//! ```
//! // The struct behind a message's head.
//! let (arguments, behind) = read_struct(alloc, payload, head.behind)?;
//! // A struct that was made here is tested before it is written.
//! if result.tag() == Tag::Struct && result.is_tidy() && result.has_small_sizes() && result.depth() <= 64 {
//!     write_struct(&result, &mut reply)?;
//! }
//! // A part at a place, and the place behind a value that isn't wanted; neither takes memory.
//! let (head, behind) = BinaryWire::field(payload, at, last)?;
//! let behind = BinaryWire::skip(payload, behind, tag, level, &mut count)?;
//! ```
#![tactic(auto)]

mod codec;
mod codes;
pub mod examples;
mod numbers;
mod places;
mod protocol;
mod structs;
mod values;

pub use codes::tag_of_code;
pub use places::BinaryWire;
pub use protocol::Binary;
pub use structs::{read_struct, write_struct};

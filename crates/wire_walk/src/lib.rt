//! Reading and writing values, and passing over them: one walk over structs and containers for every protocol of Thrift, for crates
//! that have a protocol's own parts. It nests, counts values and levels, and keeps the order of faults. It knows no byte of any
//! protocol, no message head and no IDL.
//!
//! ```
//! // The struct at a place, of at most 64 levels and 4,000,000 values, and the same struct appended.
//! let (value, behind) = read_struct::<Binary>(alloc, bytes, at)?;
//! let mut copy = Vec::new(alloc);
//! write_struct::<Binary>(&value, &mut copy)?;
//! // A value of a tag, by bounds of the caller's own. Ok of put tells a proof too that each number in it fits its type.
//! let (value, rest) = read::<Binary>(alloc, Input::new(bytes, 100), 3, Tag::List)?;
//! put::<Binary>(&value, &mut copy)?;
//! // What is left behind a value, and the place behind one at a place, without memory.
//! let rest = skip::<Binary>(rest, 64, Tag::Struct)?;
//! let behind = skip_at::<Binary>(bytes, at, Tag::Struct, 1, &mut count)?;
//! ```
//!
//! A protocol is a [`Codec`]: how field headers, numbers, texts and container headers are read and written. These readers
//! never answer want of memory: memory is taken only for what is known to be there.

#![tactic(auto)]

mod codec;
mod header;
mod input;
mod passing;
mod places;
mod reading;
mod structs;
mod writing;

pub use codec::Codec;
pub use header::Header;
pub use input::Input;
pub use passing::skip;
pub use places::{field_at, items_at, pairs_at, scalar_at, skip_at, span_at};
pub use reading::read;
pub use structs::{read_struct, write_struct};
pub use writing::put;

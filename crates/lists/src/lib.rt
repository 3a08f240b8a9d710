//! Small lists over vectors, each in a contract the list of its items, and texts as their bytes; and lists that only proofs read.
//!
//! ```
//! let text = ByteText::new(b"add".to_vec(alloc)?);
//! let copy = text.try_clone(alloc)?;
//! let names = Listed::new(vec![in alloc; text, copy]?);
//! assert_eq!(rt; names.as_slice().len(), 2);
//! ```
#![tactic(auto)]

mod appended;
mod byte_text;
mod listed;
mod noted_bytes;

pub use appended::Appended;
pub use byte_text::ByteText;
pub use listed::Listed;
pub use noted_bytes::NotedBytes;

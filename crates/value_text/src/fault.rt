//! Why a text can't be read.

use thiserror::Error;

/// Why a text can't be read as a value's, or as one with values in it.
#[derive(Clone, Copy, Debug, PartialEq, Eq, Error)]
pub enum TextFault {
    /// No such text goes on with the byte at this place, or an id, a key or a member that ends before it doesn't come behind the
    /// one before it. Where the text only stops too early, the place is its end.
    #[error("no such text goes on at byte {0}")]
    At(usize),
    /// There was no memory for what is read. No byte is at fault.
    #[error("out of memory")]
    NoMemory,
}

//! Why a read of a number fails.

use thiserror::Error;

/// Why a number can't be read.
#[derive(Clone, Copy, Debug, PartialEq, Eq, Error)]
pub enum NumFault {
    /// The bytes end before the number does.
    #[error("the bytes end inside a number")]
    Short,
    /// A varint goes on past the most bytes that its width may take.
    #[error("a number has more bytes than its longest form")]
    LongVarint,
}

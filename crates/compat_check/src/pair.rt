//! A pair of structs.

/// A struct that is written and one that it is read as, by their numbers.
#[derive(Clone, Copy, PartialEq, Eq, Hash)]
pub struct Pair {
    /// Whether the new schema writes and the old one reads.
    pub(crate) backward: bool,
    /// The struct that is written.
    pub(crate) from: u32,
    /// The struct that it is read as.
    pub(crate) to: u32,
}

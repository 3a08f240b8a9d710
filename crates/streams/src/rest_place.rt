//! Where a loop was at rest.

/// A place of the tape at which nothing was owed.
#[derive(Clone, Copy)]
pub struct RestPlace {
    /// How many marks stand before it.
    pub place: usize,
    /// Whether some connection was held there because the read budget had no room.
    pub held: bool,
}

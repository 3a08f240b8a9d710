//! What lines are to links.

use outside::Hint;

/// What a line does, once its bytes are handed to its connection.
#[derive(Clone, Copy)]
pub enum Step {
    /// The next connection is opened.
    Opens,
    /// A piece arrives on a connection.
    Arrives(u32),
    /// The input of a connection ends.
    Ends(u32),
    /// The read of a connection after all its pieces fails.
    Fails(u32),
    /// Nothing goes on until all calls are done and their replies written.
    Rests,
    /// Nothing.
    Passes,
}

/// What a step comes to.
#[derive(Clone, Copy)]
pub enum Came {
    /// This is told.
    Gives(Hint),
    /// It isn't done yet: the bell is waited for.
    Waits,
    /// Nothing is told of it, and the next one goes on.
    GoesOn,
}

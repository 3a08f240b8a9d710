//! What a worker's turn answers.

use call_rules::Key;

/// What a worker's turn answers.
#[derive(Clone, Copy, Drop)]
pub enum Turn {
    /// The job of this key was taken, and put with its own outcome.
    Worked(Key),
    /// There was no job.
    Empty,
    /// There was none, and the hall is closed.
    Closed,
    /// The journal has failed, at the call of the job that was taken: the job isn't put, and the hall is closed now.
    Journal,
}

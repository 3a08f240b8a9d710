//! Pipes that were hung up.

/// What is kept of a pipe that was hung up.
#[derive(Drop)]
pub struct CalledRow {
    /// The port that was dialled.
    pub port: u16,
    /// What was written.
    pub written: Vec<u8>,
    /// What was read.
    pub read: Vec<u8>,
    /// Whether a read has answered the end.
    pub ended: bool,
}

/// Pipes that were hung up, the newest first. One more takes no memory where a box for those before it is at hand.
#[derive(Drop)]
pub enum CalledChain {
    /// None was hung up.
    Nothing,
    /// This one was hung up after others.
    Behind(Box<CalledChain>, CalledRow),
}

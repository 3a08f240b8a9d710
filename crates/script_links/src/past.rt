//! Links that came back.

use streams::Tape;

/// What is kept of links that came back.
#[derive(Drop)]
pub struct PastRow {
    /// What happened on them.
    pub tape: Tape,
    /// Whether it was said that all is over.
    pub over: bool,
    /// The port at which they listened.
    pub port: u16,
    /// How many connections they accepted at most.
    pub accept: u32,
}

/// Links that came back, the newest first. One more takes no memory where a box for those before it is at hand.
#[derive(Drop)]
pub enum PastChain {
    /// None has come back.
    Nothing,
    /// These came back after others.
    Behind(Box<PastChain>, PastRow),
}

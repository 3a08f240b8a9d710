//! The limits of a run, how it came out, and how its connections ended.

use conn_state::EndCause;
use lists::Listed;

/// The most bytes of a payload, and of all payloads that are admitted together.
#[derive(Clone, Copy, Drop, PartialEq, Eq)]
pub struct Limits {
    /// The most bytes of a payload.
    pub max_frame: u32,
    /// The most bytes of all payloads that are admitted.
    pub read_budget: u64,
}

/// How a run came out.
#[derive(Clone, Copy, Drop, PartialEq, Eq)]
pub enum Outcome {
    /// It ran to its end.
    All,
    /// The links failed.
    NetFault,
    /// The journal failed.
    JournalFault,
    /// Memory ran out.
    NoMemory,
}

/// The causes by which connections ended, by number; contracts see them as a list.
pub type Ends = Listed<EndCause>;

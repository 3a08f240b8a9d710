//! What a hall is asked, and what it replies.

use call_rules::{Answer, Call, Key};
use streams::{Bytes, Settled};

/// What a hall is asked.
#[derive(Drop)]
pub enum HallOp {
    /// To add the job of this payload, as the newest.
    Submit(Key, Bytes),
    /// For the oldest job.
    Take,
    /// To let the service of the call's slot answer, for the job of this key, and to enter the call in the journal.
    Apply(Key, Call),
    /// To add what a job came to, as the newest outcome.
    Put(Key, Settled),
    /// For the oldest outcome.
    Collect,
    /// To take no more jobs.
    Close,
}

/// What a hall replies.
#[derive(Drop)]
pub enum HallReply {
    /// It is done.
    Done,
    /// The oldest job, which is taken now.
    Job(Key, Bytes),
    /// There is none, and there may be one later.
    Empty,
    /// The hall is closed: it takes no job, or there is none left.
    Closed,
    /// The call is answered so, and stands in the journal.
    Applied(Answer),
    /// There was no memory: before the service answered, and nothing is changed; or after it, and the call stands in the
    /// journal.
    NoMemory,
    /// The journal failed, and doesn't have the call that the service has answered.
    JournalFault,
    /// The journal has failed before.
    Broken,
    /// The oldest outcome, which is collected now.
    Settled(Key, Settled),
}

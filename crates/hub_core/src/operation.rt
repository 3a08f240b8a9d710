//! What a hub is asked.

use call_rules::{Call, Key};
use streams::{Bytes, Settled};

/// What a hub is asked. It replies as a hall does. The first number of `SubmitFrom`, and that of `CollectFor`, is a loop's.
#[derive(Drop)]
pub enum HubOp {
    /// To add the job of this payload, as the newest.
    SubmitFrom(u32, Key, Bytes),
    /// For the oldest job.
    Take,
    /// To let the service of the call's slot answer, for the job of this key, and to enter the call in the journal.
    Apply(Key, Call),
    /// To add what a job came to, as the newest outcome of its connection's loop.
    Put(Key, Settled),
    /// For the oldest outcome of a loop.
    CollectFor(u32),
    /// To take no more jobs.
    Close,
}

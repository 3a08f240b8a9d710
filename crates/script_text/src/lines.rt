//! The lines and rules of a script.

use lists::Listed;
use streams::Bytes;

/// One line that is no rule.
#[derive(Drop)]
pub enum ScriptLine {
    /// The next connection, from 0, is opened.
    Opens,
    /// These bytes, one at least, arrive on a connection.
    Piece(u32, Bytes),
    /// The input of a connection ends.
    Ends(u32),
    /// The read of a connection after all its pieces fails.
    FailsRead(u32),
    /// Nothing goes on until all calls are done and their replies written.
    Rest,
    /// On schedule, a connection makes one move.
    Loop(u32),
    /// On schedule, a worker makes one move.
    Work(u32),
    /// On schedule, one outcome is collected.
    Collect,
}

/// What a write comes to.
#[derive(Clone, Copy)]
pub enum WriteRule {
    /// It takes so many bytes at most, one at least.
    Takes(u32),
    /// It isn't possible yet.
    Block,
    /// It fails.
    Fails,
}

/// The lines of a script in order; contracts see them as a list.
pub type ScriptLines = Listed<ScriptLine>;

/// The rules of one connection in order; contracts see them as a list.
pub type RuleList = Listed<WriteRule>;

/// For each connection its rules, by number; contracts see a list of lists.
pub type RuleLists = Listed<RuleList>;

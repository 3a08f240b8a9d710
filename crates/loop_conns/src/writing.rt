//! How a connection is written to.

ghost use Rattle.std.specs.Prelude.{◌≡◌};
ghost use Rattle.loop_conns.specs.Going.{AnyLoopIsRunning, AllKeepGoing, WritesAt, WriteTells};

use crate::connections::LoopConnections;
use conn_state::EndCause;
use outside::{Links, Taken};

/// What a write came to.
#[derive(Clone, Copy)]
pub enum WriteStep {
    /// A part of what was left is written.
    Part,
    /// All of it is written, and the next size is read.
    All,
    /// Nothing can be written yet.
    Blocked,
    /// The connection has ended.
    Over,
}

impl LoopConnections {
    /// Writes once, of all that is left of the reply.
    pub fn write<L: Links>(&mut self, links: &mut L, c: u32) -> WriteStep
        requires under_way { AnyLoopIsRunning (L.state links.old) self.old }
        requires writes { WritesAt c self.old }
        ensures going { AllKeepGoing (L.state links.old) self.old (L.state links.new) self.new }
        ensures step { WriteTells c self.new result }
        ensures budget { self.new.table.budget ≡ self.old.table.budget }
        ensures plan { L.plan links.new ≡ L.plan links.old }
    {
        let pending = self.table.conn(c).pending();
        let left = pending.len();
        match links.write(c, pending) {
            Taken::Bytes(count) => {
                self.table.wrote(c, count);
                if count < left {
                    return WriteStep::Part;
                }
                self.owing -= 1;
                WriteStep::All
            }
            Taken::Failed => {
                self.owing -= 1;
                self.end(links, c, EndCause::WriteFault);
                WriteStep::Over
            }
            Taken::NoMemory => {
                self.owing -= 1;
                self.end(links, c, EndCause::NoMemory);
                WriteStep::Over
            }
            Taken::NotYet => WriteStep::Blocked,
            Taken::End => WriteStep::Blocked,
        }
    }
}

//! How links are asked what is next.

ghost use Rattle.std.specs.Prelude.{◌≡◌, ℕ, IsTrue, IsErr, MatchResult, Ok, None, ◌<◌, ◌≤◌, length};
ghost use Rattle.streams.specs.Cause.{Rose};
ghost use Rattle.outside.specs.declared.answers.Hint.TheVariants.{Over};
ghost use Rattle.loop_conns.specs.Going.{AnyLoopIsRunning, AllKeepGoing, AllComeSoFar, HasNoRoom, HasPlace, IsAllOver};

use crate::connections::{ConnStage, LoopConnections};
use conn_state::EndCause;
use outside::{Ask, Hint, Links};
use std::sync::Wait;
use streams::Failed;

impl LoopConnections {
    /// Asks the links what is next, and adds the connection that they opened, if they did. It may wait.
    pub fn next<L: Links, R: Wait>(
        &mut self,
        rt: &R,
        links: &mut L,
        held: bool,
    ) -> Result<Hint, Failed>
        requires under_way { AnyLoopIsRunning (L.state links.old) self.old }
        requires place { HasPlace self.old }
        requires held { IsTrue held → (c : ℕ) × HasNoRoom self.old.table c }
        // Where the links fail the loop has come so far, and doesn't go on.
        ensures going { MatchResult result
            (λ _. AllKeepGoing (L.state links.old) self.old (L.state links.new) self.new)
            (λ _. AllComeSoFar (L.state links.old) self.old (L.state links.new) self.new) }
        ensures failed { IsErr result → Rose (L.state links.old).net_faults (L.state links.new).net_faults }
        ensures over { result ≡ Ok Over → IsAllOver (L.state links.new) self.new }
        ensures budget { self.new.table.budget ≡ self.old.table.budget }
        ensures plan { L.plan links.new ≡ L.plan links.old }
    {
        let ask = Ask {
            idle: self.owing == 0,
            room: !self.table.full(),
            held,
        };
        match links.next(rt, ask) {
            Ok(Hint::Opened(c)) => {
                self.table.add(c);
                self.stages.push_reserved(ConnStage::Lean);
                self.causes.push_reserved(EndCause::Stopped);
                Ok(Hint::Opened(c))
            }
            Ok(Hint::Readable(c)) => Ok(Hint::Readable(c)),
            Ok(Hint::Writable(c)) => Ok(Hint::Writable(c)),
            Ok(Hint::Woken) => Ok(Hint::Woken),
            Ok(Hint::Over) => Ok(Hint::Over),
            Err(Failed) => Err(Failed),
        }
    }
}

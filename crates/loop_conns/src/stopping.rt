//! How all connections end, since the host stops.

ghost use Rattle.std.specs.Prelude.{◌≡◌, ◌<◌, length, slice_index_or};
ghost use Rattle.loop_conns.specs.declared.connections.ConnStage.TheVariants.{Gone};
ghost use Rattle.loop_conns.specs.Going.{SomeWoven, AllKeepWoven, AreAllGone};
ghost use Rattle.loop_conns.specs.Stopped.{StopsAlone, KeepsCauses, AllHaveEnded};

use crate::connections::{ConnStage, LoopConnections};
use conn_state::EndCause;
use conn_table::Ends;
use outside::Links;

impl LoopConnections {
    /// Ends each connection that is open, since the host stops, and closes it.
    pub fn stop_all<L: Links>(&mut self, links: &mut L)
        requires so_far { SomeWoven (L.state links.old) self.old }
        ensures come { AllKeepWoven (L.state links.old) self.old (L.state links.new) self.new }
        ensures gone { AreAllGone self.new }
        ensures causes { KeepsCauses self.old self.new }
        ensures ended { AllHaveEnded (L.state links.old) self.old (L.state links.new) self.new }
        ensures budget { self.new.table.budget ≡ self.old.table.budget }
        ensures plan { L.plan links.new ≡ L.plan links.old }
    {
        'all: for c in 0..self.stages.len() {
            self.stop(links, c as u32);
        }
    }

    /// Ends one connection, if it is open.
    fn stop<L: Links>(&mut self, links: &mut L, c: u32)
        requires so_far { SomeWoven (L.state links.old) self.old }
        requires known { c < length self.old.stages.items }
        ensures come { AllKeepWoven (L.state links.old) self.old (L.state links.new) self.new }
        ensures stopped { StopsAlone c self.old self.new }
        ensures budget { self.new.table.budget ≡ self.old.table.budget }
        ensures plan { L.plan links.new ≡ L.plan links.old }
    {
        if let ConnStage::Gone = self.stages[c as usize] {
            return;
        }
        self.end(links, c, EndCause::Stopped);
    }

    /// Tells by what each connection has ended; takes no memory.
    pub fn into_ends(self) -> Ends
        ensures { result ≡ self.causes.items }
    {
        let LoopConnections {
            table: _,
            stages: _,
            causes,
            owing: _,
        } = self;
        Ends::new(causes)
    }
}

//! How a frame is admitted.

ghost use Rattle.std.specs.Prelude.{◌≡◌};
ghost use Rattle.loop_conns.specs.Going.{AnyLoopIsRunning, AllKeepGoing, WaitsAt, AdmissionTells};

use crate::connections::{ConnStage, LoopConnections};
use conn_state::EndCause;
use outside::Links;
use std::alloc::Global;

/// What an admission came to.
#[derive(Clone, Copy)]
pub enum Admission {
    /// The frame may be read.
    Admitted,
    /// The budget has no room for it.
    Refused,
    /// There was no memory for it, and the connection has ended.
    Over,
}

impl LoopConnections {
    /// Admits the frame that waits, where the budget has room for its size.
    pub fn admit<L: Links>(&mut self, alloc: Global, links: &mut L, c: u32) -> Admission
        requires under_way { AnyLoopIsRunning (L.state links.old) self.old }
        requires waits { WaitsAt c self.old }
        ensures going { AllKeepGoing (L.state links.old) self.old (L.state links.new) self.new }
        ensures step { AdmissionTells c self.new result }
        ensures budget { self.new.table.budget ≡ self.old.table.budget }
        ensures plan { L.plan links.new ≡ L.plan links.old }
    {
        match self.table.admit(alloc, c) {
            Ok(true) => {
                self.stages[c as usize] = ConnStage::Laden;
                Admission::Admitted
            }
            Ok(false) => Admission::Refused,
            Err(_) => {
                self.end(links, c, EndCause::NoMemory);
                Admission::Over
            }
        }
    }
}

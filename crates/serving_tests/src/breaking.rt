//! Links over a script that fail at one of the times that they are asked what is next.

ghost use Rattle.std.specs.Prelude.{◌≡◌};
ghost use Rattle.outside.specs.Opening.{AreFreshLinks};
ghost use Rattle.script_links.specs.Shown.{links_told};
ghost use Rattle.serving_tests.specs.Untold.{untold};

use outside::{Ask, Hint, Links, Taken};
use script_links::{ScriptBell, ScriptLinks};
use std::alloc::{AllocError, Global};
use std::sync::Wait;
use streams::Failed;

/// Links over a script that tell nothing of its bytes, and fail when they are asked for the time of this number, and after it.
#[derive(Drop)]
pub(crate) struct BreakingLinks {
    pub links: ScriptLinks,
    fails_at: usize,
    asked: usize,
    pub faults: u64,
}

impl BreakingLinks {
    /// Links that weren't asked yet.
    pub(crate) fn new(links: ScriptLinks, fails_at: usize) -> Self
        requires { AreFreshLinks (links_told links) }
        ensures fresh { AreFreshLinks (untold result.links result.faults) }
    {
        BreakingLinks {
            links,
            fails_at,
            asked: 0,
            faults: 0,
        }
    }
}

impl Links for BreakingLinks {
    ghost use Rattle.serving_tests.specs.Untold.{untold};

    type Bell = ScriptBell;

    ghost Plan = { Unit {0} };

    ghost plan = { λ _. tt };

    ghost state = { λ l. untold l.links l.faults };

    fn bell(&self, alloc: Global) -> Result<ScriptBell, AllocError> {
        self.links.bell(alloc)
    }

    #[tactic(auto, using(crate::proofs::Untelling::answers, crate::proofs::Untelling::fails))]
    fn next<R: Wait>(&mut self, rt: &R, ask: Ask) -> Result<Hint, Failed> {
        if self.fails_at <= self.asked {
            self.faults = self.faults.saturating_add(1);
            return Err(Failed);
        }
        self.asked += 1;
        self.links.next(rt, ask)
    }

    #[tactic(auto, using(crate::proofs::Untelling::reads))]
    fn read(&mut self, c: u32, into: &mut [u8]) -> Taken {
        self.links.read(c, into)
    }

    #[tactic(auto, using(crate::proofs::Untelling::writes))]
    fn write(&mut self, c: u32, bytes: &[u8]) -> Taken {
        self.links.write(c, bytes)
    }

    #[tactic(auto, using(crate::proofs::Untelling::closes))]
    fn close(&mut self, c: u32) {
        self.links.close(c);
    }
}

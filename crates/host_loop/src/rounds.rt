//! The loop: it asks the links what is next, and does it.

ghost use Rattle.std.specs.Prelude.{◌≡◌, false, Ok, OnOk, IfErr};
ghost use Rattle.outside.specs.declared.answers.Hint.TheVariants.{Over};
ghost use Rattle.loop_conns.specs.Going.{IsAllOver};
ghost use Rattle.host_loop.specs.Going.{Serves, Halts};

use crate::holdings::{Run, Serving};
use call_rules::{Desk, Handler, Journal};
use conn_table::Outcome;
use hall_core::Hall;
use outside::{Gate, Hint, Links};
use std::sync::Wait;
use streams::Failed;

impl<H: Handler, J: Journal> Serving<Hall<H, J>> {
    /// Does what the links gave a hint of. It answers whether there is more to be done: there is none where all is over.
    fn follow<L: Links, D: Desk, G: Gate, R: Wait>(
        &mut self,
        rt: &R,
        run: &Run<Hall<H, J>, D, G, L>,
        links: &mut L,
        hint: Hint,
    ) -> Result<bool, Outcome>
        requires serving { Serves D.meaning L.state run.now links.old self.old }
        requires over { hint ≡ Over → IsAllOver (L.state links.old) self.old.conns }
        ensures serving { OnOk result (Serves D.meaning L.state run.now links.new self.new) }
        ensures halted { IfErr result (Halts D.meaning L.state run.now links.new self.new) }
        ensures over { result ≡ Ok false → IsAllOver (L.state links.new) self.new.conns }
        ensures plan { L.plan links.new ≡ L.plan links.old }
    {
        match hint {
            Hint::Opened(c) | Hint::Readable(c) | Hint::Writable(c) => {
                self.visit(rt, run, links, c)?;
                Ok(true)
            }
            Hint::Woken => {
                self.collect_all(rt, run, links)?;
                Ok(true)
            }
            Hint::Over => Ok(false),
        }
    }

    /// One round. Outcomes are collected where no worker runs, and frames that are held are looked at; where that look has moved nothing, the
    /// links are asked what is next, and it is done. So where no worker runs and they are asked, no job is left, or the bell was rung. It answers
    /// whether there is to be one more round.
    fn round<L: Links, D: Desk, G: Gate, R: Wait>(
        &mut self,
        rt: &R,
        run: &Run<Hall<H, J>, D, G, L>,
        links: &mut L,
    ) -> Result<bool, Outcome>
        requires serving { Serves D.meaning L.state run.now links.old self.old }
        ensures serving { OnOk result (Serves D.meaning L.state run.now links.new self.new) }
        ensures halted { IfErr result (Halts D.meaning L.state run.now links.new self.new) }
        ensures over { result ≡ Ok false → IsAllOver (L.state links.new) self.new.conns }
        ensures plan { L.plan links.new ≡ L.plan links.old }
    {
        self.collect_alone(rt, run, links)?;
        let Some(held) = self.retry_held(rt, run, links)? else {
            return Ok(true);
        };
        let Ok(()) = self.conns.make_place() else {
            return Err(Outcome::NoMemory);
        };
        match self.conns.next(rt, links, held) {
            Ok(hint) => self.follow(rt, run, links, hint),
            Err(Failed) => Err(Outcome::NetFault),
        }
    }

    /// Makes rounds until all is over, or something has failed. It answers which.
    pub(crate) fn run_rounds<L: Links, D: Desk, G: Gate, R: Wait>(
        &mut self,
        rt: &R,
        run: &Run<Hall<H, J>, D, G, L>,
        links: &mut L,
    ) -> Outcome
        requires serving { Serves D.meaning L.state run.now links.old self.old }
        ensures halted { Halts D.meaning L.state run.now links.new self.new result }
        ensures plan { L.plan links.new ≡ L.plan links.old }
    {
        for _ in rt.forever() {
            match self.round(rt, run, links) {
                Ok(true) => {}
                Ok(false) => return Outcome::All,
                Err(why) => return why,
            }
        }
        unreachable!()
    }
}

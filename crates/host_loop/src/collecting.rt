//! How outcomes are collected, and what each allows.

ghost use Rattle.std.specs.Prelude.{◌≡◌, OnOk, IfErr};
ghost use Rattle.host_loop.specs.Going.{Serves, Halts, ServesSomewhere, KeepsServing};

use crate::asking::{Collected, collect};
use crate::holdings::{Run, Serving};
use call_rules::{Desk, Handler, Journal};
use conn_table::Outcome;
use hall_core::Hall;
use hall_pool::Turn;
use outside::{Bell, Gate, Links};
use std::sync::Wait;

/// So many outcomes are collected in a round, at most. A client that sends one call after the other hands over the next one with each outcome, and without
/// a bound would keep all others waiting until it pauses.
const MOST_OUTCOMES: u32 = 64;

impl<H: Handler, J: Journal> Serving<Hall<H, J>> {
    /// Makes one turn with the loop's own worker, where no other runs.
    fn make_turn<L: Links, D: Desk, G: Gate, R: Wait>(
        &mut self,
        rt: &R,
        run: &Run<Hall<H, J>, D, G, L>,
    ) -> Result<(), Outcome>
        requires serving { ServesSomewhere D.meaning L.state run.now self.old }
        ensures kept { KeepsServing D.meaning L.state run.now self.old self.new result }
    {
        if run.crewed {
            return Ok(());
        }
        match self.own.turn(rt, run.alloc, run.booth, run.desk, run.gate) {
            Turn::Worked(_) => Ok(()),
            Turn::Empty => Ok(()),
            Turn::Closed => Ok(()),
            Turn::Journal => Err(Outcome::JournalFault),
        }
    }

    /// Collects the oldest outcome, where there is one, and takes it. It answers whose it was.
    fn collect<L: Links, D: Desk, G, R: Wait>(
        &mut self,
        rt: &R,
        run: &Run<Hall<H, J>, D, G, L>,
        links: &mut L,
    ) -> Result<Option<u32>, Outcome>
        requires serving { Serves D.meaning L.state run.now links.old self.old }
        ensures serving { OnOk result (Serves D.meaning L.state run.now links.new self.new) }
        ensures halted { IfErr result (Halts D.meaning L.state run.now links.new self.new) }
        ensures plan { L.plan links.new ≡ L.plan links.old }
    {
        match collect(rt, run.booth, &mut self.seat) {
            Collected::Outcome(key, settled) => {
                self.conns.settle(links, key, settled);
                Ok(Some(key.c))
            }
            Collected::Empty => Ok(None),
            Collected::Closed => Err(Outcome::JournalFault),
        }
    }

    /// Collects the oldest outcome, and makes the moves that it allows. It answers whether there may be one more: there was one, and something is owed still.
    fn collect_next<L: Links, D: Desk, G: Gate, R: Wait>(
        &mut self,
        rt: &R,
        run: &Run<Hall<H, J>, D, G, L>,
        links: &mut L,
    ) -> Result<bool, Outcome>
        requires serving { Serves D.meaning L.state run.now links.old self.old }
        ensures serving { OnOk result (Serves D.meaning L.state run.now links.new self.new) }
        ensures halted { IfErr result (Halts D.meaning L.state run.now links.new self.new) }
        ensures plan { L.plan links.new ≡ L.plan links.old }
    {
        self.make_turn(rt, run)?;
        let Some(c) = self.collect(rt, run, links)? else {
            return Ok(false);
        };
        self.visit(rt, run, links, c)?;
        self.retry_all_held(rt, run, links)?;
        Ok(self.conns.owing > 0)
    }

    /// Collects outcomes until there is none, or until the most of a round were collected: then it rings the bell, so that the links don't wait when they
    /// are asked what is next, and the rest is collected after that. Where no other worker runs, a turn comes before each.
    pub(crate) fn collect_all<L: Links, D: Desk, G: Gate, R: Wait>(
        &mut self,
        rt: &R,
        run: &Run<Hall<H, J>, D, G, L>,
        links: &mut L,
    ) -> Result<(), Outcome>
        requires serving { Serves D.meaning L.state run.now links.old self.old }
        ensures serving { OnOk result (Serves D.meaning L.state run.now links.new self.new) }
        ensures halted { IfErr result (Halts D.meaning L.state run.now links.new self.new) }
        ensures plan { L.plan links.new ≡ L.plan links.old }
    {
        for _ in 0..MOST_OUTCOMES {
            match self.collect_next(rt, run, links) {
                Ok(true) => {}
                Ok(false) => return Ok(()),
                Err(why) => return Err(why),
            }
        }
        run.bell.ring(rt);
        Ok(())
    }

    /// Does the same where no other worker runs and something is owed.
    pub(crate) fn collect_alone<L: Links, D: Desk, G: Gate, R: Wait>(
        &mut self,
        rt: &R,
        run: &Run<Hall<H, J>, D, G, L>,
        links: &mut L,
    ) -> Result<(), Outcome>
        requires serving { Serves D.meaning L.state run.now links.old self.old }
        ensures serving { OnOk result (Serves D.meaning L.state run.now links.new self.new) }
        ensures halted { IfErr result (Halts D.meaning L.state run.now links.new self.new) }
        ensures plan { L.plan links.new ≡ L.plan links.old }
    {
        if run.crewed {
            return Ok(());
        }
        if self.conns.owing == 0 {
            return Ok(());
        }
        self.collect_all(rt, run, links)
    }
}

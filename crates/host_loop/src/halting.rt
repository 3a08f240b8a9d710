//! How the loop ends: each connection that is open is stopped, and the hall is closed.

ghost use Rattle.std.specs.Prelude.{◌≡◌};
ghost use Rattle.host_loop.specs.Going.{is_all, Serves, EndsOver};

use crate::asking::close;
use crate::holdings::{Run, Serving};
use call_rules::{Desk, Handler, Journal};
use conn_table::Outcome;
use hall_core::Hall;
use outside::{Gate, Links};
use std::sync::Wait;

/// Whether all is over.
fn is_over(outcome: Outcome) -> bool
    ensures { result ≡ is_all outcome }
{
    match outcome {
        Outcome::All => true,
        _ => false,
    }
}

impl<H: Handler, J: Journal> Serving<Hall<H, J>> {
    /// Serves until all is over, or something has failed; then each connection that is open is stopped, and the hall is closed. It answers how it came out.
    pub(crate) fn run_to_end<L: Links, D: Desk, G: Gate, R: Wait>(
        &mut self,
        rt: &R,
        run: &Run<Hall<H, J>, D, G, L>,
        links: &mut L,
    ) -> Outcome
        requires serving { Serves D.meaning L.state run.now links.old self.old }
        ensures ended { EndsOver D.meaning L.state run.now links.new self.new result }
        ensures plan { L.plan links.new ≡ L.plan links.old }
    {
        let outcome = self.run_rounds(rt, run, links);
        if is_over(outcome) {
            close(rt, run.booth, &mut self.seat);
            return outcome;
        }
        self.conns.stop_all(links);
        close(rt, run.booth, &mut self.seat);
        outcome
    }
}

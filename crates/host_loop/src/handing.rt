//! How a payload that is whole is handed over to the hall.

ghost use Rattle.conn_state.specs.Phase.{IsReady};
ghost use Rattle.conn_table.specs.Table.{slot_of};
ghost use Rattle.loop_conns.specs.Going.{IsOpenAt};
ghost use Rattle.host_loop.specs.Going.{ServesSomewhere, KeepsServing};

use crate::asking::submit;
use crate::holdings::{Run, Serving};
use call_rules::{Desk, Handler, Journal, Key};
use conn_table::Outcome;
use hall_core::Hall;
use outside::Links;
use std::sync::Wait;
use streams::Bytes;

impl<H: Handler, J: Journal> Serving<Hall<H, J>> {
    /// Submits the payload that is whole, and rings for it where workers wait at the door.
    pub(crate) fn submit_and_ring<L: Links, D: Desk, G, R: Wait>(
        &mut self,
        rt: &R,
        run: &Run<Hall<H, J>, D, G, L>,
        c: u32,
    ) -> Result<(), Outcome>
        requires serving { ServesSomewhere D.meaning L.state run.now self.old }
        requires open { IsOpenAt c self.old.conns }
        requires whole { IsReady (slot_of c self.old.conns.table.slots).conn.phase }
        ensures kept { KeepsServing D.meaning L.state run.now self.old self.new result }
    {
        let (i, payload) = self.conns.give(c);
        let key = Key { c, i };
        run.door.announce();
        if !submit(rt, run.booth, &mut self.seat, key, Bytes::new(payload)) {
            return Err(Outcome::JournalFault);
        }
        run.door.ring();
        Ok(())
    }
}

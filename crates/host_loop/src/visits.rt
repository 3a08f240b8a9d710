//! A visit to a connection: it is written, read and submitted, as long as anything moves.

ghost use Rattle.std.specs.Prelude.{◌≡◌, ◌<◌, IsTrue, IsSome, OnOk, IfErr, length};
ghost use Rattle.conn_state.specs.Phase.{left_to_write, wanted, IsReading};
ghost use Rattle.conn_table.specs.Slots.{slot_in};
ghost use Rattle.conn_table.specs.Table.{slot_of};
ghost use Rattle.loop_conns.specs.Going.{IsOpenAt, ReadsAt, WaitsAt};
ghost use Rattle.host_loop.specs.Going.{Serves, Halts};

use crate::holdings::{Run, Serving};
use call_rules::{Desk, Handler, Journal};
use conn_table::Outcome;
use hall_core::Hall;
use loop_conns::{Admission, LoopConnections, ReadStep, WriteStep};
use outside::Links;
use std::sync::Wait;

/// Whether a connection has a reply to write.
fn has_reply(conns: &LoopConnections, c: u32) -> bool
    requires { IsSome (slot_in c conns.now.table.slots) }
    ensures { IsTrue result → 0 < length (left_to_write (slot_of c conns.now.table.slots).conn.phase) }
{
    !conns.table.conn(c).pending().is_empty()
}

/// How many bytes a connection wants.
fn want(conns: &LoopConnections, c: u32) -> usize
    requires { IsSome (slot_in c conns.now.table.slots) }
    ensures count { result ≡ wanted (slot_of c conns.now.table.slots).conn.phase }
    ensures reading { 0 < result → IsReading (slot_of c conns.now.table.slots).conn.phase }
{
    conns.table.conn(c).want()
}

/// Whether a connection may move on that was written to.
fn moves_on(step: WriteStep) -> bool {
    match step {
        WriteStep::Part => true,
        WriteStep::All => true,
        WriteStep::Blocked => false,
        WriteStep::Over => false,
    }
}

impl<H: Handler, J: Journal> Serving<Hall<H, J>> {
    /// Admits the frame that waits, or else holds it. It answers whether the connection may move on.
    fn admit<L: Links, D: Desk, G>(
        &mut self,
        run: &Run<Hall<H, J>, D, G, L>,
        links: &mut L,
        c: u32,
    ) -> Result<bool, Outcome>
        requires serving { Serves D.meaning L.state run.now links.old self.old }
        requires waits { WaitsAt c self.old.conns }
        ensures serving { OnOk result (Serves D.meaning L.state run.now links.new self.new) }
        ensures halted { IfErr result (Halts D.meaning L.state run.now links.new self.new) }
        ensures plan { L.plan links.new ≡ L.plan links.old }
    {
        match self.conns.admit(run.alloc, links, c) {
            Admission::Admitted => Ok(true),
            Admission::Refused => match self.held.push(c) {
                Ok(()) => Ok(false),
                Err(_) => Err(Outcome::NoMemory),
            },
            Admission::Over => Ok(false),
        }
    }

    /// Reads once, and goes on with what was read. It answers whether the connection may move on.
    fn read<L: Links, D: Desk, G, R: Wait>(
        &mut self,
        rt: &R,
        run: &Run<Hall<H, J>, D, G, L>,
        links: &mut L,
        c: u32,
        count: usize,
    ) -> Result<bool, Outcome>
        requires serving { Serves D.meaning L.state run.now links.old self.old }
        requires reads { ReadsAt c self.old.conns }
        requires count { count ≡ wanted (slot_of c self.old.conns.table.slots).conn.phase }
        ensures serving { OnOk result (Serves D.meaning L.state run.now links.new self.new) }
        ensures halted { IfErr result (Halts D.meaning L.state run.now links.new self.new) }
        ensures plan { L.plan links.new ≡ L.plan links.old }
    {
        let max_frame = run.limits.max_frame;
        match self
            .buffer
            .read(&mut self.conns, links, c, count, max_frame)
        {
            ReadStep::More => Ok(true),
            ReadStep::Sized => self.admit(run, links, c),
            ReadStep::Whole => {
                self.submit_and_ring(rt, run, c)?;
                Ok(false)
            }
            ReadStep::Blocked => Ok(false),
            ReadStep::Over => Ok(false),
        }
    }

    /// One move of a connection that is open. It answers whether the connection may move on.
    fn step<L: Links, D: Desk, G, R: Wait>(
        &mut self,
        rt: &R,
        run: &Run<Hall<H, J>, D, G, L>,
        links: &mut L,
        c: u32,
    ) -> Result<bool, Outcome>
        requires serving { Serves D.meaning L.state run.now links.old self.old }
        requires open { IsOpenAt c self.old.conns }
        ensures serving { OnOk result (Serves D.meaning L.state run.now links.new self.new) }
        ensures halted { IfErr result (Halts D.meaning L.state run.now links.new self.new) }
        ensures plan { L.plan links.new ≡ L.plan links.old }
    {
        if has_reply(&self.conns, c) {
            return Ok(moves_on(self.conns.write(links, c)));
        }
        let count = want(&self.conns, c);
        if count > 0 {
            return self.read(rt, run, links, c, count);
        }
        Ok(false)
    }

    /// One move of a connection, if it is open. It answers whether the connection may move on.
    fn step_if_open<L: Links, D: Desk, G, R: Wait>(
        &mut self,
        rt: &R,
        run: &Run<Hall<H, J>, D, G, L>,
        links: &mut L,
        c: u32,
    ) -> Result<bool, Outcome>
        requires serving { Serves D.meaning L.state run.now links.old self.old }
        ensures serving { OnOk result (Serves D.meaning L.state run.now links.new self.new) }
        ensures halted { IfErr result (Halts D.meaning L.state run.now links.new self.new) }
        ensures plan { L.plan links.new ≡ L.plan links.old }
    {
        if self.conns.is_open(c) {
            return self.step(rt, run, links, c);
        }
        Ok(false)
    }

    /// Makes the moves of a connection, as long as it has any: at most what is left of a reply and one frame, since it waits for the outcome of a payload that
    /// was submitted.
    pub(crate) fn visit<L: Links, D: Desk, G, R: Wait>(
        &mut self,
        rt: &R,
        run: &Run<Hall<H, J>, D, G, L>,
        links: &mut L,
        c: u32,
    ) -> Result<(), Outcome>
        requires serving { Serves D.meaning L.state run.now links.old self.old }
        ensures serving { OnOk result (Serves D.meaning L.state run.now links.new self.new) }
        ensures halted { IfErr result (Halts D.meaning L.state run.now links.new self.new) }
        ensures plan { L.plan links.new ≡ L.plan links.old }
    {
        for _ in rt.forever() {
            match self.step_if_open(rt, run, links, c) {
                Ok(true) => {}
                Ok(false) => return Ok(()),
                Err(why) => return Err(why),
            }
        }
        unreachable!()
    }
}

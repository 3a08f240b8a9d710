//! The frames that are held, since the budget had no room for them.

ghost use Rattle.std.specs.Prelude.{◌≡◌, IsTrue, IsSome, IfOk, OnOk, IfErr};
ghost use Rattle.conn_state.specs.Phase.{IsHeld};
ghost use Rattle.conn_table.specs.Slots.{slot_in};
ghost use Rattle.conn_table.specs.Table.{slot_of};
ghost use Rattle.host_loop.specs.Going.{Serves, Halts};
ghost use Rattle.host_loop.specs.Held.{FoundTells, HeldLookTells, IsToldHeld, SomeIsHeld};

use crate::holdings::{Run, Serving};
use call_rules::{Desk, Handler, Journal};
use conn_table::Outcome;
use hall_core::Hall;
use loop_conns::{Admission, LoopConnections};
use outside::Links;
use std::sync::Wait;

/// What has come of a try to admit a frame that is held.
#[derive(Clone, Copy)]
pub(crate) enum Found {
    /// It is admitted.
    Admitted,
    /// There is no room for it.
    NoRoom,
    /// It waits no more.
    Gone,
}

/// What has come of a look at those that are held.
#[derive(Clone, Copy)]
pub(crate) enum HeldLook {
    /// The frame of this connection is admitted.
    Admitted(u32),
    /// Those that are held have changed.
    Changed,
    /// There is no room for any; so one is held, or none is.
    StillHeld(bool),
}

/// Whether the frame of a connection waits to be admitted.
fn waits(conns: &LoopConnections, c: u32) -> bool
    requires { IsSome (slot_in c conns.now.table.slots) }
    ensures { IsTrue result → IsHeld (slot_of c conns.now.table.slots).conn.phase }
{
    conns.table.conn(c).asks().is_some()
}

/// Takes out the connection at this place of those that are held.
fn let_out(held: &mut Vec<u32>, at: usize) {
    if at < held.len() {
        held.remove(at);
    }
}

impl<H: Handler, J: Journal> Serving<Hall<H, J>> {
    /// Tries to admit the frame of a connection, if it is open, and its frame waits.
    fn try_one<L: Links, D: Desk, G>(
        &mut self,
        run: &Run<Hall<H, J>, D, G, L>,
        links: &mut L,
        c: u32,
    ) -> Found
        requires serving { Serves D.meaning L.state run.now links.old self.old }
        ensures serving { Serves D.meaning L.state run.now links.new self.new }
        ensures plan { L.plan links.new ≡ L.plan links.old }
        ensures found { FoundTells c self.new.conns result }
    {
        if !self.conns.is_open(c) {
            return Found::Gone;
        }
        if !waits(&self.conns, c) {
            return Found::Gone;
        }
        match self.conns.admit(run.alloc, links, c) {
            Admission::Admitted => Found::Admitted,
            Admission::Refused => Found::NoRoom,
            Admission::Over => Found::Gone,
        }
    }

    /// Admits the first of the frames that are held for which there is room.
    fn look<L: Links, D: Desk, G>(
        &mut self,
        run: &Run<Hall<H, J>, D, G, L>,
        links: &mut L,
    ) -> HeldLook
        requires serving { Serves D.meaning L.state run.now links.old self.old }
        ensures serving { Serves D.meaning L.state run.now links.new self.new }
        ensures plan { L.plan links.new ≡ L.plan links.old }
        ensures look { HeldLookTells self.new.conns result }
    {
        let mut one = false;
        for at in 0..self.held.len() {
            let Some(&c) = self.held.get(at) else {
                return HeldLook::StillHeld(one);
            };
            match self.try_one(run, links, c) {
                Found::Admitted => {
                    let_out(&mut self.held, at);
                    return HeldLook::Admitted(c);
                }
                Found::NoRoom => one = true,
                Found::Gone => {
                    let_out(&mut self.held, at);
                    return HeldLook::Changed;
                }
            }
        }
        HeldLook::StillHeld(one)
    }

    /// Looks once at those that are held, and visits the one that is admitted. It answers whether to look again, and else whether one is held.
    pub(crate) fn retry_held<L: Links, D: Desk, G, R: Wait>(
        &mut self,
        rt: &R,
        run: &Run<Hall<H, J>, D, G, L>,
        links: &mut L,
    ) -> Result<Option<bool>, Outcome>
        requires serving { Serves D.meaning L.state run.now links.old self.old }
        ensures serving { OnOk result (Serves D.meaning L.state run.now links.new self.new) }
        ensures halted { IfErr result (Halts D.meaning L.state run.now links.new self.new) }
        ensures plan { L.plan links.new ≡ L.plan links.old }
        ensures held { IfOk result (λ found. IsToldHeld self.new.conns found) }
    {
        match self.look(run, links) {
            HeldLook::Admitted(c) => {
                self.visit(rt, run, links, c)?;
                Ok(None)
            }
            HeldLook::Changed => Ok(None),
            HeldLook::StillHeld(one) => Ok(Some(one)),
        }
    }

    /// Admits frames that are held as long as there is room for any. Each look that goes on takes one of them out, and none comes back before an outcome of its
    /// connection is collected, so it ends. It answers whether one is held.
    pub(crate) fn retry_all_held<L: Links, D: Desk, G, R: Wait>(
        &mut self,
        rt: &R,
        run: &Run<Hall<H, J>, D, G, L>,
        links: &mut L,
    ) -> Result<bool, Outcome>
        requires serving { Serves D.meaning L.state run.now links.old self.old }
        ensures serving { OnOk result (Serves D.meaning L.state run.now links.new self.new) }
        ensures halted { IfErr result (Halts D.meaning L.state run.now links.new self.new) }
        ensures plan { L.plan links.new ≡ L.plan links.old }
        ensures held { IfOk result (λ one. IsTrue one → SomeIsHeld self.new.conns) }
    {
        for _ in rt.forever() {
            match self.retry_held(rt, run, links) {
                Ok(Some(one)) => return Ok(one),
                Ok(None) => {}
                Err(why) => return Err(why),
            }
        }
        unreachable!()
    }
}

//! The machine: the loop's part, the hall and the workers, and their moves.

ghost use Rattle.std.specs.Prelude.{◌≡◌, ℕ, ◌<◌, ◌≤◌, true, Some, length, slice_get, IfOk, IfErr, OnOk, OnErr, MatchOption};
ghost use Rattle.machine_model.specs.HallRule.{outcome};
ghost use Rattle.hall_core.specs.Asked.{answer_of};
ghost use Rattle.cell_core.specs.MachineSteps.{IsConnStep, IsOutcomeStep};
ghost use Rattle.cell_core.specs.Turns.{IsNoOutcome};
ghost use Rattle.cell_loop.specs.declared.loop_part.CellStage.TheVariants.{Whole};
ghost use Rattle.cell_core.specs.declared.stop.RunStop.TheVariants.{JournalFault};
ghost use Rattle.cell_loop.specs.Moving.{one_of_conn, one_of_worker, one_of_outcome};
ghost use Rattle.cell_core.specs.Parts.{parts_of};
ghost use Rattle.cell_core.specs.Machines.{IsMachine, SomeMachine, IsOfDesk, MachineMoves, DeskMoves, StaysPlayed, MoveKeeps, FailsAt, LeavesLess};

use crate::turn::turn;
use crate::{Holding, RunStop, Turned, moved, put_back, take_out};
use call_rules::{Desk, Handler, Journal, Key};
use cell_loop::move_laws::moves_are_reached;
use cell_loop::{CellStage, LoopPart};
use hall_core::{Hall, HallReply};
use std::alloc::{AllocError, Global};
use streams::{Bytes, Settled};

/// The machine of loop, hall and workers.
#[derive(Drop)]
pub(crate) struct Machine<'a, H: Handler, J: Journal> {
    /// The loop's part.
    pub part: LoopPart<'a>,
    /// The hall, which is open, and whose journal hasn't failed.
    pub hall: Hall<H, J>,
    /// What each worker holds, one at least.
    pub workers: Vec<Holding>,
}

impl<'a, H: Handler, J: Journal> Machine<'a, H, J> {
    /// One move of a connection, where it has one.
    #[inline(always)]
    pub(crate) fn conn_move(
        &mut self,
        alloc: Global,
        c: u32,
        max_frame: u32,
    ) -> Result<bool, AllocError>
        requires under_way { IsMachine max_frame (parts_of self.old) }
        ensures moved { IfOk result (λ moved. MachineMoves max_frame (λ s. one_of_conn s c) (parts_of self.old) moved (parts_of self.new)) }
        ensures err { OnErr result (StaysPlayed (parts_of self.old) (parts_of self.new)) }
        ensures under_way { IsMachine max_frame (parts_of self.new) }
        ensures less { IfOk result (λ moved. LeavesLess moved (parts_of self.old) (parts_of self.new)) }
        ensures kept { MoveKeeps (parts_of self.old) (parts_of self.new) }
        ensures count { self.new.hall.faults ≡ self.old.hall.faults }
    {
        self.conn_step(alloc, c, max_frame)
    }

    /// One move of a connection by how it stands.
    fn conn_step(&mut self, alloc: Global, c: u32, max_frame: u32) -> Result<bool, AllocError>
        requires under_way { IsMachine max_frame (parts_of self.old) }
        ensures { IsConnStep max_frame c (parts_of self.old) (parts_of self.new) result }
    {
        moves_are_reached();
        match self.part.stage(c) {
            Some(CellStage::Whole) => {
                self.submit(c);
                Ok(true)
            }
            Some(CellStage::Framed) => self.part.read(c, max_frame),
            Some(CellStage::Lean) => self.part.lean_move(alloc, c, max_frame),
            Some(CellStage::Asked) => Ok(false),
            Some(CellStage::Over(_)) => Ok(false),
            None => Ok(false),
        }
    }

    /// Submits the payload that is whole.
    fn submit(&mut self, c: u32)
        requires under_way { SomeMachine (parts_of self.old) }
        requires whole { slice_get self.old.part.stages.items c ≡ Some Whole }
        ensures moved { (max : ℕ) → MachineMoves max (λ s. one_of_conn s c) (parts_of self.old) true (parts_of self.new) }
        ensures kept { MoveKeeps (parts_of self.old) (parts_of self.new) }
        ensures count { self.new.hall.faults ≡ self.old.hall.faults }
    {
        moves_are_reached();
        let (i, payload) = self.part.give(c);
        let _ = self.hall.submit(Key { c, i }, Bytes::new(payload));
    }

    /// One move of a worker, where it has one.
    #[inline(always)]
    pub(crate) fn worker_move<D: Desk>(
        &mut self,
        alloc: Global,
        desk: &D,
        w: u32,
    ) -> Result<bool, RunStop>
        requires under_way { IsMachine (D.meaning desk.now).max_frame (parts_of self.old) }
        requires desk { IsOfDesk (D.meaning desk.now) (parts_of self.old) }
        requires there { w < length self.old.workers.items }
        ensures moved { IfOk result (λ moved. DeskMoves (D.meaning desk.now) (λ s. one_of_worker s w) (parts_of self.old) moved (parts_of self.new)) }
        ensures failed { OnErr result (FailsAt (D.meaning desk.now) (parts_of self.old) (parts_of self.new)) }
        ensures only { IfErr result (λ stop. stop ≡ JournalFault) }
        ensures less { IfOk result (λ moved. LeavesLess moved (parts_of self.old) (parts_of self.new)) }
        ensures kept { MoveKeeps (parts_of self.old) (parts_of self.new) }
        ensures count { OnOk result (self.new.hall.faults ≡ self.old.hall.faults) }
        ensures later { self.old.hall.faults ≤ self.new.hall.faults }
    {
        moves_are_reached();
        let worker = take_out(&mut self.workers, w as usize);
        let Turned { worker, stepped } = turn(alloc, desk, &mut self.hall, worker);
        put_back(&mut self.workers, w as usize, worker);
        moved(stepped)
    }

    /// Collects the oldest outcome, where there is one.
    #[inline(always)]
    pub(crate) fn collect_move(&mut self) -> bool
        requires under_way { SomeMachine (parts_of self.old) }
        ensures moved { (max : ℕ) → MachineMoves max one_of_outcome (parts_of self.old) result (parts_of self.new) }
        ensures less { LeavesLess result (parts_of self.old) (parts_of self.new) }
        ensures kept { MoveKeeps (parts_of self.old) (parts_of self.new) }
        ensures count { self.new.hall.faults ≡ self.old.hall.faults }
    {
        self.collect_step()
    }

    /// Collects the oldest outcome, where there is one.
    fn collect_step(&mut self) -> bool
        requires under_way { SomeMachine (parts_of self.old) }
        ensures { IsOutcomeStep (parts_of self.old) (parts_of self.new) result }
    {
        moves_are_reached();
        let reply = self.hall.collect();
        match collected(reply) {
            None => false,
            Some((key, settled)) => {
                self.part.settle(key.c, settled);
                true
            }
        }
    }
}

/// The outcome that was collected, where there was one.
fn collected(reply: HallReply) -> Option<(Key, Settled)>
    ensures { MatchOption result (IsNoOutcome (answer_of reply)) (λ r. answer_of reply ≡ outcome r.0 r.1) }
{
    match reply {
        HallReply::Settled(key, settled) => Some((key, settled)),
        _ => None,
    }
}

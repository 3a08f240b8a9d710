//! The loops over moves: a pass, a run that is drained, and the lines of a script.

ghost use Rattle.std.specs.Prelude.{◌≡◌, ℕ, ◌<◌, ◌≤◌, ◌||◌, IsTrue, length, map, slice_get, IfOk, IfErr, OnOk, OnErr};
ghost use Rattle.std.specs.List.{AllByRecursion};
ghost use Rattle.script_model.specs.ScriptLines.{piece, input_end, input_fault, resting, turn_of_conn, turn_of_worker, turn_of_outcome, opening};
ghost use Rattle.script_model.specs.Rehearsing.{is_idle};
ghost use Rattle.script_text.specs.Plans.{plain_line};
ghost use Rattle.cell_core.specs.HallTied.{worker_in};
ghost use Rattle.cell_core.specs.Parts.{parts_of};
ghost use Rattle.cell_loop.specs.Moving.{all_of_conn, first_of_conns, all_of_worker, first_of_workers, all_of_outcomes};
ghost use Rattle.cell_loop.specs.Moving.{one_pass, all_passes, one_line, all_lines};
ghost use Rattle.cell_loop.specs.LoopMoves.{AnySetting, HasLongest};
ghost use Rattle.cell_core.specs.MachineSteps.{HasNoTurn};
ghost use Rattle.cell_core.specs.Machines.{SomeMachine, IsMachine, IsOfDesk, HasDesk, HasCrew, IsDone, EndsEarly, StopsMachine, ComesThrough, IsLineFor};

use crate::machine::Machine;
use crate::{Holding, RunStop};
use call_rules::{Desk, Handler, Journal};
use cell_loop::move_laws::moves_are_reached;
use cell_loop::{CellStage, InputEnd};
use script_text::ScriptLine;
use std::alloc::{AllocError, Global};

/// Whether one of two things moved.
fn either(one: bool, other: bool) -> bool
    ensures { result ≡ (one || other) }
{
    one || other
}

/// Whether a worker holds no job.
fn rests(workers: &[Holding], w: usize) -> bool
    requires { w < length workers.now }
    ensures { result ≡ is_idle (worker_in workers.now w) }
{
    matches!(workers[w], Holding::Idle)
}

/// Whether a connection has no move, as how it stands tells: it awaits an outcome, or has ended.
fn has_no_turn(stages: &[CellStage], c: u32) -> bool
    ensures { IsTrue result → HasNoTurn (slice_get stages.now c) }
{
    match stages.get(c as usize) {
        Some(CellStage::Asked) => true,
        Some(CellStage::Over(_)) => true,
        Some(_) => false,
        None => true,
    }
}

/// The first connection from this one on that may have a move, or `count`, where there is none below it.
fn next_turn(stages: &[CellStage], from: u32, count: u32) -> u32
    requires { from ≤ count }
    ensures from { from ≤ result }
    ensures within { result ≤ count }
    ensures still { (k : ℕ) → from ≤ k → k < result → HasNoTurn (slice_get stages.now k) }
{
    let mut c = from;
    'still: while c < count && has_no_turn(stages, c) {
        c += 1;
    }
    c
}

impl<'a, H: Handler, J: Journal> Machine<'a, H, J> {
    /// A connection moves until it can't; tells whether it moved.
    fn read_through(&mut self, alloc: Global, c: u32, max_frame: u32) -> Result<bool, AllocError>
        requires under_way { IsMachine max_frame (parts_of self.old) }
        ensures done { IfOk result (λ moved. IsDone (HasLongest max_frame) (λ s. all_of_conn s c) (parts_of self.old) moved (parts_of self.new)) }
        ensures err { OnErr result (EndsEarly (HasLongest max_frame) (parts_of self.old) (parts_of self.new)) }
    {
        let mut moved = false;
        'reads: while self.conn_move(alloc, c, max_frame)? {
            moved = true;
        }
        Ok(moved)
    }

    /// Each connection does; one that has no move, as how it stands tells, is passed over.
    fn all_read(&mut self, alloc: Global, max_frame: u32) -> Result<bool, AllocError>
        requires under_way { IsMachine max_frame (parts_of self.old) }
        ensures done { IfOk result (λ moved. IsDone (HasLongest max_frame) (λ s. first_of_conns s (length self.old.part.stages.items))
            (parts_of self.old) moved (parts_of self.new)) }
        ensures err { OnErr result (EndsEarly (HasLongest max_frame) (parts_of self.old) (parts_of self.new)) }
    {
        let Ok(count) = u32::try_from(self.part.stages.len()) else {
            return Err(AllocError);
        };
        moves_are_reached();
        let mut moved = false;
        let mut c = next_turn(self.part.stages.as_slice(), 0, count);
        'conns: while c < count {
            let read = self.read_through(alloc, c, max_frame)?;
            moved = either(moved, read);
            c = next_turn(self.part.stages.as_slice(), c + 1, count);
        }
        Ok(moved)
    }

    /// A worker moves until it has put its job, or finds none; tells whether it moved.
    fn work_through<D: Desk>(&mut self, alloc: Global, desk: &D, w: u32) -> Result<bool, RunStop>
        requires under_way { IsOfDesk (D.meaning desk.now) (parts_of self.old) }
        requires there { w < length self.old.workers.items }
        ensures done { IfOk result (λ moved. IsDone (HasDesk (D.meaning desk.now)) (λ s. all_of_worker s 3 w) (parts_of self.old) moved (parts_of self.new)) }
        ensures err { IfErr result (λ stop. StopsMachine (HasDesk (D.meaning desk.now)) (parts_of self.old) (parts_of self.new) stop) }
    {
        let mut moved = false;
        'tries: for tried in 0..3u32 {
            if !self.worker_move(alloc, desk, w)? {
                return Ok(moved);
            }
            moved = true;
            if rests(self.workers.as_slice(), w as usize) {
                return Ok(true);
            }
        }
        Ok(moved)
    }

    /// Each worker does.
    fn all_work<D: Desk>(&mut self, alloc: Global, desk: &D) -> Result<bool, RunStop>
        requires under_way { IsOfDesk (D.meaning desk.now) (parts_of self.old) }
        ensures done { IfOk result (λ moved. IsDone (HasDesk (D.meaning desk.now)) (λ s. first_of_workers s (length self.old.workers.items))
            (parts_of self.old) moved (parts_of self.new)) }
        ensures err { IfErr result (λ stop. StopsMachine (HasDesk (D.meaning desk.now)) (parts_of self.old) (parts_of self.new) stop) }
    {
        let Ok(count) = u32::try_from(self.workers.len()) else {
            return Err(RunStop::NoMemory);
        };
        let mut moved = false;
        'workers: for w in 0..count {
            let worked = self.work_through(alloc, desk, w)?;
            moved = either(moved, worked);
        }
        Ok(moved)
    }

    /// Collects outcomes until none is left; tells whether there was one.
    fn collect_all(&mut self) -> bool
        requires under_way { SomeMachine (parts_of self.old) }
        ensures done { IsDone AnySetting all_of_outcomes (parts_of self.old) result (parts_of self.new) }
    {
        let mut moved = false;
        'outcomes: while self.collect_move() {
            moved = true;
        }
        moved
    }

    /// A pass over the connections, the workers and the outcomes; tells whether it moved anything.
    fn pass<D: Desk>(&mut self, alloc: Global, desk: &D, max_frame: u32) -> Result<bool, RunStop>
        requires under_way { IsOfDesk (D.meaning desk.now) (parts_of self.old) }
        requires longest { max_frame ≡ (D.meaning desk.now).max_frame }
        ensures done { IfOk result (λ moved. IsDone (HasCrew (D.meaning desk.now) (length self.old.workers.items)) one_pass
            (parts_of self.old) moved (parts_of self.new)) }
        ensures err { IfErr result (λ stop. StopsMachine (HasCrew (D.meaning desk.now) (length self.old.workers.items))
            (parts_of self.old) (parts_of self.new) stop) }
    {
        let read = self.all_read(alloc, max_frame)?;
        let worked = self.all_work(alloc, desk)?;
        let collected = self.collect_all();
        Ok(either(either(read, worked), collected))
    }

    /// Passes until one moves nothing.
    pub(crate) fn drain<D: Desk>(
        &mut self,
        alloc: Global,
        desk: &D,
        max_frame: u32,
    ) -> Result<(), RunStop>
        requires under_way { IsOfDesk (D.meaning desk.now) (parts_of self.old) }
        requires longest { max_frame ≡ (D.meaning desk.now).max_frame }
        ensures done { OnOk result (ComesThrough (HasCrew (D.meaning desk.now) (length self.old.workers.items)) all_passes
            (parts_of self.old) (parts_of self.new)) }
        ensures err { IfErr result (λ stop. StopsMachine (HasCrew (D.meaning desk.now) (length self.old.workers.items))
            (parts_of self.old) (parts_of self.new) stop) }
    {
        'passes: while self.pass(alloc, desk, max_frame)? {}
        Ok(())
    }

    /// Opens the next connection, where one more may be open.
    fn open_next(&mut self) -> Result<(), RunStop>
        requires under_way { SomeMachine (parts_of self.old) }
        ensures done { OnOk result (ComesThrough AnySetting (λ s. one_line s opening) (parts_of self.old) (parts_of self.new)) }
        ensures err { IfErr result (λ stop. StopsMachine AnySetting (parts_of self.old) (parts_of self.new) stop) }
    {
        moves_are_reached();
        self.part.open()?;
        Ok(())
    }

    /// A piece arrives at a connection.
    fn bring(&mut self, c: u32, bytes: &'a [u8]) -> Result<(), RunStop>
        requires under_way { SomeMachine (parts_of self.old) }
        requires there { c < length self.old.part.feeds.items }
        requires some { 0 < length bytes.now }
        ensures done { OnOk result (ComesThrough AnySetting (λ s. one_line s (piece c bytes.now)) (parts_of self.old) (parts_of self.new)) }
        ensures err { IfErr result (λ stop. StopsMachine AnySetting (parts_of self.old) (parts_of self.new) stop) }
    {
        self.part.feeds[c as usize].arrive(bytes)?;
        Ok(())
    }

    /// The input of a connection ends after its pieces.
    fn end_input(&mut self, c: u32)
        requires under_way { SomeMachine (parts_of self.old) }
        requires there { c < length self.old.part.feeds.items }
        ensures done { ComesThrough AnySetting (λ s. one_line s (input_end c)) (parts_of self.old) (parts_of self.new) }
    {
        self.part.feeds[c as usize].finish = Some(InputEnd::Ends);
    }

    /// A read of a connection fails after its pieces.
    fn fail_input(&mut self, c: u32)
        requires under_way { SomeMachine (parts_of self.old) }
        requires there { c < length self.old.part.feeds.items }
        ensures done { ComesThrough AnySetting (λ s. one_line s (input_fault c)) (parts_of self.old) (parts_of self.new) }
    {
        self.part.feeds[c as usize].finish = Some(InputEnd::Fails);
    }

    /// A connection makes one move, where it has one.
    fn turn_conn(&mut self, alloc: Global, c: u32, max_frame: u32) -> Result<(), RunStop>
        requires under_way { IsMachine max_frame (parts_of self.old) }
        ensures done { OnOk result (ComesThrough (HasLongest max_frame) (λ s. one_line s (turn_of_conn c)) (parts_of self.old) (parts_of self.new)) }
        ensures err { IfErr result (λ stop. StopsMachine (HasLongest max_frame) (parts_of self.old) (parts_of self.new) stop) }
    {
        self.conn_move(alloc, c, max_frame)?;
        Ok(())
    }

    /// A worker makes one, where it has one.
    fn turn_worker<D: Desk>(&mut self, alloc: Global, desk: &D, w: u32) -> Result<(), RunStop>
        requires under_way { IsOfDesk (D.meaning desk.now) (parts_of self.old) }
        requires there { w < length self.old.workers.items }
        ensures done { OnOk result (ComesThrough (HasDesk (D.meaning desk.now)) (λ s. one_line s (turn_of_worker w)) (parts_of self.old) (parts_of self.new)) }
        ensures err { IfErr result (λ stop. StopsMachine (HasDesk (D.meaning desk.now)) (parts_of self.old) (parts_of self.new) stop) }
    {
        self.worker_move(alloc, desk, w)?;
        Ok(())
    }

    /// The oldest outcome is collected, where there is one.
    fn turn_outcome(&mut self)
        requires under_way { SomeMachine (parts_of self.old) }
        ensures done { ComesThrough AnySetting (λ s. one_line s turn_of_outcome) (parts_of self.old) (parts_of self.new) }
    {
        self.collect_move();
    }

    /// Does a line.
    pub(crate) fn do_line<D: Desk>(
        &mut self,
        alloc: Global,
        desk: &D,
        max_frame: u32,
        line: &'a ScriptLine,
    ) -> Result<(), RunStop>
        requires under_way { IsOfDesk (D.meaning desk.now) (parts_of self.old) }
        requires longest { max_frame ≡ (D.meaning desk.now).max_frame }
        requires good { IsLineFor (length self.old.part.feeds.items) (length self.old.workers.items) (plain_line line.now) }
        ensures done { OnOk result (ComesThrough (HasCrew (D.meaning desk.now) (length self.old.workers.items)) (λ s. one_line s (plain_line line.now))
            (parts_of self.old) (parts_of self.new)) }
        ensures err { IfErr result (λ stop. StopsMachine (HasCrew (D.meaning desk.now) (length self.old.workers.items))
            (parts_of self.old) (parts_of self.new) stop) }
    {
        match line {
            ScriptLine::Opens => self.open_next(),
            ScriptLine::Piece(c, bytes) => self.bring(*c, bytes.as_slice()),
            ScriptLine::Ends(c) => {
                self.end_input(*c);
                Ok(())
            }
            ScriptLine::FailsRead(c) => {
                self.fail_input(*c);
                Ok(())
            }
            ScriptLine::Rest => self.drain(alloc, desk, max_frame),
            ScriptLine::Loop(c) => self.turn_conn(alloc, *c, max_frame),
            ScriptLine::Work(w) => self.turn_worker(alloc, desk, *w),
            ScriptLine::Collect => {
                self.turn_outcome();
                Ok(())
            }
        }
    }

    /// Does the lines in order, and drains the run after the last.
    pub(crate) fn do_lines<D: Desk>(
        &mut self,
        alloc: Global,
        desk: &D,
        max_frame: u32,
        lines: &'a [ScriptLine],
    ) -> Result<(), RunStop>
        requires under_way { IsOfDesk (D.meaning desk.now) (parts_of self.old) }
        requires longest { max_frame ≡ (D.meaning desk.now).max_frame }
        requires good { AllByRecursion (IsLineFor (length self.old.part.feeds.items) (length self.old.workers.items)) (map plain_line lines.now) }
        ensures done { OnOk result (ComesThrough (HasCrew (D.meaning desk.now) (length self.old.workers.items)) (λ s. all_lines s (map plain_line lines.now))
            (parts_of self.old) (parts_of self.new)) }
        ensures err { IfErr result (λ stop. StopsMachine (HasCrew (D.meaning desk.now) (length self.old.workers.items))
            (parts_of self.old) (parts_of self.new) stop) }
    {
        'lines: for line in lines {
            self.do_line(alloc, desk, max_frame, line)?;
        }
        self.drain(alloc, desk, max_frame)
    }
}

//! The loop's part: the open connections, what happened on connections, and how each stands.

ghost use Rattle.std.specs.Prelude.{◌≡◌, ℕ, List, true, ◌+◌, ◌*◌, ◌<◌, ◌≤◌, Some, None, IsSome, [], ◌∷◌, ◌++◌, length, slice_get, slice_index_or, slice_set, map, IfOk, OnOk, OnErr};
ghost use Rattle.std.specs.Vec.{vec_capacity};
ghost use Rattle.streams.specs.declared.marks.Mark.TheVariants.{Opened, Closed};
ghost use Rattle.host_model.specs.declared.cause.EndCause.{EndCause};
ghost use Rattle.conn_state.specs.Phase.{cause_of, HasNotEnded};
ghost use Rattle.conn_state.specs.Step.{IsFromOutside};
ghost use Rattle.conn_table.specs.Slots.{most_connections, slot_in, with_added, without_number, HaveRisingNumbers};
ghost use Rattle.conn_table.specs.Table.{slot_of, fresh_slot};
ghost use Rattle.machine_model.specs.HallState.{key_of};
ghost use Rattle.cell_loop.specs.declared.loop_part.CellStage.TheVariants.{Lean, Whole, Asked, Over};
ghost use Rattle.cell_loop.specs.Moving.{one_of_conn};
ghost use Rattle.cell_loop.specs.LoopTied.{HasRoomToClose};
ghost use Rattle.script_text.specs.Plans.{plain_rules};
ghost use Rattle.cell_loop.specs.Feeds.{AreFreshFeeds};
ghost use Rattle.cell_loop.specs.Replies.{IsReplySome};
ghost use Rattle.cell_loop.specs.Closing.{StageHasSize, IsClosed, HasMoreRoom, end_told};
ghost use Rattle.cell_loop.specs.Moving.{one_opening};
ghost use Rattle.cell_loop.specs.LoopMoves.{IsLoopUnderWay, StaysTied, LoopMoves, AnySetting, HasLongest, GivesOut, TakesOutcome, StopsOne, StopsAll, AreAllOver};
ghost use Rattle.call_rules.specs.Desks.{longest_payload};

use crate::feed::Feed;
use conn_state::EndCause;
use conn_table::Table;
use limits::MOST_CONNECTIONS;
use script_text::RuleList;
use std::alloc::{AllocError, Global};
use streams::{MarkAt, Settled, TapeLog};

/// So many marks have room before a move: one of the move, and two for each connection that is open behind it.
const ROOM: usize = 1 + 2 * MOST_CONNECTIONS;

/// How a connection stands that was opened.
#[derive(Clone, Copy)]
pub enum CellStage {
    /// It is open, and no size is admitted: a size is read or waits, or a reply is written.
    Lean,
    /// Its size is admitted, and its payload is read.
    Framed,
    /// Its payload is whole, and isn't submitted.
    Whole,
    /// Its payload is submitted, and its outcome isn't collected.
    Asked,
    /// It has ended, and is closed.
    Over(EndCause),
}

/// The loop's part of the machine.
#[derive(Drop)]
pub struct LoopPart<'a> {
    /// The open connections, with the sizes that are admitted.
    pub table: Table,
    /// What happened, the oldest first; there is room for two marks of each open connection.
    pub tape: TapeLog,
    /// How each connection stands that was opened, by number.
    pub stages: Vec<CellStage>,
    /// Empty, with room for a cause of each connection that was opened.
    pub ends: Vec<EndCause>,
    /// What the script gives each connection that it opens, by number.
    pub feeds: Vec<Feed<'a>>,
}

impl<'a> LoopPart<'a> {
    /// Holds no connection, with a feed for each of these lists of rules.
    pub fn new(
        alloc: Global,
        read_budget: u64,
        rules: &'a [RuleList],
    ) -> Result<LoopPart<'a>, AllocError>
        ensures table { IfOk result (λ part. part.table ≡ record { budget = read_budget; slots = [] }) }
        ensures tape { IfOk result (λ part. part.tape.items ≡ []) }
        ensures stages { IfOk result (λ part. (part.stages.items ≡ []) × (part.ends.items ≡ [])) }
        ensures feeds { IfOk result (λ part. AreFreshFeeds (map plain_rules rules.now) part.feeds.items) }
    {
        let feeds = fresh_feeds(alloc, rules)?;
        Ok(LoopPart {
            table: Table::new(alloc, read_budget)?,
            tape: TapeLog::new(alloc),
            stages: Vec::new(alloc),
            ends: Vec::new(alloc),
            feeds,
        })
    }

    /// How a connection stands, if it was opened.
    pub fn stage(&self, c: u32) -> Option<CellStage>
        ensures { result ≡ slice_get self.now.stages.items c }
    {
        match self.stages.get(c as usize) {
            Some(stage) => Some(*stage),
            None => None,
        }
    }

    /// Takes room for the marks of a move; no more connections are open than may be.
    pub fn make_room(&mut self) -> Result<(), AllocError>
        ensures few { length self.new.table.slots ≤ most_connections }
        ensures tape { self.new.tape.items ≡ self.old.tape.items }
        ensures room { OnOk result (length self.new.tape.items + (1 + 2 * most_connections) ≤ self.new.tape.capacity) }
        ensures more { self.old.tape.capacity ≤ self.new.tape.capacity }
        ensures ends { self.new.ends ≡ self.old.ends }
        ensures table { self.new.table ≡ self.old.table }
        ensures stages { self.new.stages ≡ self.old.stages }
        ensures feeds { self.new.feeds ≡ self.old.feeds }
    {
        // The table tells how many connections may be open.
        let _ = self.table.full();
        self.tape.reserve(ROOM)
    }

    /// Takes a connection out that has ended, whose size was given back.
    pub fn close(&mut self, c: u32)
        requires there { IsSome (slot_in c self.old.table.slots) }
        requires over { IsSome (cause_of (slot_of c self.old.table.slots).conn.phase) }
        requires given_back { (slot_of c self.old.table.slots).size ≡ None }
        requires opened { c < length self.old.stages.items }
        requires room { length self.old.tape.items < self.old.tape.capacity }
        ensures table { self.new.table ≡ record self.old.table { slots = without_number c self.old.table.slots } }
        ensures gone { slot_in c self.new.table.slots ≡ None }
        ensures stages { (cause : EndCause) → cause_of (slot_of c self.old.table.slots).conn.phase ≡ Some cause →
            self.new.stages.items ≡ slice_set self.old.stages.items c (Over cause) }
        ensures tape { self.new.tape.items ≡ self.old.tape.items ++ Closed c ∷ [] }
        ensures capacity { self.new.tape.capacity ≡ self.old.tape.capacity }
        ensures feeds { self.new.feeds ≡ self.old.feeds }
        ensures ends { self.new.ends ≡ self.old.ends }
    {
        let cause = self.table.remove(c);
        self.stages[c as usize] = CellStage::Over(cause);
        self.tape.push(MarkAt::Closed(c));
    }

    /// Gives back the size of a connection that has ended, where one is admitted, and takes it out.
    pub fn release_and_close(&mut self, c: u32)
        requires there { IsSome (slot_in c self.old.table.slots) }
        requires over { IsSome (cause_of (slot_of c self.old.table.slots).conn.phase) }
        requires size { StageHasSize (slice_index_or self.old.stages.items c Lean) (slot_of c self.old.table.slots).size }
        requires opened { c < length self.old.stages.items }
        requires room { length self.old.tape.items < self.old.tape.capacity }
        ensures closed { (cause : EndCause) → cause_of (slot_of c self.old.table.slots).conn.phase ≡ Some cause → IsClosed c cause self.old self.new }
    {
        if let CellStage::Lean = self.stages[c as usize] {
            self.close(c);
            return;
        }
        self.table.release(c);
        self.close(c);
    }

    /// Ends a connection for a cause that its bytes don't show, and takes it out.
    pub fn end(&mut self, c: u32, cause: EndCause)
        requires there { IsSome (slot_in c self.old.table.slots) }
        requires going { HasNotEnded (slot_of c self.old.table.slots).conn.phase }
        requires outside { IsFromOutside cause }
        requires size { StageHasSize (slice_index_or self.old.stages.items c Lean) (slot_of c self.old.table.slots).size }
        requires opened { c < length self.old.stages.items }
        requires room { length self.old.tape.items < self.old.tape.capacity }
        ensures closed { IsClosed c cause self.old self.new }
    {
        self.table.end(c, cause);
        self.release_and_close(c);
    }

    /// Opens the next connection, where one more may be open.
    pub fn open(&mut self) -> Result<bool, AllocError>
        requires under_way { IsLoopUnderWay self.old }
        ensures moved { IfOk result (λ moved. LoopMoves AnySetting one_opening self.old moved self.new) }
        ensures err { OnErr result (StaysTied self.old self.new) }
        ensures feeds { self.new.feeds ≡ self.old.feeds }
        ensures room { HasRoomToClose self.new }
    {
        if self.table.full() {
            return Ok(false);
        }
        self.open_one()?;
        Ok(true)
    }

    /// Opens the next connection.
    fn open_one(&mut self) -> Result<(), AllocError>
        requires under_way { IsLoopUnderWay self.old }
        requires fits { length self.old.table.slots < most_connections }
        requires rising { HaveRisingNumbers self.old.table.slots }
        ensures moved { OnOk result (LoopMoves AnySetting one_opening self.old true self.new) }
        ensures err { OnErr result (StaysTied self.old self.new) }
        ensures feeds { self.new.feeds ≡ self.old.feeds }
        ensures room { HasRoomToClose self.new }
    {
        let Ok(c) = u32::try_from(self.stages.len()) else {
            return Err(AllocError);
        };
        if self.stages.len() == self.feeds.len() {
            return Err(AllocError);
        }
        self.make_way()?;
        self.add(c);
        Ok(())
    }

    /// Takes room for one more connection.
    fn make_way(&mut self) -> Result<(), AllocError>
        ensures more { HasMoreRoom self.old self.new }
        ensures for_mark { OnOk result (length self.new.tape.items + (1 + 2 * most_connections) ≤ self.new.tape.capacity) }
        ensures for_stand { OnOk result (length self.new.stages.items < vec_capacity self.new.stages) }
        ensures for_cause { OnOk result (length self.new.stages.items < vec_capacity self.new.ends) }
    {
        self.ends.reserve(self.stages.len() + 1)?;
        self.stages.reserve(1)?;
        self.make_room()
    }

    /// Adds the next connection, which is opened.
    fn add(&mut self, c: u32)
        requires fits { length self.old.table.slots < most_connections }
        requires next { length self.old.stages.items ≡ c }
        requires vacant { slot_in c self.old.table.slots ≡ None }
        requires for_mark { length self.old.tape.items < self.old.tape.capacity }
        requires for_stand { length self.old.stages.items < vec_capacity self.old.stages }
        ensures table { self.new.table ≡ record self.old.table { slots = with_added (fresh_slot c) self.old.table.slots } }
        ensures tape { self.new.tape.items ≡ self.old.tape.items ++ Opened c ∷ [] }
        ensures capacity { self.new.tape.capacity ≡ self.old.tape.capacity }
        ensures stages { self.new.stages.items ≡ self.old.stages.items ++ Lean ∷ [] }
        ensures feeds { self.new.feeds ≡ self.old.feeds }
        ensures ends { self.new.ends ≡ self.old.ends }
    {
        self.tape.push(MarkAt::Opened(c));
        self.stages.push_reserved(CellStage::Lean);
        self.table.add(c);
    }

    /// Hands out the payload that is whole, and the number of its frame.
    pub fn give(&mut self, c: u32) -> (u64, Vec<u8>)
        requires under_way { IsLoopUnderWay self.old }
        requires whole { slice_get self.old.stages.items c ≡ Some Whole }
        ensures handed { GivesOut c result.0 result.1.items self.old self.new }
        ensures feeds { length self.new.feeds.items ≡ length self.old.feeds.items }
        ensures room { HasRoomToClose self.new }
    {
        self.stages[c as usize] = CellStage::Asked;
        self.table.give(c)
    }

    /// One move of a connection of which no size is admitted: a write, an admission, or a read.
    pub fn lean_move(&mut self, alloc: Global, c: u32, max_frame: u32) -> Result<bool, AllocError>
        requires under_way { IsLoopUnderWay self.old }
        requires lean { slice_get self.old.stages.items c ≡ Some Lean }
        requires small { max_frame ≤ longest_payload }
        ensures moved { IfOk result (λ moved. LoopMoves (HasLongest max_frame) (λ s. one_of_conn s c) self.old moved self.new) }
        ensures err { OnErr result (StaysTied self.old self.new) }
        ensures feeds { length self.new.feeds.items ≡ length self.old.feeds.items }
        ensures room { HasRoomToClose self.new }
    {
        if !self.table.conn(c).pending().is_empty() {
            self.write(c)?;
            return Ok(true);
        }
        if self.table.conn(c).asks().is_some() {
            return Ok(self.admit(alloc, c));
        }
        self.read(c, max_frame)
    }

    /// Takes the outcome of the payload that was submitted.
    pub fn settle(&mut self, c: u32, settled: Settled)
        requires under_way { IsLoopUnderWay self.old }
        requires asked { slice_get self.old.stages.items c ≡ Some Asked }
        requires some { IsReplySome settled }
        ensures taken { (i : ℕ) → TakesOutcome (key_of c i) settled self.old self.new }
        ensures feeds { length self.new.feeds.items ≡ length self.old.feeds.items }
        ensures room { HasRoomToClose self.new }
    {
        self.table.answered(c, settled);
        self.table.release(c);
        if self.table.conn(c).cause().is_some() {
            self.close(c);
            return;
        }
        self.stages[c as usize] = CellStage::Lean;
    }

    /// Ends each connection that is open, since the host stops.
    pub fn stop_all(&mut self)
        requires under_way { IsLoopUnderWay self.old }
        ensures stopped { StopsAll self.old self.new }
        ensures room { HasRoomToClose self.new }
    {
        for c in 0..self.stages.len() {
            self.stop(c as u32);
        }
    }

    /// Tells by what each connection ended.
    pub fn tell_ends(&mut self)
        requires none_yet { self.old.ends.items ≡ [] }
        requires room { length self.old.stages.items ≤ vec_capacity self.old.ends }
        ensures ends { (causes : List EndCause) → AreAllOver self.old causes → self.new.ends.items ≡ causes }
        ensures tape { self.new.tape.items ≡ self.old.tape.items }
        ensures stages { self.new.stages ≡ self.old.stages }
    {
        for c in 0..self.stages.len() {
            self.tell_end(c);
        }
    }

    /// Tells by what a connection has ended, where it has.
    fn tell_end(&mut self, c: usize)
        requires known { c < length self.old.stages.items }
        requires room { length self.old.ends.items < vec_capacity self.old.ends }
        ensures ends { self.new.ends.items ≡ self.old.ends.items ++ end_told (slice_index_or self.old.stages.items c Lean) }
        ensures capacity { vec_capacity self.new.ends ≡ vec_capacity self.old.ends }
        ensures tape { self.new.tape ≡ self.old.tape }
        ensures stages { self.new.stages ≡ self.old.stages }
    {
        match self.stages[c] {
            CellStage::Over(cause) => self.ends.push_reserved(cause),
            _ => {}
        }
    }

    /// Ends a connection that is open, since the host stops.
    fn stop(&mut self, c: u32)
        requires under_way { IsLoopUnderWay self.old }
        requires opened { c < length self.old.stages.items }
        ensures stopped { StopsOne c self.old self.new }
        ensures room { HasRoomToClose self.new }
    {
        if let CellStage::Over(_) = self.stages[c as usize] {
            return;
        }
        self.end(c, EndCause::Stopped);
    }
}

/// A feed for each of these lists of rules, to which nothing has come.
fn fresh_feeds<'a>(alloc: Global, rules: &'a [RuleList]) -> Result<Vec<Feed<'a>>, AllocError>
    ensures { IfOk result (λ feeds. AreFreshFeeds (map plain_rules rules.now) feeds.items) }
{
    let mut feeds = Vec::with_capacity(alloc, rules.len())?;
    for list in rules {
        feeds.push(Feed::new(alloc, list.as_slice()))?;
    }
    Ok(feeds)
}

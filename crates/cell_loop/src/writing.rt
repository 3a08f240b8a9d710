//! How a connection writes: by the next rule, or all that is left.

ghost use Rattle.std.specs.Prelude.{◌≡◌, ◌<◌, min, true, Some, None, IsSome, length, drop, slice_get, OnOk, OnErr};
ghost use Rattle.std.specs.List.{AllByRecursion};
ghost use Rattle.host_model.specs.declared.cause.EndCause.TheVariants.{WriteFault};
ghost use Rattle.streams.specs.declared.marks.Mark.TheVariants.{WriteFailed};
ghost use Rattle.conn_state.specs.Phase.{left_to_write, HasNotEnded};
ghost use Rattle.conn_table.specs.Slots.{slot_in};
ghost use Rattle.conn_table.specs.Table.{slot_of};
ghost use Rattle.cell_loop.specs.declared.loop_part.CellStage.TheVariants.{Lean};
ghost use Rattle.cell_loop.specs.Moving.{one_of_conn};
ghost use Rattle.cell_loop.specs.Feeds.{unread_in, finish_in, rules_in, HasSomePieces, HasFeed};
ghost use Rattle.cell_loop.specs.LoopTied.{HasRoomToClose};
ghost use Rattle.cell_loop.specs.Closing.{ClosesBehind, HasMoreRoom, Writes};
ghost use Rattle.cell_loop.specs.LoopMoves.{IsLoopUnderWay, StaysTied, LoopMoves, AnySetting};

use crate::loop_part::LoopPart;
use conn_state::EndCause;
use script_text::WriteRule;
use std::alloc::AllocError;
use streams::MarkAt;

impl<'a> LoopPart<'a> {
    /// One write of a reply that is left, by the next rule.
    pub fn write(&mut self, c: u32) -> Result<(), AllocError>
        requires under_way { IsLoopUnderWay self.old }
        requires lean { slice_get self.old.stages.items c ≡ Some Lean }
        requires left { 0 < length (left_to_write (slot_of c self.old.table.slots).conn.phase) }
        requires fed { c < length self.old.feeds.items }
        ensures moved { OnOk result (LoopMoves AnySetting (λ s. one_of_conn s c) self.old true self.new) }
        ensures err { OnErr result (StaysTied self.old self.new) }
        ensures feeds { length self.new.feeds.items ≡ length self.old.feeds.items }
        ensures room { HasRoomToClose self.new }
    {
        match self.feeds[c as usize].next_rule() {
            None => {
                let left = self.table.conn(c).pending().len();
                self.write_most(c, left)
            }
            Some(WriteRule::Takes(most)) => {
                self.write_most(c, most as usize)?;
                self.pass_rule(c);
                Ok(())
            }
            Some(WriteRule::Block) => {
                self.pass_rule(c);
                Ok(())
            }
            Some(WriteRule::Fails) => {
                self.fail_write(c);
                self.pass_rule(c);
                Ok(())
            }
        }
    }

    /// Writes so many bytes at most.
    fn write_most(&mut self, c: u32, most: usize) -> Result<(), AllocError>
        requires there { IsSome (slot_in c self.old.table.slots) }
        requires left { 0 < length (left_to_write (slot_of c self.old.table.slots).conn.phase) }
        requires some { 0 < most }
        requires room { HasRoomToClose self.old }
        ensures wrote { OnOk result (Writes c (min most (length (left_to_write (slot_of c self.old.table.slots).conn.phase))) self.old self.new) }
        ensures err { OnErr result (HasMoreRoom self.old self.new) }
        ensures room { HasRoomToClose self.new }
    {
        self.make_room()?;
        let left = self.table.conn(c).pending();
        let count = most.min(left.len());
        let bytes = left.split_at(count).0;
        self.tape.reserve_bytes(count)?;
        self.tape.push(MarkAt::Wrote(c, bytes));
        self.table.wrote(c, count);
        Ok(())
    }

    /// A write fails, which ends the connection.
    fn fail_write(&mut self, c: u32)
        requires there { IsSome (slot_in c self.old.table.slots) }
        requires going { HasNotEnded (slot_of c self.old.table.slots).conn.phase }
        requires lean { slice_get self.old.stages.items c ≡ Some Lean }
        requires none { (slot_of c self.old.table.slots).size ≡ None }
        requires room { HasRoomToClose self.old }
        ensures closed { ClosesBehind c (WriteFailed c) WriteFault self.old self.new }
        ensures room { HasRoomToClose self.new }
    {
        self.tape.push(MarkAt::WriteFailed(c));
        self.end(c, EndCause::WriteFault);
    }

    /// The next rule of a connection is used up, where one is left.
    fn pass_rule(&mut self, c: u32)
        requires fed { c < length self.old.feeds.items }
        requires pieces { AllByRecursion HasSomePieces self.old.feeds.items }
        ensures fed { HasFeed c (unread_in self.old.feeds.items c) (finish_in self.old.feeds.items c) (drop 1 (rules_in self.old.feeds.items c)) self.old.feeds.items self.new.feeds.items }
        ensures table { self.new.table ≡ self.old.table }
        ensures tape { self.new.tape ≡ self.old.tape }
        ensures stages { self.new.stages ≡ self.old.stages }
        ensures ends { self.new.ends ≡ self.old.ends }
    {
        self.feeds[c as usize].pass_rule();
    }
}

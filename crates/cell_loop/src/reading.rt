//! How a connection reads on: a read, what comes after all pieces, and an admission.

ghost use Rattle.std.specs.Prelude.{◌≡◌, ◌+◌, ◌*◌, ◌<◌, ◌≤◌, ◌^◌, IsTrue, IsSome, true, false, Some, [], length, min, take, drop, slice_get, IfOk, OnOk, OnErr};
ghost use Rattle.std.specs.List.{AllByRecursion};
ghost use Rattle.std.specs.Vec.{vec_capacity};
ghost use Rattle.conn_state.specs.Phase.{wanted, IsHeld};
ghost use Rattle.conn_table.specs.Slots.{slot_in};
ghost use Rattle.conn_table.specs.Table.{slot_of};
ghost use Rattle.script_model.specs.Playing.{pieces_left};
ghost use Rattle.cell_loop.specs.declared.loop_part.CellStage.TheVariants.{Lean};
ghost use Rattle.cell_loop.specs.Moving.{one_of_conn};
ghost use Rattle.cell_loop.specs.Feeds.{unread_in, finish_in, rules_in, front_in, later_in, HasSomePieces, HasFeed};
ghost use Rattle.cell_loop.specs.LoopTied.{HasRoomToClose, IsReadingAt};
ghost use Rattle.cell_loop.specs.LoopMoves.{IsLoopUnderWay, StaysTied, LoopMoves, AnySetting, HasLongest};
ghost use Rattle.call_rules.specs.Desks.{longest_payload};

use crate::feed::InputEnd;
use crate::loop_part::{CellStage, LoopPart};
use conn_state::EndCause;
use std::alloc::{AllocError, Global};
use streams::MarkAt;

/// So many frames are counted at most.
const MOST_FRAMES: u64 = 1 << 62;

impl<'a> LoopPart<'a> {
    /// One read of the oldest piece, or of what comes after all pieces, where something does.
    pub fn read(&mut self, c: u32, max_frame: u32) -> Result<bool, AllocError>
        requires under_way { IsLoopUnderWay self.old }
        requires reads { IsReadingAt c self.old }
        requires fed { c < length self.old.feeds.items }
        requires small { max_frame ≤ longest_payload }
        ensures moved { IfOk result (λ moved. LoopMoves (HasLongest max_frame) (λ s. one_of_conn s c) self.old moved self.new) }
        ensures err { OnErr result (StaysTied self.old self.new) }
        ensures feeds { length self.new.feeds.items ≡ length self.old.feeds.items }
        ensures room { HasRoomToClose self.new }
    {
        if self.begin_piece(c) {
            self.read_piece(c, max_frame)?;
            return Ok(true);
        }
        Ok(self.read_behind(c))
    }

    /// Begins the oldest piece, where none is under way; tells whether a byte is left of it.
    fn begin_piece(&mut self, c: u32) -> bool
        requires fed { c < length self.old.feeds.items }
        requires pieces { AllByRecursion HasSomePieces self.old.feeds.items }
        ensures some { IsTrue result → 0 < length (front_in self.new.feeds.items c) }
        ensures none { result ≡ false → unread_in self.new.feeds.items c ≡ [] }
        ensures fed { HasFeed c (unread_in self.old.feeds.items c) (finish_in self.old.feeds.items c) (rules_in self.old.feeds.items c)
            self.old.feeds.items self.new.feeds.items }
        ensures table { self.new.table ≡ self.old.table }
        ensures tape { self.new.tape ≡ self.old.tape }
        ensures stages { self.new.stages ≡ self.old.stages }
        ensures ends { self.new.ends ≡ self.old.ends }
    {
        !self.feeds[c as usize].oldest().is_empty()
    }

    /// Reads what is asked for of the piece under way, as far as it goes.
    fn read_piece(&mut self, c: u32, max_frame: u32) -> Result<(), AllocError>
        requires under_way { IsLoopUnderWay self.old }
        requires reads { IsReadingAt c self.old }
        requires some { 0 < length (front_in self.old.feeds.items c) }
        requires small { max_frame ≤ longest_payload }
        ensures moved { OnOk result (LoopMoves (HasLongest max_frame) (λ s. one_of_conn s c) self.old true self.new) }
        ensures err { OnErr result (StaysTied self.old self.new) }
        ensures feeds { length self.new.feeds.items ≡ length self.old.feeds.items }
        ensures room { HasRoomToClose self.new }
    {
        if self.table.conn(c).frames() >= MOST_FRAMES {
            return Err(AllocError);
        }
        self.make_room()?;
        let bytes = self.next_bytes(c);
        self.tape.reserve_bytes(bytes.len())?;
        self.take_in(c, bytes, max_frame);
        Ok(())
    }

    /// The bytes that are read next.
    fn next_bytes(&self, c: u32) -> &'a [u8]
        requires there { IsSome (slot_in c self.now.table.slots) }
        requires fed { c < length self.now.feeds.items }
        ensures { result.now ≡ take (min (wanted (slot_of c self.now.table.slots).conn.phase) (length (front_in self.now.feeds.items c)))
            (front_in self.now.feeds.items c) }
    {
        let front = self.feeds[c as usize].front;
        let count = self.table.conn(c).want().min(front.len());
        front.split_at(count).0
    }

    /// Takes in the bytes that are read.
    fn take_in(&mut self, c: u32, bytes: &[u8], max_frame: u32)
        requires under_way { IsLoopUnderWay self.old }
        requires reads { IsReadingAt c self.old }
        requires some { 0 < length (front_in self.old.feeds.items c) }
        requires small { max_frame ≤ longest_payload }
        requires front { bytes.now ≡ take (min (wanted (slot_of c self.old.table.slots).conn.phase) (length (front_in self.old.feeds.items c)))
            (front_in self.old.feeds.items c) }
        requires counted { (slot_of c self.old.table.slots).conn.frames < 2 ^ 62 }
        requires room { length self.old.tape.items + 1 + 2 * length self.old.table.slots ≤ self.old.tape.capacity }
        requires spare { length bytes.now ≤ self.old.tape.spare }
        ensures moved { LoopMoves (HasLongest max_frame) (λ s. one_of_conn s c) self.old true self.new }
        ensures feeds { length self.new.feeds.items ≡ length self.old.feeds.items }
        ensures room { HasRoomToClose self.new }
    {
        let frames = self.table.conn(c).frames();
        self.table.took(c, bytes, max_frame);
        self.pass_front(c, bytes.len());
        self.tape.push(MarkAt::Read(c, bytes));
        if self.table.conn(c).cause().is_some() {
            self.close(c);
            return;
        }
        if self.table.conn(c).frames() > frames {
            self.stages[c as usize] = CellStage::Whole;
            return;
        }
    }

    /// So many bytes of the piece under way are read.
    fn pass_front(&mut self, c: u32, count: usize)
        requires fed { c < length self.old.feeds.items }
        requires within { count ≤ length (front_in self.old.feeds.items c) }
        requires pieces { AllByRecursion HasSomePieces self.old.feeds.items }
        ensures fed { HasFeed c (pieces_left (drop count (front_in self.old.feeds.items c)) (later_in self.old.feeds.items c)) (finish_in self.old.feeds.items c)
            (rules_in self.old.feeds.items c) self.old.feeds.items self.new.feeds.items }
        ensures table { self.new.table ≡ self.old.table }
        ensures tape { self.new.tape ≡ self.old.tape }
        ensures stages { self.new.stages ≡ self.old.stages }
        ensures ends { self.new.ends ≡ self.old.ends }
    {
        self.feeds[c as usize].read(count);
    }

    /// The end of the input, or a read that fails, where it is known which.
    fn read_behind(&mut self, c: u32) -> bool
        requires under_way { IsLoopUnderWay self.old }
        requires reads { IsReadingAt c self.old }
        requires fed { c < length self.old.feeds.items }
        requires none { unread_in self.old.feeds.items c ≡ [] }
        ensures moved { LoopMoves AnySetting (λ s. one_of_conn s c) self.old result self.new }
        ensures feeds { length self.new.feeds.items ≡ length self.old.feeds.items }
        ensures room { HasRoomToClose self.new }
    {
        match self.feeds[c as usize].finish {
            None => false,
            Some(InputEnd::Ends) => {
                self.table.end_of_input(c);
                self.tape.push(MarkAt::Ended(c));
                self.release_and_close(c);
                true
            }
            Some(InputEnd::Fails) => {
                self.tape.push(MarkAt::ReadFailed(c));
                self.end(c, EndCause::ReadFault);
                true
            }
        }
    }

    /// Admits the frame that waits, where the budget has room; without memory for it the connection ends.
    pub fn admit(&mut self, alloc: Global, c: u32) -> bool
        requires under_way { IsLoopUnderWay self.old }
        requires lean { slice_get self.old.stages.items c ≡ Some Lean }
        requires held { IsHeld (slot_of c self.old.table.slots).conn.phase }
        ensures moved { LoopMoves AnySetting (λ s. one_of_conn s c) self.old result self.new }
        ensures feeds { length self.new.feeds.items ≡ length self.old.feeds.items }
        ensures room { HasRoomToClose self.new }
    {
        // The numbers in the table rise, so its sizes are those of the connections.
        let _ = self.table.full();
        match self.table.admit(alloc, c) {
            Ok(true) => {
                self.stages[c as usize] = CellStage::Framed;
                true
            }
            Ok(false) => false,
            Err(_) => {
                self.end(c, EndCause::NoMemory);
                true
            }
        }
    }
}

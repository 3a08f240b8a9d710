//! How a connection is read.

ghost use Rattle.std.specs.Prelude.{◌≡◌, ◌<◌, ◌≤◌, ◌^◌, true, IsSome, length, slice_index_or};
ghost use Rattle.conn_state.specs.Phase.{wanted, IsReading};
ghost use Rattle.conn_table.specs.Slots.{slot_in};
ghost use Rattle.conn_table.specs.Table.{slot_of, HasItsSize};
ghost use Rattle.loop_conns.specs.declared.connections.ConnStage.TheVariants.{Gone};
ghost use Rattle.loop_conns.specs.Ended.{IsNumbered, HasSizeBy};
ghost use Rattle.loop_conns.specs.Going.{SomeLoopIsRunning, KeepsGoing, ReadsAt, ReadTells, TakesIn};
ghost use Rattle.call_rules.specs.Desks.{longest_payload};

use crate::connections::LoopConnections;
use conn_state::EndCause;
use outside::{Links, Taken};

/// So many frames are counted at most.
const MOST_FRAMES: u64 = 1 << 62;

/// What a read came to.
#[derive(Clone, Copy)]
pub enum ReadStep {
    /// More may be read at once.
    More,
    /// A size is whole, and its frame waits to be admitted.
    Sized,
    /// A payload is whole.
    Whole,
    /// Nothing has arrived.
    Blocked,
    /// The connection has ended.
    Over,
}

impl LoopConnections {
    /// Reads once, into as many bytes as the connection wants.
    pub fn read<L: Links>(
        &mut self,
        links: &mut L,
        c: u32,
        into: &mut [u8],
        max_frame: u32,
    ) -> ReadStep
        requires under_way { SomeLoopIsRunning max_frame (L.state links.old) self.old }
        requires reads { ReadsAt c self.old }
        requires lent { length into.old ≡ wanted (slot_of c self.old.table.slots).conn.phase }
        requires small { max_frame ≤ longest_payload }
        ensures going { KeepsGoing max_frame (L.state links.old) self.old (L.state links.new) self.new }
        ensures step { ReadTells c self.new result }
        ensures budget { self.new.table.budget ≡ self.old.table.budget }
        ensures plan { L.plan links.new ≡ L.plan links.old }
    {
        let frames = self.table.conn(c).frames();
        if frames >= MOST_FRAMES {
            self.end(links, c, EndCause::NoMemory);
            return ReadStep::Over;
        }
        match links.read(c, into) {
            Taken::Bytes(count) => self.take_in(links, c, &into[..count], max_frame, frames),
            Taken::End => {
                self.table.end_of_input(c);
                self.release_and_close(links, c);
                ReadStep::Over
            }
            Taken::NotYet => ReadStep::Blocked,
            Taken::Failed => {
                self.end(links, c, EndCause::ReadFault);
                ReadStep::Over
            }
            Taken::NoMemory => {
                self.end(links, c, EndCause::NoMemory);
                ReadStep::Over
            }
        }
    }

    /// Takes in bytes that were read, where so many frames were whole before.
    fn take_in<L: Links>(
        &mut self,
        links: &mut L,
        c: u32,
        bytes: &[u8],
        max_frame: u32,
        frames: u64,
    ) -> ReadStep
        requires there { IsSome (slot_in c self.old.table.slots) }
        requires reading { IsReading (slot_of c self.old.table.slots).conn.phase }
        requires some { 0 < length bytes.now }
        requires asked { length bytes.now ≤ wanted (slot_of c self.old.table.slots).conn.phase }
        requires counted { (slot_of c self.old.table.slots).conn.frames < 2 ^ 62 }
        requires before { frames ≡ (slot_of c self.old.table.slots).conn.frames }
        requires admitted { HasItsSize (slot_of c self.old.table.slots).conn.phase (slot_of c self.old.table.slots).size }
        requires size { HasSizeBy (slice_index_or self.old.stages.items c Gone) (slot_of c self.old.table.slots).size }
        requires known { IsNumbered c self.old }
        requires link { (L.state links.old).is_open c ≡ true }
        requires small { max_frame ≤ longest_payload }
        requires few { self.old.owing ≤ 2 ^ 32 }
        ensures going { TakesIn max_frame c bytes.now self.old (L.state links.old) (L.state links.new) self.new }
        ensures step { ReadsAt c self.old → ReadTells c self.new result }
        ensures budget { self.new.table.budget ≡ self.old.table.budget }
        ensures plan { L.plan links.new ≡ L.plan links.old }
    {
        self.table.took(c, bytes, max_frame);
        let conn = self.table.conn(c);
        if conn.cause().is_some() {
            self.release_and_close(links, c);
            return ReadStep::Over;
        }
        if conn.frames() > frames {
            self.owing += 1;
            return ReadStep::Whole;
        }
        if conn.asks().is_some() {
            return ReadStep::Sized;
        }
        ReadStep::More
    }
}

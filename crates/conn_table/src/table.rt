//! The table: open connections by number, and the sizes that are admitted.

ghost use Rattle.std.specs.Prelude.{◌≡◌, ◌↔◌, ◌<◌, ◌≤◌, ◌+◌, ◌^◌, IsTrue, IsSome, Some, None, IfOk, [], length, drop};
ghost use Rattle.conn_state.specs.Phase.{wanted, waiting, ready, ended, left_to_write, cause_of, IsHeld, IsReading, IsReady, IsWaiting, HasNotEnded};
ghost use Rattle.conn_state.specs.Run.{EachIsByte};
ghost use Rattle.conn_state.specs.Step.{after_took, after_answer, after_wrote, after_end_of_input, IsFromOutside};
ghost use Rattle.conn_table.specs.Slots.{most_connections, slot_in, with_added, without_number, HaveRisingNumbers};
ghost use Rattle.conn_table.specs.Table.{fresh_slot, slot_of, with_state, with_size, sizes_given, TakesRoom, HasItsSize, Admits};

use crate::places::{Places, Slot};
use conn_state::{Conn, EndCause};
use limits::MOST_CONNECTIONS;
use std::alloc::{AllocError, Global};
use std::marker::Model;
use streams::Settled;

/// The open connections, at most 1,024, and the sizes of their frames that are admitted, within one budget.
pub struct Table {
    /// The connections.
    places: Places,
    /// The most that the admitted sizes add up to.
    read_budget: u64,
    /// What they add up to.
    admitted: u64,
}

impl Model for Table {
    ghost use Rattle.conn_table.specs.Table.{TableView, IsSoundTable};

    ghost Value = { TableView };

    ghost view = { λ t. record { budget = t.read_budget; slots = t.places } };

    ghost invariant = { λ t. IsSoundTable t.places t.read_budget t.admitted };
}

// Written out, so that crates above needn't prove it again.
impl Drop for Table {
    fn drop(self) {
        let Table {
            places,
            read_budget: _,
            admitted: _,
        } = self;
        drop(places);
    }
}

impl Table {
    /// Holds no connection, and has room for 1,024 and this budget.
    pub fn new(alloc: Global, read_budget: u64) -> Result<Table, AllocError>
        ensures { IfOk result (λ t. t ≡ record { budget = read_budget; slots = [] }) }
    {
        Ok(Table {
            places: Places::new(alloc)?,
            read_budget,
            admitted: 0,
        })
    }

    /// Adds a connection that is opened.
    pub fn add(&mut self, c: u32)
        requires room { length self.old.slots < most_connections }
        requires closed { slot_in c self.old.slots ≡ None }
        ensures { self.new ≡ record self.old { slots = with_added (fresh_slot c) self.old.slots } }
    {
        self.places.insert(Slot {
            number: c,
            conn: Conn::new(),
            size: None,
        });
    }

    /// Whether as many are open as may be. Their numbers rise.
    pub fn full(&self) -> bool
        ensures full { IsTrue result ↔ (length self.now.slots ≡ most_connections) }
        ensures few { length self.now.slots ≤ most_connections }
        ensures rising { HaveRisingNumbers self.now.slots }
    {
        self.places.len() == MOST_CONNECTIONS
    }

    /// The state of a connection. The admitted sizes are within the budget, and so is the size of each payload that takes room.
    pub fn conn(&self, c: u32) -> &Conn
        requires { IsSome (slot_in c self.now.slots) }
        ensures state { result.now ≡ (slot_of c self.now.slots).conn }
        ensures within { sizes_given self.now.slots ≤ self.now.budget }
        ensures admitted { HasItsSize (slot_of c self.now.slots).conn.phase (slot_of c self.now.slots).size }
    {
        &self.places.get(c).conn
    }

    /// Takes bytes that were read.
    pub fn took(&mut self, c: u32, bytes: &[u8], max_frame: u32)
        requires open { IsSome (slot_in c self.old.slots) }
        requires some { 0 < length bytes.now }
        requires asked { length bytes.now ≤ wanted (slot_of c self.old.slots).conn.phase }
        requires counted { (slot_of c self.old.slots).conn.frames < 2 ^ 62 }
        ensures after { self.new ≡ record self.old { slots = with_state c (after_took max_frame (slot_of c self.old.slots).conn bytes.now) self.old.slots } }
        ensures bytes { EachIsByte bytes.now }
        ensures whole { (slot_of c self.old.slots).conn.frames < (slot_of c self.new.slots).conn.frames ↔ IsReady (slot_of c self.new.slots).conn.phase }
    {
        self.places.conn_mut(c).took(bytes, max_frame);
    }

    /// Hands out the whole payload and the number of its frame.
    pub fn give(&mut self, c: u32) -> (u64, Vec<u8>)
        requires open { IsSome (slot_in c self.old.slots) }
        requires whole { IsReady (slot_of c self.old.slots).conn.phase }
        ensures given { (slot_of c self.old.slots).conn.phase ≡ ready result.0 result.1.items }
        ensures after { self.new ≡ record self.old { slots = with_state c (record (slot_of c self.old.slots).conn { phase = waiting result.0 }) self.old.slots } }
    {
        self.places.conn_mut(c).give()
    }

    /// Takes the outcome of the frame that was handed out.
    pub fn answered(&mut self, c: u32, settled: Settled)
        requires open { IsSome (slot_in c self.old.slots) }
        requires awaited { IsWaiting (slot_of c self.old.slots).conn.phase }
        ensures { self.new ≡ record self.old { slots = with_state c (record (slot_of c self.old.slots).conn { phase = after_answer settled }) self.old.slots } }
    {
        self.places.conn_mut(c).answered(settled);
    }

    /// Takes note that `count` bytes of the reply were written.
    pub fn wrote(&mut self, c: u32, count: usize)
        requires open { IsSome (slot_in c self.old.slots) }
        requires some { 0 < count }
        requires pending { count ≤ length (left_to_write (slot_of c self.old.slots).conn.phase) }
        ensures { self.new ≡ record self.old { slots = with_state c (record (slot_of c self.old.slots).conn { phase = after_wrote (drop count (left_to_write (slot_of c self.old.slots).conn.phase)) }) self.old.slots } }
    {
        self.places.conn_mut(c).wrote(count);
    }

    /// Takes note that the input ended.
    pub fn end_of_input(&mut self, c: u32)
        requires open { IsSome (slot_in c self.old.slots) }
        requires reading { IsReading (slot_of c self.old.slots).conn.phase }
        ensures { self.new ≡ record self.old { slots = with_state c (record (slot_of c self.old.slots).conn { phase = after_end_of_input (slot_of c self.old.slots).conn.phase }) self.old.slots } }
    {
        self.places.conn_mut(c).end_of_input();
    }

    /// Ends a connection for a cause that its bytes don't show.
    pub fn end(&mut self, c: u32, cause: EndCause)
        requires open { IsSome (slot_in c self.old.slots) }
        requires going { HasNotEnded (slot_of c self.old.slots).conn.phase }
        requires outside { IsFromOutside cause }
        ensures { self.new ≡ record self.old { slots = with_state c (record (slot_of c self.old.slots).conn { phase = ended cause }) self.old.slots } }
    {
        self.places.conn_mut(c).end(cause);
    }

    /// Gives back the size of a connection whose payload takes no room any more.
    pub fn release(&mut self, c: u32)
        requires open { IsSome (slot_in c self.old.slots) }
        requires admitted { IsSome (slot_of c self.old.slots).size }
        requires idle { TakesRoom (slot_of c self.old.slots).conn.phase → ⊥ }
        ensures { self.new ≡ record self.old { slots = with_size c None self.old.slots } }
    {
        let size = self.places.release(c);
        self.admitted -= size as u64;
    }

    /// Takes a connection out that has ended, and tells its cause.
    pub fn remove(&mut self, c: u32) -> EndCause
        requires open { IsSome (slot_in c self.old.slots) }
        requires over { IsSome (cause_of (slot_of c self.old.slots).conn.phase) }
        requires given_back { (slot_of c self.old.slots).size ≡ None }
        ensures cause { cause_of (slot_of c self.old.slots).conn.phase ≡ Some result }
        ensures after { self.new ≡ record self.old { slots = without_number c self.old.slots } }
        ensures gone { slot_in c self.new.slots ≡ None }
    {
        let slot = self.places.remove(c);
        slot.conn.cause().unwrap()
    }

    /// Admits the frame that waits, where the budget has room for its size, and takes memory for it.
    pub fn admit(&mut self, alloc: Global, c: u32) -> Result<bool, AllocError>
        requires open { IsSome (slot_in c self.old.slots) }
        requires held { IsHeld (slot_of c self.old.slots).conn.phase }
        requires unadmitted { (slot_of c self.old.slots).size ≡ None }
        ensures { Admits c self.old result self.new }
    {
        let room = self.read_budget - self.admitted;
        let Some(size) = self.places.admit(alloc, c, room)? else {
            return Ok(false);
        };
        self.admitted += size as u64;
        Ok(true)
    }
}

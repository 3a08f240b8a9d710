//! How a connection ends.

ghost use Rattle.std.specs.Prelude.{◌≡◌, ◌<◌, true, None, Some, IsSome, length, slice_index_or, slice_set};
ghost use Rattle.host_model.specs.declared.cause.EndCause.{EndCause};
ghost use Rattle.outside.specs.Closing.{Closes};
ghost use Rattle.conn_state.specs.Phase.{cause_of, HasNotEnded};
ghost use Rattle.conn_state.specs.Step.{IsFromOutside};
ghost use Rattle.conn_table.specs.Slots.{slot_in, without_number};
ghost use Rattle.conn_table.specs.Table.{slot_of};
ghost use Rattle.loop_conns.specs.declared.connections.ConnStage.TheVariants.{Gone};
ghost use Rattle.loop_conns.specs.Ended.{IsNumbered, HasSizeBy, EndsConnection};

use crate::connections::{ConnStage, LoopConnections};
use conn_state::EndCause;
use outside::Links;

impl LoopConnections {
    /// Takes a connection out that has ended, whose size was given back, and closes its link.
    pub(crate) fn close<L: Links>(&mut self, links: &mut L, c: u32)
        requires there { IsSome (slot_in c self.old.table.slots) }
        requires over { IsSome (cause_of (slot_of c self.old.table.slots).conn.phase) }
        requires given_back { (slot_of c self.old.table.slots).size ≡ None }
        requires known { IsNumbered c self.old }
        requires link { (L.state links.old).is_open c ≡ true }
        ensures ended { (cause : EndCause) → cause_of (slot_of c self.old.table.slots).conn.phase ≡ Some cause → EndsConnection c cause self.old self.new }
        ensures owing { self.new.owing ≡ self.old.owing }
        ensures closed { Closes c (L.state links.old) (L.state links.new) }
        ensures budget { self.new.table.budget ≡ self.old.table.budget }
        ensures plan { L.plan links.new ≡ L.plan links.old }
    {
        let cause = self.table.remove(c);
        self.stages[c as usize] = ConnStage::Gone;
        self.causes[c as usize] = cause;
        links.close(c);
    }

    /// Gives the size back of a connection that has ended, where one is admitted, and takes it out.
    pub(crate) fn release_and_close<L: Links>(&mut self, links: &mut L, c: u32)
        requires there { IsSome (slot_in c self.old.table.slots) }
        requires over { IsSome (cause_of (slot_of c self.old.table.slots).conn.phase) }
        requires size { HasSizeBy (slice_index_or self.old.stages.items c Gone) (slot_of c self.old.table.slots).size }
        requires known { IsNumbered c self.old }
        requires link { (L.state links.old).is_open c ≡ true }
        ensures ended { (cause : EndCause) → cause_of (slot_of c self.old.table.slots).conn.phase ≡ Some cause → EndsConnection c cause self.old self.new }
        ensures owing { self.new.owing ≡ self.old.owing }
        ensures closed { Closes c (L.state links.old) (L.state links.new) }
        ensures budget { self.new.table.budget ≡ self.old.table.budget }
        ensures plan { L.plan links.new ≡ L.plan links.old }
    {
        if let ConnStage::Lean = self.stages[c as usize] {
            self.close(links, c);
            return;
        }
        self.table.release(c);
        self.close(links, c);
    }

    /// Ends a connection for a cause that its bytes don't show, and takes it out.
    pub(crate) fn end<L: Links>(&mut self, links: &mut L, c: u32, cause: EndCause)
        requires there { IsSome (slot_in c self.old.table.slots) }
        requires going { HasNotEnded (slot_of c self.old.table.slots).conn.phase }
        requires outside { IsFromOutside cause }
        requires size { HasSizeBy (slice_index_or self.old.stages.items c Gone) (slot_of c self.old.table.slots).size }
        requires known { IsNumbered c self.old }
        requires link { (L.state links.old).is_open c ≡ true }
        ensures ended { EndsConnection c cause self.old self.new }
        ensures owing { self.new.owing ≡ self.old.owing }
        ensures closed { Closes c (L.state links.old) (L.state links.new) }
        ensures budget { self.new.table.budget ≡ self.old.table.budget }
        ensures plan { L.plan links.new ≡ L.plan links.old }
    {
        self.table.end(c, cause);
        self.release_and_close(links, c);
    }
}

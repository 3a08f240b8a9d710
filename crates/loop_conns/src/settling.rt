//! How a payload is handed out, and its outcome taken.

ghost use Rattle.std.specs.Prelude.{◌≡◌, ◌≤◌, ℕ};
ghost use Rattle.outside.specs.LinksState.{LinksState};
ghost use Rattle.conn_state.specs.Phase.{IsReady};
ghost use Rattle.conn_table.specs.Table.{slot_of};
ghost use Rattle.machine_model.specs.HallState.{key_of};
ghost use Rattle.loop_conns.specs.Going.{longest_payload, AnyLoopIsRunning, IsOpenAt, AllHandOut, IsCollected, GoesOnSettled, some_reply};

use crate::connections::{ConnStage, LoopConnections};
use host_model::Key;
use outside::Links;
use streams::Settled;

/// What was settled, where a reply with no bytes is none.
fn with_some_reply(settled: Settled) -> Settled
    ensures { result ≡ some_reply settled }
{
    match settled {
        Settled::Reply(reply) => {
            if reply.as_slice().is_empty() {
                return Settled::Nothing;
            }
            Settled::Reply(reply)
        }
        Settled::Nothing => Settled::Nothing,
        Settled::Close(fault) => Settled::Close(fault),
        Settled::NoMemory => Settled::NoMemory,
    }
}

impl LoopConnections {
    /// Hands out the payload that is whole, and the number of its frame.
    pub fn give(&mut self, c: u32) -> (u64, Vec<u8>)
        requires under_way { (links : LinksState) × AnyLoopIsRunning links self.old }
        requires open { IsOpenAt c self.old }
        requires whole { IsReady (slot_of c self.old.table.slots).conn.phase }
        ensures handed { AllHandOut self.old self.new (key_of c result.0) result.1.items }
        ensures budget { self.new.table.budget ≡ self.old.table.budget }
    {
        self.table.give(c)
    }

    /// Takes the outcome of a payload, which was collected.
    pub fn settle<L: Links>(&mut self, links: &mut L, key: Key, settled: Settled)
        requires collected { (max : ℕ) × (max ≤ longest_payload) × IsCollected max (L.state links.old) self.old key settled }
        ensures going { (max : ℕ) → max ≤ longest_payload → GoesOnSettled max (L.state links.old) self.old (L.state links.new) self.new key settled }
        ensures budget { self.new.table.budget ≡ self.old.table.budget }
        ensures plan { L.plan links.new ≡ L.plan links.old }
    {
        let c = key.c;
        self.table.answered(c, with_some_reply(settled));
        self.table.release(c);
        if self.table.conn(c).cause().is_some() {
            self.owing -= 1;
            self.close(links, c);
            return;
        }
        self.stages[c as usize] = ConnStage::Lean;
        if self.table.conn(c).pending().is_empty() {
            self.owing -= 1;
            return;
        }
    }
}

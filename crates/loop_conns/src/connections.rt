//! What a loop keeps of its connections.

ghost use Rattle.std.specs.Prelude.{◌≡◌, ◌≢◌, ◌+◌, ◌<◌, ◌≤◌, ◌↔◌, IsTrue, true, IfOk, OnOk, OnErr, [], length, slice_index_or};
ghost use Rattle.std.specs.Vec.{vec_capacity};
ghost use Rattle.outside.specs.LinksState.{LinksState};
ghost use Rattle.outside.specs.Opening.{AreFreshLinks};
ghost use Rattle.loop_conns.specs.declared.connections.ConnStage.TheVariants.{Gone};
ghost use Rattle.loop_conns.specs.Going.{KeepsGoing, IsOpenAt};

use conn_state::EndCause;
use conn_table::Table;
use std::alloc::{AllocError, Global};

/// Where a connection stands that was opened.
#[derive(Clone, Copy)]
pub enum ConnStage {
    /// It is open, and no size is admitted: a size is read or waits, or a reply is written.
    Lean,
    /// It is open, and its size is admitted: its payload is read, or its outcome is awaited.
    Laden,
    /// It has ended, and is closed.
    Gone,
}

/// What a loop keeps of its connections.
#[derive(Drop)]
pub struct LoopConnections {
    /// The open ones, with the sizes that are admitted.
    pub table: Table,
    /// Where each stands that was opened, by number.
    pub stages: Vec<ConnStage>,
    /// By what each has ended; of one that is open, that the host stops.
    pub causes: Vec<EndCause>,
    /// How many owe something: the outcome of a payload, or bytes of a reply.
    pub owing: usize,
}

impl LoopConnections {
    /// Holds no connection, and has room for 1,024 open ones and this budget.
    pub fn new(alloc: Global, read_budget: u64) -> Result<LoopConnections, AllocError>
        ensures table { IfOk result (λ kept. kept.table ≡ record { budget = read_budget; slots = [] }) }
        ensures none { IfOk result (λ kept. (kept.stages.items ≡ []) × (kept.causes.items ≡ []) × (kept.owing ≡ 0)) }
    {
        Ok(LoopConnections {
            table: Table::new(alloc, read_budget)?,
            stages: Vec::new(alloc),
            causes: Vec::new(alloc),
            owing: 0,
        })
    }

    /// Takes room for one more connection.
    pub fn make_place(&mut self) -> Result<(), AllocError>
        ensures room { OnOk result ((length self.new.stages.items < vec_capacity self.new.stages) × (length self.new.causes.items < vec_capacity self.new.causes)) }
        ensures table { self.new.table ≡ self.old.table }
        ensures stages { self.new.stages.items ≡ self.old.stages.items }
        ensures causes { self.new.causes.items ≡ self.old.causes.items }
        ensures owing { self.new.owing ≡ self.old.owing }
    {
        self.causes.reserve(1)?;
        self.stages.reserve(1)
    }

    /// Whether a connection is open.
    pub fn is_open(&self, c: u32) -> bool
        ensures { IsTrue result → IsOpenAt c self.now }
    {
        match self.stages.get(c as usize) {
            Some(ConnStage::Lean) => true,
            Some(ConnStage::Laden) => true,
            Some(ConnStage::Gone) => false,
            None => false,
        }
    }
}

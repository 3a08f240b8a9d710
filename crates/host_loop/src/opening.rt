//! What serving takes before it begins, and what it hands back where there was no memory for that.

ghost use Rattle.std.specs.Prelude.{◌≡◌, [], IfSome};
ghost use Rattle.host_loop.specs.Going.{AreNewTools};
ghost use Rattle.conn_table.specs.declared.run_limits.Outcome.TheVariants.{NoMemory};

use crate::buffer::Buffer;
use crate::serving::Served;
use call_rules::{Handler, Journal};
use conn_table::{Ends, Outcome};
use hall_pool::Door;
use loop_conns::LoopConnections;
use outside::Links;
use std::alloc::Global;

/// What a loop works with.
#[derive(Drop)]
pub(crate) struct Tools<B> {
    pub conns: LoopConnections,
    pub buffer: Buffer,
    pub door: Door,
    pub bell: B,
}

/// The tools of a loop over these links, with this budget.
pub(crate) fn make_tools<L: Links>(
    alloc: Global,
    links: &L,
    read_budget: u64,
) -> Option<Tools<L::Bell>>
    ensures { IfSome result (AreNewTools read_budget) }
{
    let conns = LoopConnections::new(alloc, read_budget).ok()?;
    let buffer = Buffer::new(alloc).ok()?;
    let bell = links.bell(alloc).ok()?;
    Some(Tools {
        conns,
        buffer,
        door: Door::new(),
        bell,
    })
}

/// What serving comes to where it doesn't begin, for want of memory.
pub(crate) fn unserved<H: Handler, J: Journal>(
    alloc: Global,
    handlers: Vec<H>,
    journal: J,
) -> Served<H, J>
    ensures ends { result.ends ≡ [] }
    ensures handlers { result.handlers ≡ handlers }
    ensures journal { result.journal ≡ journal }
    ensures outcome { result.outcome ≡ NoMemory }
{
    Served {
        ends: Ends::new(Vec::new(alloc)),
        handlers,
        journal,
        outcome: Outcome::NoMemory,
    }
}

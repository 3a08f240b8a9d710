//! Serving: one loop over links, a hall at a booth, and workers on threads.

ghost use Rattle.std.specs.Prelude.{◌≡◌, false, [], length, map};
ghost use Rattle.outside.specs.Opening.{AreFreshLinks};
ghost use Rattle.machine_model.specs.SeenHall.{MayHave};
ghost use Rattle.host_loop.specs.Served.{IsServed};
ghost use Rattle.conn_table.specs.Servable.{CanServe};

use crate::holdings::Host;
use crate::laws::nothing_is_served;
use crate::opening::{make_tools, unserved};
use crate::seating::serve_hall;
use call_rules::{Desk, Handler, Journal};
use conn_table::{Ends, Limits, Outcome};
use hall_core::{Hall, NoHall};
use outside::{Gate, Links};
use std::alloc::Global;
use std::sync::Wait;
use std::thread::Threads;

/// What serving came to.
#[derive(Drop)]
pub struct Served<H: Handler, J: Journal> {
    /// By what each connection ended.
    pub ends: Ends,
    /// The handlers, after all calls.
    pub handlers: Vec<H>,
    /// The journal of the calls.
    pub journal: J,
    /// How the run came out.
    pub outcome: Outcome,
}

/// Serves the connections of links until all is over, or the links or the journal fail, or memory runs out; then each connection that is
/// open is stopped. With no workers, or where none could be started, the loop makes their turns itself. The outcome is the first fault that
/// the loop met, and All only where it met none; which of several was the first no count at the end tells. It may wait.
pub fn serve<
    L: Links,
    D: Desk + Sync,
    H: Handler,
    J: Journal + Send,
    G: Gate + Sync,
    R: Threads + Wait + Sync,
>(
    rt: &R,
    alloc: Global,
    links: &mut L,
    desk: &D,
    handlers: Vec<H>,
    journal: J,
    workers: u32,
    gate: &G,
    limits: Limits,
) -> Served<H, J>
    requires fresh { AreFreshLinks (L.state links.old) }
    requires can { CanServe limits workers (D.meaning desk.now).max_frame (D.meaning desk.now).slots (length handlers.items) }
    requires whole { J.torn journal ≡ false }
    requires empty { MayHave (J.told journal) [] }
    ensures plan { L.plan links.new ≡ L.plan links.old }
    ensures served { IsServed
        (record { desk = D.meaning desk.now; services = map H.service handlers.items; budget = limits.read_budget })
        (record {
          first = L.state links.old;
          links = L.state links.new;
          causes = result.ends;
          outcome = result.outcome;
          services = map H.service result.handlers.items;
          told = J.told result.journal;
          torn = J.torn result.journal;
          faults_before = J.faults journal;
          faults = J.faults result.journal;
        }) }
{
    nothing_is_served();
    let host = Host {
        alloc,
        desk,
        gate,
        limits,
    };
    let Some(tools) = make_tools(alloc, links, limits.read_budget) else {
        return unserved(alloc, handlers, journal);
    };
    match Hall::new(alloc, handlers, journal) {
        Ok(hall) => serve_hall(rt, &host, links, hall, tools, workers),
        Err(NoHall { handlers, journal }) => unserved(alloc, handlers, journal),
    }
}

//! Runs of the machine.

ghost use Rattle.std.specs.Prelude.{◌≡◌, ◌<◌, ◌^◌, true, Some, map, IfOk, IfSome, option_map};
ghost use Rattle.machine_model.specs.Machine.{IsFirst, EventsLead};
ghost use Rattle.machine_model.specs.Plain.{when, event_told, told_plain, run_plain, with_loop, conn_event_plain};
ghost use Rattle.plain_machine.specs.Changed.{where_it_can};
ghost use Rattle.plain_machine.specs.Seen.{cell_of, conn_event_of, told_of};

use crate::calls::applies;
use crate::cells::{PlainCell, PlainEvent};
use crate::conn_events::{PlainConnEvent, PlainLoop, conn_event};
use crate::desks::PlainDesk;
use crate::halls::PlainHall;
use crate::jobs::{puts, puts_none, takes};
use crate::journals::PlainServices;
use crate::rounds::{collects, submits};
use machine_model::laws::plain_machine_runs;
use std::alloc::{AllocError, Global};

/// Makes the machine before it has done anything, with services of these memories; takes no memory.
pub fn start<C: Copy, A: Copy, M: Copy>(alloc: Global, memories: Vec<M>) -> PlainCell<C, A, M>
    ensures { IsFirst memories.items (cell_of result) }
{
    PlainCell {
        loop_part: PlainLoop {
            tape: Vec::new(alloc),
            conns: Vec::new(alloc),
        },
        hall: PlainHall {
            jobs: Vec::new(alloc),
            taken: Vec::new(alloc),
            outcomes: Vec::new(alloc),
            memories,
            journal: Vec::new(alloc),
            faults: 0,
            closed: false,
            broken: false,
        },
        workers: Vec::new(alloc),
    }
}

/// Something happens on a connection, where it can. Tells whether it can.
fn happens<C: Copy, A: Copy, M: Copy>(
    alloc: Global,
    max: u32,
    cell: &mut PlainCell<C, A, M>,
    event: &PlainConnEvent,
) -> Result<bool, AllocError>
    ensures { IfOk result (λ can. when can (Some (cell_of cell.new)) ≡ with_loop (cell_of cell.old) (conn_event_plain max (cell_of cell.old).loop (conn_event_of event.now))) }
{
    conn_event(alloc, max, &mut cell.loop_part, event)
}

/// The hall is closed, which can always be.
fn closes<C: Copy, A: Copy, M: Copy>(cell: &mut PlainCell<C, A, M>) -> Result<bool, AllocError>
    ensures { IfOk result (λ can. when can (Some (cell_of cell.new)) ≡ Some (record (cell_of cell.old) { hall = record (cell_of cell.old).hall { closed = true } })) }
{
    cell.hall.closed = true;
    Ok(true)
}

/// Brings the machine to what it is after an event, where that can be; payloads of this desk have at most `max` bytes. Tells
/// whether it can.
fn goes<D: PlainDesk, S: PlainServices<Call = D::Call, Answer = D::Answer>>(
    alloc: Global,
    max: u32,
    desk: &D,
    services: &S,
    cell: &mut PlainCell<D::Call, D::Answer, S::Memory>,
    event: &PlainEvent,
) -> Result<bool, AllocError>
    requires { max ≡ (D.desk desk.now).max }
    ensures { IfOk result (λ can. when can (Some (cell_of cell.new)) ≡ told_plain (D.desk desk.now) (S.rules services.now) (cell_of cell.old) (told_of event.now)) }
{
    match event {
        PlainEvent::Happens(event) => happens(alloc, max, cell, event),
        PlainEvent::Submits(c) => submits(alloc, cell, *c),
        PlainEvent::Takes(w) => takes(cell, *w),
        PlainEvent::Applies(w, apply_result) => {
            applies(alloc, desk, services, cell, *w, *apply_result)
        }
        PlainEvent::Puts(w) => puts(alloc, desk, cell, *w),
        PlainEvent::PutsNone(w) => puts_none(cell, *w),
        PlainEvent::Collects => collects(alloc, cell),
        PlainEvent::Closes => closes(cell),
    }
}

/// A value that was changed, where that could be.
fn where_it_can<T: Drop>(item: T, can: Result<bool, AllocError>) -> Result<Option<T>, AllocError>
    ensures { result ≡ where_it_can item can }
{
    if can? {
        return Ok(Some(item));
    }
    Ok(None)
}

/// Brings the machine to what it is after all of these events, where each can be. Tells whether each can.
fn all_go<D: PlainDesk, S: PlainServices<Call = D::Call, Answer = D::Answer>>(
    alloc: Global,
    max: u32,
    desk: &D,
    services: &S,
    cell: &mut PlainCell<D::Call, D::Answer, S::Memory>,
    events: &[PlainEvent],
) -> Result<bool, AllocError>
    requires { max ≡ (D.desk desk.now).max }
    ensures { IfOk result (λ can. when can (Some (cell_of cell.new))
        ≡ run_plain (D.desk desk.now) (S.rules services.now) (map told_of events.now) (Some (cell_of cell.old))) }
{
    for event in events {
        if !goes(alloc, max, desk, services, cell, event)? {
            return Ok(false);
        }
    }
    Ok(true)
}

/// The machine after all of these events, where each can be: a run of it.
pub fn run<D: PlainDesk, S: PlainServices<Call = D::Call, Answer = D::Answer>>(
    alloc: Global,
    max: u32,
    desk: &D,
    services: &S,
    cell: PlainCell<D::Call, D::Answer, S::Memory>,
    events: &[PlainEvent],
) -> Result<Option<PlainCell<D::Call, D::Answer, S::Memory>>, AllocError>
    requires same_max { max ≡ (D.desk desk.now).max }
    requires small { max < 2 ^ 31 }
    ensures plainly { IfOk result (λ next. option_map cell_of next
        ≡ run_plain (D.desk desk.now) (S.rules services.now) (map told_of events.now) (Some (cell_of cell))) }
    ensures runs { IfOk result (λ next. IfSome next (λ last.
        EventsLead (D.desk desk.now) (S.rules services.now) (cell_of cell) (map event_told (map told_of events.now)) (cell_of last))) }
{
    plain_machine_runs::<D::Call, D::Answer, S::Memory>();
    let mut cell = cell;
    let can = all_go(alloc, max, desk, services, &mut cell, events);
    where_it_can(cell, can)
}

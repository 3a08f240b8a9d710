//! What the loop asks of the hall: it submits, and it collects.

ghost use Rattle.std.specs.Prelude.{◌≡◌, ◌<◌, [], Some, suc, false, length, nat_lt, IfOk, option_map, slice_get};
ghost use Rattle.machine_model.specs.Loop.{changed, submitted_more, conn_settled, conn_marks_settled};
ghost use Rattle.machine_model.specs.Plain.{when, submit_plain, collect_plain};
ghost use Rattle.plain_machine.specs.Seen.{conn_of, loop_of, cell_of};

use crate::cells::PlainCell;
use crate::conn_events::PlainLoop;
use crate::conns::{PlainConn, closing};
use crate::halls::{PlainJob, take_first};
use host_model::{EndCause, Key};
use std::alloc::{AllocError, Global};
use streams::{Mark, Settled};

/// The first payload of a connection that isn't submitted, where there is one, in memory of its own.
#[tactic(auto, using(crate::proofs::Seeing::payloads))]
fn next_payload(alloc: Global, conn: &PlainConn) -> Result<Option<Vec<u8>>, AllocError>
    ensures { IfOk result (λ payload. option_map (λ p. p.items) payload ≡ slice_get (conn_of conn.now).payloads (conn_of conn.now).submitted) }
{
    if conn.payloads.len() as u64 <= conn.submitted {
        return Ok(None);
    }
    let payload = &conn.payloads[conn.submitted as usize];
    Ok(Some(Vec::from_slice(alloc, payload.as_slice())?))
}

/// The first such payload of the connection of this number.
#[tactic(auto, using(crate::proofs::Seeing::conn_seen))]
fn payload_of(alloc: Global, loop_part: &PlainLoop, c: u32) -> Result<Option<Vec<u8>>, AllocError>
    requires { c < length loop_part.now.conns.items }
    ensures { IfOk result (λ payload. option_map (λ p. p.items) payload ≡ slice_get ((loop_of loop_part.now).conns c).payloads ((loop_of loop_part.now).conns c).submitted) }
{
    next_payload(alloc, &loop_part.conns[c as usize])
}

/// The number behind this one, for which there is room.
pub fn one_more(number: u64) -> Result<u64, AllocError>
    ensures { IfOk result (λ next. next ≡ suc number) }
{
    number.checked_add(1).ok_or(AllocError)
}

/// One more payload of connection c is submitted; returns its number.
fn submit_next(loop_part: &mut PlainLoop, c: u32) -> Result<u64, AllocError>
    requires { c < length loop_part.old.conns.items }
    ensures next { IfOk result (λ i. loop_of loop_part.new ≡ changed (loop_of loop_part.old) c (submitted_more ((loop_of loop_part.old).conns c)) []) }
    ensures number { IfOk result (λ i. i ≡ ((loop_of loop_part.old).conns c).submitted) }
{
    let conn = &mut loop_part.conns[c as usize];
    let i = conn.submitted;
    conn.submitted = one_more(i)?;
    Ok(i)
}

/// A payload is submitted to a hall that isn't closed, which can always be.
fn submit_payload<C: Copy, A: Copy, M: Copy>(
    cell: &mut PlainCell<C, A, M>,
    c: u32,
    payload: Vec<u8>,
) -> Result<bool, AllocError>
    requires { c < length cell.old.loop_part.conns.items }
    ensures { IfOk result (λ can. when can (Some (cell_of cell.new)) ≡ submit_plain (cell_of cell.old) c false (Some payload.items)) }
{
    let i = submit_next(&mut cell.loop_part, c)?;
    let key = Key { c, i };
    cell.hall.jobs.push(PlainJob { key, payload })?;
    Ok(true)
}

/// A payload is submitted, where there is one. Tells whether there is.
pub fn submits<C: Copy, A: Copy, M: Copy>(
    alloc: Global,
    cell: &mut PlainCell<C, A, M>,
    c: u32,
) -> Result<bool, AllocError>
    ensures { IfOk result (λ can. when can (Some (cell_of cell.new)) ≡ when (nat_lt c (cell_of cell.old).loop.count)
        (submit_plain (cell_of cell.old) c (cell_of cell.old).hall.closed (slice_get ((cell_of cell.old).loop.conns c).payloads ((cell_of cell.old).loop.conns c).submitted))) }
{
    if cell.loop_part.conns.len() <= c as usize {
        return Ok(false);
    }
    let Some(payload) = payload_of(alloc, &cell.loop_part, c)? else {
        return Ok(false);
    };
    if cell.hall.closed {
        return Ok(true);
    }
    submit_payload(cell, c, payload)
}

/// One more of a connection's payloads is collected, as settled so; returns the marks of that.
fn settle_conn(
    alloc: Global,
    c: u32,
    conn: &mut PlainConn,
    settled: Settled,
) -> Result<Vec<Mark>, AllocError>
    ensures conn { IfOk result (λ marks. conn_of conn.new ≡ conn_settled (conn_of conn.old).cause settled (conn_of conn.old)) }
    ensures marks { IfOk result (λ marks. marks.items ≡ conn_marks_settled (conn_of conn.old).cause c settled) }
{
    conn.collected = one_more(conn.collected)?;
    if conn.cause.is_some() {
        return Ok(Vec::new(alloc));
    }
    match settled {
        Settled::Reply(reply) => {
            conn.left = reply.into_vec();
            Ok(Vec::new(alloc))
        }
        Settled::Nothing => Ok(Vec::new(alloc)),
        Settled::Close(fault) => {
            conn.cause = Some(EndCause::Envelope(fault));
            closing(alloc, c)
        }
        Settled::NoMemory => {
            conn.cause = Some(EndCause::NoMemory);
            closing(alloc, c)
        }
    }
}

/// An outcome of connection c is collected, where that is there. Tells whether it is.
fn settle(
    alloc: Global,
    loop_part: &mut PlainLoop,
    c: u32,
    settled: Settled,
) -> Result<bool, AllocError>
    ensures { IfOk result (λ can. when can (Some (loop_of loop_part.new)) ≡ when (nat_lt c (loop_of loop_part.old).count)
        (Some (changed (loop_of loop_part.old) c (conn_settled ((loop_of loop_part.old).conns c).cause settled ((loop_of loop_part.old).conns c))
        (conn_marks_settled ((loop_of loop_part.old).conns c).cause c settled)))) }
{
    if loop_part.conns.len() <= c as usize {
        return Ok(false);
    }
    let mut marks = settle_conn(alloc, c, &mut loop_part.conns[c as usize], settled)?;
    loop_part.tape.append(&mut marks)?;
    Ok(true)
}

/// An outcome is collected, where there is one. Tells whether its connection, if there is one, is there.
pub fn collects<C: Copy, A: Copy, M: Copy>(
    alloc: Global,
    cell: &mut PlainCell<C, A, M>,
) -> Result<bool, AllocError>
    ensures { IfOk result (λ can. when can (Some (cell_of cell.new)) ≡ collect_plain (cell_of cell.old) (cell_of cell.old).hall.outcomes) }
{
    let Some(outcome) = take_first(&mut cell.hall.outcomes) else {
        return Ok(true);
    };
    settle(alloc, &mut cell.loop_part, outcome.key.c, outcome.settled)
}

//! The loop's part: the tape and the connections, and what happens on a connection.

ghost use Rattle.std.specs.Prelude.{◌≡◌, ◌<◌, Some, length, IfOk, IsTrue, option_map};
ghost use Rattle.machine_model.specs.Loop.{opens, open_among};
ghost use Rattle.machine_model.specs.Plain.{when, has_none_yet, is_open, conn_event_plain};
ghost use Rattle.plain_machine.specs.Happening.{conn_at, conn_moves};
ghost use Rattle.plain_machine.specs.Seen.{conn_of, conns_of, loop_of, conn_event_of};

use crate::conns::{PlainConn, ends, fails_read, fails_write, gives_up, reads, writes};
use host_model::EndCause;
use limits::MOST_CONNECTIONS;
use std::alloc::{AllocError, Global};
use streams::{Bytes, Mark};

/// What happens on a connection alone; connections have numbers, from 0.
#[derive(Drop)]
pub enum PlainConnEvent {
    /// The next connection is opened.
    Opens,
    /// It reads these bytes.
    Reads(u32, Bytes),
    /// Its input ends.
    Ends(u32),
    /// A read fails.
    FailsRead(u32),
    /// So many bytes of its reply are written.
    Writes(u32, usize),
    /// A write fails.
    FailsWrite(u32),
    /// It is given up, for want of memory or since the host stops.
    GivesUp(u32, EndCause),
}

/// The tape, and each connection at its number.
#[derive(Drop)]
pub struct PlainLoop {
    pub tape: Vec<Mark>,
    pub conns: Vec<PlainConn>,
}

/// The connection that this happens on, where that is there before.
fn conn_at(conn_event: &PlainConnEvent) -> Option<u32>
    ensures { result ≡ conn_at (conn_event_of conn_event.now) }
{
    match conn_event {
        PlainConnEvent::Opens => None,
        PlainConnEvent::Reads(c, _) => Some(*c),
        PlainConnEvent::Ends(c) => Some(*c),
        PlainConnEvent::FailsRead(c) => Some(*c),
        PlainConnEvent::Writes(c, _) => Some(*c),
        PlainConnEvent::FailsWrite(c) => Some(*c),
        PlainConnEvent::GivesUp(c, _) => Some(*c),
    }
}

/// Brings a connection to what it is after this happens on it, where it can; returns the marks of that.
fn moves(
    alloc: Global,
    max: u32,
    conn: &mut PlainConn,
    conn_event: &PlainConnEvent,
) -> Result<Option<Vec<Mark>>, AllocError>
    ensures { IfOk result (λ marks. option_map (λ m. (conn_of conn.new, m.items)) marks ≡ conn_moves max (conn_event_of conn_event.now) (conn_of conn.old)) }
{
    match conn_event {
        PlainConnEvent::Opens => Ok(None),
        PlainConnEvent::Reads(c, bytes) => reads(alloc, max, *c, bytes.as_slice(), conn),
        PlainConnEvent::Ends(c) => ends(alloc, *c, conn),
        PlainConnEvent::FailsRead(c) => fails_read(alloc, *c, conn),
        PlainConnEvent::Writes(c, count) => writes(alloc, *c, *count, conn),
        PlainConnEvent::FailsWrite(c) => fails_write(alloc, *c, conn),
        PlainConnEvent::GivesUp(c, cause) => gives_up(alloc, *c, *cause, conn),
    }
}

/// Brings the loop to what it is after this happens on a connection, where it can. Tells whether it can.
pub fn conn_event(
    alloc: Global,
    max: u32,
    loop_part: &mut PlainLoop,
    conn_event: &PlainConnEvent,
) -> Result<bool, AllocError>
    ensures { IfOk result (λ can. when can (Some (loop_of loop_part.new)) ≡ conn_event_plain max (loop_of loop_part.old) (conn_event_of conn_event.now)) }
{
    let Some(c) = conn_at(conn_event) else {
        return opens(alloc, loop_part);
    };
    if !is_open(loop_part, c) {
        return Ok(false);
    }
    let conn = &mut loop_part.conns[c as usize];
    let Some(mut marks) = moves(alloc, max, conn, conn_event)? else {
        return Ok(false);
    };
    loop_part.tape.append(&mut marks)?;
    Ok(true)
}

/// Whether a connection of this cause hasn't ended.
fn has_none_yet(cause: Option<EndCause>) -> bool
    ensures { result ≡ has_none_yet cause }
{
    cause.is_none()
}

/// How many connections are open.
#[tactic(auto, using(crate::proofs::Seeing::counting))]
fn open_among(conns: &[PlainConn]) -> usize
    ensures { result ≡ open_among (conns_of conns.now) (length conns.now) }
{
    let mut count = 0;
    for conn in conns {
        if has_none_yet(conn.cause) {
            count += 1;
        }
    }
    count
}

/// One more connection is opened, where there is room.
#[tactic(auto, using(crate::proofs::Seeing::conns_more))]
fn opens(alloc: Global, loop_part: &mut PlainLoop) -> Result<bool, AllocError>
    ensures { IfOk result (λ can. when can (Some (loop_of loop_part.new)) ≡ conn_event_plain 0 (loop_of loop_part.old) opens) }
{
    if MOST_CONNECTIONS <= open_among(loop_part.conns.as_slice()) {
        return Ok(false);
    }
    let Ok(c) = u32::try_from(loop_part.conns.len()) else {
        return Err(AllocError);
    };
    loop_part.tape.push(Mark::Opened(c))?;
    loop_part.conns.push(PlainConn::new(alloc))?;
    Ok(true)
}

/// Whether there is such a connection, and it is open.
#[tactic(auto, using(crate::proofs::Seeing::open_is))]
fn is_open(loop_part: &PlainLoop, c: u32) -> bool
    ensures is { result ≡ is_open (loop_of loop_part.now) c }
    ensures there { IsTrue result → c < length loop_part.now.conns.items }
{
    let c = c as usize;
    if loop_part.conns.len() <= c {
        return false;
    }
    has_none_yet(loop_part.conns[c].cause)
}

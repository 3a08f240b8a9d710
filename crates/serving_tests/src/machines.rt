//! Scripts of two connections that the machine without threads runs until the journal fails, beside the plain machine with their events by hand: the same tape,
//! the same calls in the same order, the same bytes sent, and the same ends.

ghost use Rattle.std.specs.Prelude.{◌≡◌, ◌≤◌, length, IfSome};
ghost use Rattle.processor.specs.Offices.{plain_office};
ghost use Rattle.script_text.specs.Sound.{MovesItsWorkers};

use crate::faulty_journals::FaultyJournal;
use crate::offices::office;
use crate::plain_runs::after;
use crate::recordings::one_mirror;
use call_rules::Entry;
use cell_core::{Rehearsed, rehearse};
use conn_table::{Limits, Outcome};
use envelope::Protocol;
use host_model::EndCause;
use house_handlers::Mirror;
use plain_machine::{PlainCell, PlainConn, PlainEntry, marks_of, output};
use processor::Office;
use run_report::ReportedJournal;
use script_text::laws::scripts_are_sound;
use script_text::{Script, read_script};
use std::alloc::{AllocError, Global};
use std::test::Fail;
use streams::{Bytes, Mark, MarkAt, Tape};

// A script, its workers, the append at which the journal fails, and the events of the run.
type Run = (&'static [u8], u32, usize, &'static [u8]);

// Two calls of `f` and then one more: the first connection has two.
const THREE_CALLS: &[u8] =
    b"open\nopen\ndata 0 0000000682210101660000000006822101016600\ndata 1 00000006822101016600\nend 0\nend 1\n";

const RUNS: [Run; 5] = [
    (THREE_CALLS, 0, 0, b"o0o1r0R0s0r1R1s1t0j0x0S0S1"),
    (
        THREE_CALLS,
        0,
        1,
        b"o0o1r0R0s0r1R1s1t0a0p0c0W0r0R0s0t0j0x0S0S1",
    ),
    (
        THREE_CALLS,
        0,
        2,
        b"o0o1r0R0s0r1R1s1t0a0p0c0W0r0R0s0t0a0p0c0W1e1t0j0x0S0",
    ),
    // The journal fails at the second worker's call, when the first one's outcome isn't collected: its reply isn't sent.
    (THREE_CALLS, 2, 1, b"o0o1r0R0s0r1R1s1t0a0p0t1j1x0S0S1"),
    // It fails before the second connection opens, which then never does.
    (
        b"open\ndata 0 00000006822101016600\nrest\nopen\nend 0\nend 1\n",
        0,
        0,
        b"o0r0R0s0t0j0x0S0",
    ),
];

// The script that a text is.
fn script_of(alloc: Global, text: &[u8], workers: u32) -> Option<Script>
    requires { workers ≤ 8 }
    ensures { IfSome result (λ script. MovesItsWorkers workers script) }
{
    scripts_are_sound();
    match read_script(alloc, text, workers, true, true) {
        Ok(script) => Some(script),
        Err(_) => None,
    }
}

// Runs a script at an office with a mirror.
fn run_script(
    alloc: Global,
    script: &Script,
    workers: u32,
    fails_at: usize,
) -> Result<Rehearsed<Mirror, FaultyJournal>, AllocError>
    requires few { workers ≤ 8 }
    requires moves { MovesItsWorkers workers script.now }
{
    let desk = office(alloc, Protocol::Compact)?;
    run_at(alloc, script, &desk, workers, fails_at)
}

// Runs it at this office.
fn run_at(
    alloc: Global,
    script: &Script,
    desk: &Office,
    workers: u32,
    fails_at: usize,
) -> Result<Rehearsed<Mirror, FaultyJournal>, AllocError>
    requires few { workers ≤ 8 }
    requires moves { MovesItsWorkers workers script.now }
    requires one { length (plain_office desk.now).bindings ≡ 1 }
    requires longest { (plain_office desk.now).max_frame ≡ 268435456 }
{
    let handlers = one_mirror(alloc)?;
    let limits = Limits {
        max_frame: 268_435_456,
        read_budget: 268_435_456,
    };
    let journal = FaultyJournal::new(alloc, fails_at);
    Ok(rehearse(alloc, script, desk, handlers, journal, workers, limits))
}

// What a mark is: a letter, its connection, and the bytes that it has.
fn parts<'a>(mark: MarkAt<'a>) -> (u8, u32, &'a [u8]) {
    match mark {
        MarkAt::Opened(c) => (b'o', c, b"".as_slice()),
        MarkAt::Read(c, bytes) => (b'r', c, bytes),
        MarkAt::Ended(c) => (b'e', c, b"".as_slice()),
        MarkAt::Wrote(c, bytes) => (b'w', c, bytes),
        MarkAt::ReadFailed(c) => (b'f', c, b"".as_slice()),
        MarkAt::WriteFailed(c) => (b'g', c, b"".as_slice()),
        MarkAt::Closed(c) => (b'c', c, b"".as_slice()),
    }
}

// The same mark, whose bytes are lent.
fn lent(mark: &Mark) -> MarkAt<'_> {
    match mark {
        Mark::Opened(c) => MarkAt::Opened(*c),
        Mark::Read(c, bytes) => MarkAt::Read(*c, bytes.as_slice()),
        Mark::Ended(c) => MarkAt::Ended(*c),
        Mark::Wrote(c, bytes) => MarkAt::Wrote(*c, bytes.as_slice()),
        Mark::ReadFailed(c) => MarkAt::ReadFailed(*c),
        Mark::WriteFailed(c) => MarkAt::WriteFailed(*c),
        Mark::Closed(c) => MarkAt::Closed(*c),
    }
}

// Whether a run's tape has these marks.
fn has_marks(tape: &Tape, others: &[Mark]) -> bool {
    let mut marks = tape.marks();
    for other in others {
        let Some(mark) = marks.next() else {
            return false;
        };
        if parts(mark) != parts(lent(other)) {
            return false;
        }
    }
    marks.next().is_none()
}

// Whether two journals have the same calls in the same order, by their keys.
fn are_same_calls(entries: &[Entry], others: &[PlainEntry<u8, u8>]) -> bool {
    if entries.len() != others.len() {
        return false;
    }
    for (entry, other) in entries.iter().zip(others) {
        if entry.key.c != other.key.c || entry.key.i != other.key.i {
            return false;
        }
    }
    true
}

// Whether connections have ended so in the plain machine.
fn have_ended_so(conns: &[PlainConn], ends: &[EndCause]) -> bool {
    if conns.len() != ends.len() {
        return false;
    }
    for (conn, cause) in conns.iter().zip(ends) {
        if conn.cause != Some(*cause) {
            return false;
        }
    }
    true
}

// Whether the connections were sent what a tape says.
fn were_sent_so(alloc: Global, tape: &[Mark], outs: &[Bytes]) -> Result<bool, AllocError> {
    let mut c = 0u32;
    for sent in outs {
        let own = marks_of(alloc, c, tape)?;
        let wanted = output(alloc, own.as_slice())?;
        if sent.as_slice() != wanted.as_slice() {
            return Ok(false);
        }
        c = c.wrapping_add(1);
    }
    Ok(true)
}

// Whether a run in memory and one of the plain machine came to the same.
fn came_to_the_same(
    alloc: Global,
    run: &Rehearsed<Mirror, FaultyJournal>,
    plain: &PlainCell<u8, u8, u8>,
) -> Result<bool, AllocError> {
    let tape = plain.loop_part.tape.as_slice();
    let outs = run.outs.as_slice();
    let ends = run.ends.as_slice();
    if outs.len() != ends.len()
        || !has_marks(&run.tape, tape)
        || !are_same_calls(run.journal.entries(), plain.hall.journal.as_slice())
        || !have_ended_so(plain.loop_part.conns.as_slice(), ends)
    {
        return Ok(false);
    }
    were_sent_so(alloc, tape, outs)
}

// Whether a script runs so that it comes to what the plain machine has.
fn runs_as(
    alloc: Global,
    script: &Script,
    workers: u32,
    row: &Run,
    plain: &PlainCell<u8, u8, u8>,
) -> Result<bool, AllocError>
    requires few { workers ≤ 8 }
    requires moves { MovesItsWorkers workers script.now }
{
    let run = run_script(alloc, script, workers, row.2)?;
    if run.outcome != Outcome::JournalFault {
        return Ok(false);
    }
    came_to_the_same(alloc, &run, plain)
}

// Whether a run comes to what the plain machine comes to by its events.
fn runs_plainly(alloc: Global, row: &Run) -> Result<bool, AllocError> {
    let workers = row.1.min(8);
    let Some(plain) = after(alloc, row.3)? else {
        return Ok(false);
    };
    match script_of(alloc, row.0, workers) {
        Some(script) => runs_as(alloc, &script, workers, row, &plain),
        None => Ok(false),
    }
}

#[test]
fn runs_are_those_of_the_plain_machine(rt: HostRuntime) -> Result<(), Fail> {
    for row in &RUNS {
        assert!(rt; runs_plainly(rt.alloc(), row)?, "{:?}", row.3);
    }
    Ok(())
}

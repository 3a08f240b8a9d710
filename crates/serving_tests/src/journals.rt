//! What journals keep.

ghost use Rattle.std.specs.Prelude.{◌≡◌, ◌≤◌, false, true, IfOk};
ghost use Rattle.call_rules.specs.PlainCalls.{IsPlainCall, IsPlainAnswer};

use crate::entries::{long_ping, ping};
use call_rules::{Entry, Journal};
use journal_text::{ListJournal, SegmentJournal, SinkJournal, SpoolJournal, put_entry};
use std::alloc::{AllocError, Global};
use std::test::Fail;
use streams::MemSink;
use text_out::decimal;

// Appends an entry where it could be made; whether it was entered.
fn append_made<J: Journal>(journal: &mut J, made: Result<Entry, AllocError>) -> bool
    requires whole { J.torn journal.old ≡ false }
    requires reserved { 1 ≤ J.room journal.old }
    requires call { IfOk made (λ e. IsPlainCall e.call) }
    requires answer { IfOk made (λ e. IsPlainAnswer e.answer) }
    ensures whole { result ≡ true → J.torn journal.new ≡ false }
{
    match made {
        Ok(entry) => journal.append(entry).is_ok(),
        Err(_) => false,
    }
}

// Appends a call without arguments; whether it was entered.
fn append_ping<J: Journal>(alloc: Global, journal: &mut J, i: u64) -> bool
    requires whole { J.torn journal.old ≡ false }
    ensures whole { result ≡ true → J.torn journal.new ≡ false }
{
    journal.reserve().is_ok() && append_made(journal, ping(alloc, i))
}

// Appends such a call with an answer of so many bytes, and then one without an answer, unless the first one wasn't entered.
fn append_two<J: Journal>(alloc: Global, journal: &mut J, long: usize)
    requires whole { J.torn journal.old ≡ false }
{
    if journal.reserve().is_ok() && append_made(journal, long_ping(alloc, long)) {
        append_ping(alloc, journal, 1);
    }
}

// The number of entries in a list to which three were appended.
fn listed(alloc: Global) -> usize {
    let mut journal = ListJournal::new(alloc);
    for i in 0..3 {
        append_ping(alloc, &mut journal, i);
    }
    journal.entries().len()
}

// The bytes of a sink that takes 5 at a time and fails at the write of this number, once it has taken what it can of two lines.
fn written(alloc: Global, fail: u64) -> Result<Vec<u8>, AllocError> {
    let fails = vec![in alloc; fail]?;
    let Ok(mut journal) = SinkJournal::new(alloc, MemSink::in_pieces(alloc, fails, 5)) else {
        return Err(AllocError);
    };
    if append_ping(alloc, &mut journal, 0) {
        append_ping(alloc, &mut journal, 1);
    }
    Ok(journal.into_sink().into_bytes())
}

// Whether these bytes of two lines are taken before a write of this number fails.
fn is_written(alloc: Global, fail: u64, count: usize) -> Result<bool, AllocError> {
    let lines: &[u8] = b"call 0 0 0 p {} empty\ncall 0 1 0 p {} empty\n";
    let found = written(alloc, fail)?;
    Ok(found.as_slice() == lines.split_at(count.min(lines.len())).0)
}

#[test]
fn journals_keep_what_is_appended(rt: HostRuntime) -> Result<(), Fail> {
    assert!(rt; listed(rt.alloc()) == 3);
    assert!(rt; is_written(rt.alloc(), 100, 44)?);
    assert!(rt; is_written(rt.alloc(), 7, 32)?);
    Ok(())
}

// Appends the line of a call without arguments.
fn put_line(into: &mut Vec<u8>, i: u64) -> Result<(), AllocError> {
    into.extend_from_slice(b"call 0 ")?;
    decimal(into, i128::from(i))?;
    into.extend_from_slice(b" 0 p {} empty\n")
}

// The lines of such calls with the numbers from one to another.
fn lines_of(alloc: Global, from: u64, to: u64) -> Result<Vec<u8>, AllocError> {
    let mut lines = Vec::new(alloc);
    for i in from..to {
        put_line(&mut lines, i)?;
    }
    Ok(lines)
}

// A journal in segments with so many entries.
fn segments(alloc: Global, count: u64) -> SegmentJournal {
    let mut journal = SegmentJournal::new(alloc);
    for i in 0..count {
        append_ping(alloc, &mut journal, i);
    }
    journal
}

// The lines of its entries, each looked up by its number, and of one behind the last.
fn looked_up(alloc: Global, journal: &SegmentJournal) -> Result<Vec<u8>, AllocError> {
    let mut lines = Vec::new(alloc);
    for i in 0..u64::MAX {
        match journal.entry(i) {
            Some(entry) => put_entry(&mut lines, entry)?,
            None => return Ok(lines),
        }
    }
    Ok(lines)
}

// Whether a journal has these lines.
fn has_lines(alloc: Global, journal: &SegmentJournal, lines: &[u8]) -> Result<bool, AllocError> {
    let found = looked_up(alloc, journal)?;
    Ok(found.as_slice() == lines)
}

// What a sink that fails at these writes takes of a journal.
fn spooled_until(alloc: Global, journal: &mut SegmentJournal, fails: Vec<u64>) -> Vec<u8> {
    let mut out = MemSink::new(alloc, fails);
    let _ = journal.spool(&mut out);
    out.into_bytes()
}

// Whether a journal with so many entries has these lines, and is spooled as them.
fn keeps(
    alloc: Global,
    journal: &mut SegmentJournal,
    count: u64,
    lines: &[u8],
) -> Result<bool, AllocError> {
    if journal.count() != count || !has_lines(alloc, journal, lines)? {
        return Ok(false);
    }
    let out = spooled_until(alloc, journal, Vec::new(alloc));
    Ok(out.as_slice() == lines && journal.count() == 0 && journal.entry(0).is_none())
}

// Whether so many entries are kept in order, and spooled in order.
fn keeps_in_order(alloc: Global, count: u64) -> Result<bool, AllocError> {
    let lines = lines_of(alloc, 0, count)?;
    let mut journal = segments(alloc, count);
    keeps(alloc, &mut journal, count, lines.as_slice())
}

#[test]
fn segments_keep_their_entries_in_order(rt: HostRuntime) -> Result<(), Fail> {
    for count in &[0u64, 1_023, 1_024, 1_025, 2_049] {
        assert!(rt; keeps_in_order(rt.alloc(), *count)?);
    }
    Ok(())
}

// Whether a sink that fails in the second segment takes all of the first.
fn takes_the_first(alloc: Global, journal: &mut SegmentJournal) -> Result<bool, AllocError> {
    let lines = lines_of(alloc, 0, 1_024)?;
    let fails = vec![in alloc; 9_000u64]?;
    let taken = spooled_until(alloc, journal, fails);
    Ok(taken.starts_with(lines.as_slice()))
}

// Whether the others are left, and another sink takes them.
fn takes_the_others(alloc: Global, journal: &mut SegmentJournal) -> Result<bool, AllocError> {
    let lines = lines_of(alloc, 1_024, 2_049)?;
    let left = journal.count();
    let taken = spooled_until(alloc, journal, Vec::new(alloc));
    Ok(left == 1_025 && taken.as_slice() == lines.as_slice())
}

fn are_whole_segments_left(
    alloc: Global,
    journal: &mut SegmentJournal,
) -> Result<bool, AllocError> {
    Ok(takes_the_first(alloc, journal)? && takes_the_others(alloc, journal)?)
}

fn breaks_off_at_a_segment(alloc: Global) -> Result<bool, AllocError> {
    let mut journal = segments(alloc, 2_049);
    are_whole_segments_left(alloc, &mut journal)
}

#[test]
fn a_spool_that_breaks_off_leaves_whole_segments(rt: HostRuntime) -> Result<(), Fail> {
    assert!(rt; breaks_off_at_a_segment(rt.alloc())?);
    Ok(())
}

// Whether a journal of two entries is spooled into a sink that takes a byte at a time as far as the write of this number, which fails, and keeps both unless all are taken.
fn is_spooled_until(
    alloc: Global,
    journal: &mut SegmentJournal,
    fail: usize,
    lines: &[u8],
) -> Result<bool, AllocError> {
    let fails = vec![in alloc; fail as u64]?;
    let mut out = MemSink::in_pieces(alloc, fails, 1);
    let is_whole = journal.spool(&mut out).is_ok() && journal.count() == 0;
    let is_kept = journal.count() == 2;
    let taken = out.into_bytes();
    Ok(
        taken.as_slice() == lines.split_at(fail.min(lines.len())).0
            && (if fail < lines.len() {
                is_kept
            } else {
                is_whole
            }),
    )
}

fn is_spooled_in_bytes(alloc: Global, fail: usize) -> Result<bool, AllocError> {
    let lines = lines_of(alloc, 0, 2)?;
    let mut journal = segments(alloc, 2);
    is_spooled_until(alloc, &mut journal, fail, lines.as_slice())
}

#[test]
fn each_write_of_a_spool_may_fail(rt: HostRuntime) -> Result<(), Fail> {
    for fail in 0..=44usize {
        assert!(rt; is_spooled_in_bytes(rt.alloc(), fail)?);
    }
    Ok(())
}

// A journal whose lines stand in a buffer, over a sink that takes so many bytes at a time and fails at the write of this number; whether it is finished. Of an answer
// of so many bytes and another call so many bytes are taken then, so many entries are counted, and it has failed or not.
type Buffered = (usize, (usize, u64, bool), (usize, u64, bool));

const BUFFERED: [Buffered; 8] = [
    // Lines that the buffer has room for: they are written at the end, unless that fails.
    (3, (5, 100, true), (100, 2, false)),
    (3, (5, 100, false), (0, 2, false)),
    (3, (5, 0, true), (0, 2, true)),
    (3, (5, 2, true), (10, 2, true)),
    // A line that is longer than the buffer.
    (70_000, (30_000, 100, true), (100_000, 2, false)),
    (70_000, (30_000, 100, false), (30_000, 2, false)),
    (70_000, (30_000, 0, true), (0, 0, true)),
    (70_000, (30_000, 1, true), (30_000, 2, true)),
];

// The lines of the two calls.
fn long_lines(alloc: Global, long: usize) -> Result<Vec<u8>, AllocError> {
    let mut lines = b"call 0 0 0 p {} ok \"".to_vec(alloc)?;
    for _ in 0..long {
        lines.push(b'x')?;
    }
    lines.extend_from_slice(b"\"\ncall 0 1 0 p {} empty\n")?;
    Ok(lines)
}

// Whether two calls come to the end of a row over this sink, where their lines are these.
fn ends_so(
    alloc: Global,
    sink: MemSink,
    long: usize,
    finishes: bool,
    wanted: (usize, u64, bool),
    lines: &[u8],
) -> bool {
    let Ok(mut journal) = SpoolJournal::new(alloc, sink) else {
        return false;
    };
    append_two(alloc, &mut journal, long);
    if finishes && !journal.failed() {
        let _ = journal.finish();
    }
    let is_counted = journal.count() == wanted.1 && journal.failed() == wanted.2;
    let taken = journal.into_sink().into_bytes();
    is_counted && taken.as_slice() == lines.split_at(wanted.0.min(lines.len())).0
}

fn is_buffered(alloc: Global, row: &Buffered) -> Result<bool, AllocError> {
    let (long, (piece, fail, finishes), wanted) = *row;
    let lines = long_lines(alloc, long)?;
    let fails = vec![in alloc; fail]?;
    let sink = MemSink::in_pieces(alloc, fails, piece.max(1));
    Ok(ends_so(alloc, sink, long, finishes, wanted, lines.as_slice()))
}

#[test]
fn lines_stand_in_a_buffer(rt: HostRuntime) -> Result<(), Fail> {
    for row in &BUFFERED {
        assert!(rt; is_buffered(rt.alloc(), row)?);
    }
    Ok(())
}

// How many bytes the lines of two calls have, of which one is answered with three.
const TWO_LINES: usize = 47;

#[test]
fn each_write_of_a_byte_may_fail(rt: HostRuntime) -> Result<(), Fail> {
    for fail in 0..=TWO_LINES {
        let row = (3, (1, fail as u64, true), (fail, 2, fail < TWO_LINES));
        assert!(rt; is_buffered(rt.alloc(), &row)?);
    }
    Ok(())
}

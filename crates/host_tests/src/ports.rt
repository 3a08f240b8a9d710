//! A port that is served in memory: its summary and its journal, also where calls on its links or writes of the journal fail in turn.

use crate::given::{Called, Ended, Given, SERVE, TWO_PINGS};
use std::alloc::{AllocError, Global};
use std::process::Abort;
use std::sync::Wait;
use std::test::Fail;
use std::thread::Threads;
use text_out::decimal;
use thrift_host::Status;

/// Two services, of which one is the default.
const SERVE_BY_DEFAULT: [&str; 14] = [
    "serve",
    "@tutorial",
    "binary",
    "2",
    "Calculator=calculator",
    "shared.SharedService=mirror",
    "--default",
    "Calculator",
    "--listen",
    "9090",
    "--accept",
    "10",
    "--journal",
    "calls.txt",
];

/// `ping`, by its bare name and by its service's.
const PINGS_OF_A_DEFAULT: &[u8] =
    b"open\ndata 0 00000011800100010000000470696e670000000000\ndata 0 0000001c800100010000000f43616c63756c61746f723a70696e670000000000\nend 0\n";

/// The summary of two calls on one connection, and their lines in the journal.
const SUMMARY: &[u8] = b"listening 127.0.0.1:9090\nconn 0 End\ncalls 2\n";

const LINES: &[u8] = b"call 0 0 0 ping {} empty\ncall 0 1 0 ping {} empty\n";

/// What these words come to where a script is what comes to the port, and this call fails.
fn served<R: Threads + Wait + Sync>(
    rt: &R,
    alloc: Global,
    words: &[&str],
    port: &[u8],
    failing: Option<(Called, u64)>,
) -> Result<Ended, AllocError> {
    let given = Given {
        port,
        failing,
        ..Given::empty()
    };
    given.run(rt, alloc, words)
}

/// Whether two calls that come to the port are served, and stand in the journal.
fn are_served<R: Threads + Wait + Sync>(
    rt: &R,
    alloc: Global,
    words: &[&str],
    port: &[u8],
) -> Result<bool, AllocError> {
    let ended = served(rt, alloc, words, port, None)?;
    Ok(ended.is_so(Status::Done, SUMMARY, b"") && ended.journal.as_slice() == LINES)
}

#[test]
fn a_port_is_served(rt: HostRuntime) -> Result<(), Fail> {
    assert!(rt; are_served(&rt, rt.alloc(), &SERVE, TWO_PINGS)?);
    assert!(rt; are_served(&rt, rt.alloc(), &SERVE_BY_DEFAULT, PINGS_OF_A_DEFAULT)?);
    Ok(())
}

/// One worker, that has no thread of its own.
const SERVE_ALONE: [&str; 11] = [
    "serve",
    "@tutorial",
    "binary",
    "0",
    "Calculator=calculator",
    "--listen",
    "9090",
    "--accept",
    "10",
    "--journal",
    "calls.txt",
];

/// What is said behind the line that tells where the port is, as the first, the second and each later call of a kind fails, and at last none does.
type Ends = &'static [&'static [u8]];

const ENDS: [(Called, Ends); 3] = [
    (
        Called::Next,
        &[
            b"calls 0\nthriftd: net fault\n",
            b"conn 0 Stopped\ncalls 0\nthriftd: net fault\n",
            b"conn 0 Stopped\ncalls 1\nthriftd: net fault\n",
            b"conn 0 Stopped\ncalls 2\nthriftd: net fault\n",
            b"conn 0 End\ncalls 2\nthriftd: net fault\n",
            DONE,
        ],
    ),
    (
        Called::Read,
        &[
            b"conn 0 ReadFault\ncalls 0\n",
            b"conn 0 ReadFault\ncalls 1\n",
            b"conn 0 ReadFault\ncalls 2\n",
            DONE,
        ],
    ),
    (
        Called::Write,
        &[
            b"conn 0 WriteFault\ncalls 1\n",
            b"conn 0 WriteFault\ncalls 2\n",
            DONE,
        ],
    ),
];

const DONE: &[u8] = b"conn 0 End\ncalls 2\n";

/// More calls of a kind than there are.
const MANY: u64 = 20;

/// The first of these places, this one and the one after it, whose text is what is said behind that line, to the output and then as errors.
fn place_of(ended: &Ended, ends: Ends, at: usize) -> Option<usize> {
    let output = ended.output.as_slice();
    let said = output.strip_prefix(b"listening 127.0.0.1:9090\n".as_slice())?;
    for place in [at, at.saturating_add(1)] {
        let end: &[u8] = ends.get(place)?;
        if end.strip_prefix(said) == Some(ended.errors.as_slice()) {
            return Some(place);
        }
    }
    None
}

/// Whether each of these is said, in this order, as each call of a kind fails in turn, and nothing else.
fn ends_in_turn<R: Threads + Wait + Sync>(
    rt: &R,
    alloc: Global,
    kind: Called,
    ends: Ends,
) -> Result<bool, AllocError> {
    let mut at: usize = 0;
    for call in 0..MANY {
        let ended = served(rt, alloc, &SERVE_ALONE, TWO_PINGS, Some((kind, call)))?;
        match place_of(&ended, ends, at) {
            Some(place) => at = place,
            None => return Ok(false),
        }
    }
    Ok(at.saturating_add(1) == ends.len())
}

/// Sees that of each of these kinds.
fn each_ends_in_turn<R: Abort + Threads + Wait + Sync>(
    rt: &R,
    alloc: Global,
    kinds: &[(Called, Ends)],
) -> Result<(), Fail> {
    for (kind, ends) in kinds {
        assert!(rt; ends_in_turn(rt, alloc, *kind, ends)?, "{ends:?}");
    }
    Ok(())
}

#[test]
fn each_call_on_links_may_fail(rt: HostRuntime) -> Result<(), Fail> {
    each_ends_in_turn(&rt, rt.alloc(), &ENDS)
}

/// The same for one connection.
const SERVE_ONE: [&str; 11] = [
    "serve",
    "@tutorial",
    "binary",
    "0",
    "Calculator=calculator",
    "--listen",
    "9090",
    "--accept",
    "1",
    "--journal",
    "calls.txt",
];

/// How many times `ping` is called: its lines are more than the journal's buffer has room for, and less than twice as many.
const PINGS: u64 = 3_000;

/// A connection with these calls.
fn many_pings(alloc: Global) -> Result<Vec<u8>, AllocError> {
    let mut script = b"open\ndata 0 ".to_vec(alloc)?;
    for _ in 0..PINGS {
        script.extend_from_slice(b"00000011800100010000000470696e670000000000")?;
    }
    script.extend_from_slice(b"\nend 0\n")?;
    Ok(script)
}

/// Their lines.
fn many_lines(alloc: Global) -> Result<Vec<u8>, AllocError> {
    let mut lines = Vec::new(alloc);
    for i in 0..PINGS {
        lines.extend_from_slice(b"call 0 ")?;
        decimal(&mut lines, i128::from(i))?;
        lines.extend_from_slice(b" 0 ping {} empty\n")?;
    }
    Ok(lines)
}

/// Where a write of the journal with this number fails: the status, how the summary begins, and how many bytes of the lines stand in the file.
type Lost = (u64, Status, &'static [u8], usize);

const JOURNALS: [Lost; 3] = [
    (
        0,
        Status::JournalFault,
        b"listening 127.0.0.1:9090\nconn 0 Stopped\ncalls ",
        0,
    ),
    (
        1,
        Status::JournalFault,
        b"listening 127.0.0.1:9090\nconn 0 End\ncalls 3000\n",
        65_536,
    ),
    (
        2,
        Status::Done,
        b"listening 127.0.0.1:9090\nconn 0 End\ncalls 3000\n",
        usize::MAX,
    ),
];

/// Whether these calls come to that.
fn is_lost_so<R: Threads + Wait + Sync>(
    rt: &R,
    alloc: Global,
    row: &Lost,
) -> Result<bool, AllocError> {
    let (script, lines) = (many_pings(alloc)?, many_lines(alloc)?);
    let failing = Some((Called::Journal, row.0));
    let ended = served(rt, alloc, &SERVE_ONE, script.as_slice(), failing)?;
    let (front, _) = lines.as_slice().split_at(row.3.min(lines.len()));
    Ok(
        ended.status == row.1
            && ended.output.as_slice().starts_with(row.2)
            && ended.journal.as_slice() == front,
    )
}

/// Sees that of each of these writes.
fn each_is_lost_so<R: Abort + Threads + Wait + Sync>(
    rt: &R,
    alloc: Global,
    rows: &[Lost],
) -> Result<(), Fail> {
    for row in rows {
        assert!(rt; is_lost_so(rt, alloc, row)?, "{}", row.0);
    }
    Ok(())
}

#[test]
fn each_write_of_a_journal_may_fail(rt: HostRuntime) -> Result<(), Fail> {
    each_is_lost_so(&rt, rt.alloc(), &JOURNALS)
}

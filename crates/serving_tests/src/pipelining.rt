//! A client that sends many calls at once doesn't keep another one waiting for all of them.

ghost use Rattle.std.specs.Prelude.{◌≤◌};

use crate::running::{NEVER, Run, served};
use conn_table::Outcome;
use std::alloc::{AllocError, Global};
use std::sync::Wait;
use std::test::Fail;
use std::thread::Threads;
use streams::{Cursor, MarkAt};

/// So many calls stand one behind the other on connection 0: more than rounds that a line of the script begins collect, so that the loop has to wake itself.
const CALLS: usize = 3_000;

/// A script of two connections: all calls of the first come at once, and then the second is opened and calls once.
fn script_text(alloc: Global) -> Result<Vec<u8>, AllocError> {
    let mut text = Vec::new(alloc);
    text.extend_from_slice(b"open\ndata 0 ")?;
    for _ in 0..CALLS {
        text.extend_from_slice(b"0000000105")?;
    }
    text.extend_from_slice(b"\nopen\ndata 1 0000000107\nend 0\nend 1\n")?;
    Ok(text)
}

/// Whether connection 0 is read after a read of connection 1.
fn goes_on_behind_the_other<'a>(mut marks: Cursor<'a>) -> bool {
    let mut other = false;
    for _ in 0..NEVER {
        match marks.next() {
            Some(MarkAt::Read(1, _)) => other = true,
            Some(MarkAt::Read(0, _)) => {
                if other {
                    return true;
                }
            }
            Some(_) => {}
            None => return false,
        }
    }
    false
}

/// Whether a run has all calls, and reads on behind the other connection.
fn has_all_calls(run: &Run) -> bool {
    run.served.outcome == Outcome::All
        && run.served.journal.keys.len() == CALLS + 1
        && run.links.out(0).len() == 5 * CALLS
        && run.links.out(1) == b"\0\0\0\x01\x07".as_slice()
        && goes_on_behind_the_other(run.links.tape())
}

/// Whether the script is served so by so many workers.
fn lets_another_be_answered<R: Threads + Wait + Sync>(
    rt: &R,
    alloc: Global,
    text: &[u8],
    workers: u32,
) -> bool
    requires { workers ≤ 8 }
{
    match served(rt, alloc, text, workers, NEVER, NEVER) {
        Some(run) => has_all_calls(&run),
        None => false,
    }
}

#[test]
fn many_calls_at_once_let_another_be_answered(rt: HostRuntime) -> Result<(), Fail> {
    let text = script_text(rt.alloc())?;
    assert!(rt; lets_another_be_answered(&rt, rt.alloc(), text.as_slice(), 0));
    assert!(rt; lets_another_be_answered(&rt, rt.alloc(), text.as_slice(), 2));
    Ok(())
}

//! A run that the journal or the links end: what is open is stopped, and no call is replied to that isn't in the journal.

ghost use Rattle.std.specs.Prelude.{◌≤◌};

use crate::running::{NEVER, Run, served};
use conn_table::Outcome;
use host_model::EndCause;
use std::alloc::Global;
use std::sync::Wait;
use std::test::Fail;
use std::thread::Threads;

/// Four calls on each of three connections: the input of the first ends after them, that of the second inside a size, and the third sends a size that is too large.
const TWELVE_CALLS: &[u8] =
    b"open\nopen\nopen\ndata 0 00000001050000000106\ndata 1 0000000115\ndata 2 000000012500000001260000000127\ndata 0 00000001070000000108\n\
data 1 0000000116000000011700000001180000\ndata 2 000000012800000009\nend 0\nend 1\nend 2\n";

/// How many calls there are.
const CALLS: usize = 12;

/// How often the links are asked at least: once for each line, and once more.
const ASKS: usize = 13;

/// By what each connection ends where nothing fails.
const CAUSES: [EndCause; 3] = [EndCause::End, EndCause::Cut, EndCause::SizeFault(9)];

/// What is written to each connection then.
const REPLIES: [&[u8]; 3] = [
    b"\0\0\0\x01\x05\0\0\0\x01\x06\0\0\0\x01\x07\0\0\0\x01\x08",
    b"\0\0\0\x01\x15\0\0\0\x01\x16\0\0\0\x01\x17\0\0\0\x01\x18",
    b"\0\0\0\x01\x25\0\0\0\x01\x26\0\0\0\x01\x27\0\0\0\x01\x28",
];

/// Whether each connection ended by its cause, or was stopped.
fn has_its_ends(run: &Run) -> bool {
    for (end, cause) in run.served.ends.as_slice().iter().zip(&CAUSES) {
        if *end != *cause && *end != EndCause::Stopped {
            return false;
        }
    }
    true
}

/// How many calls of a connection are in the journal, if they are its first ones in their order.
fn calls_of(run: &Run, c: u32) -> Option<u64> {
    let mut calls = 0u64;
    for key in run.served.journal.keys.as_slice() {
        if key.c == c {
            if key.i != calls {
                return None;
            }
            calls = calls.saturating_add(1);
        }
    }
    Some(calls)
}

/// Whether each connection was sent replies to its first calls, and to none that isn't in the journal.
fn has_its_replies(run: &Run) -> bool {
    for (replies, c) in REPLIES.iter().zip(0u32..) {
        let out = run.links.out(c);
        match calls_of(run, c) {
            Some(calls) if out.len() as u64 <= calls.saturating_mul(5) => {
                if !replies.starts_with(out) {
                    return false;
                }
            }
            _ => return false,
        }
    }
    true
}

/// Whether the outcome is that of a fault that there was, or else all was done.
fn came_out_so(run: &Run, append: usize) -> bool {
    let served = &run.served;
    if served.journal.torn && served.journal.keys.len() != append {
        return false;
    }
    match served.outcome {
        Outcome::All => {
            !served.journal.torn
                && !run.is_broken
                && served.journal.keys.len() == CALLS
                && served.ends.as_slice() == CAUSES.as_slice()
        }
        Outcome::JournalFault => served.journal.torn,
        Outcome::NetFault => run.is_broken,
        Outcome::NoMemory => false,
    }
}

/// Whether a run comes out right where the journal fails at this append, and the links at this ask.
fn stops_right<R: Threads + Wait + Sync>(
    rt: &R,
    alloc: Global,
    workers: u32,
    append: usize,
    ask: usize,
) -> bool
    requires { workers ≤ 8 }
{
    match served(rt, alloc, TWELVE_CALLS, workers, append, ask) {
        Some(run) => came_out_so(&run, append) && has_its_ends(&run) && has_its_replies(&run),
        None => false,
    }
}

/// Whether that holds of each append and each ask, and where nothing fails.
fn all_stop_right<R: Threads + Wait + Sync>(rt: &R, alloc: Global, workers: u32) -> bool
    requires { workers ≤ 8 }
{
    for append in 0..=CALLS {
        for ask in 0..=ASKS {
            let ask = if ask < ASKS { ask } else { NEVER };
            if !stops_right(rt, alloc, workers, append, ask) {
                return false;
            }
        }
    }
    true
}

#[test]
fn a_journal_and_links_that_fail_stop_what_is_open(rt: HostRuntime) -> Result<(), Fail> {
    assert!(rt; all_stop_right(&rt, rt.alloc(), 0));
    assert!(rt; all_stop_right(&rt, rt.alloc(), 4));
    Ok(())
}

/// Whether the first of two calls on a connection is replied to, and the second, whose append fails, is not.
fn replies_to_the_first<R: Threads + Wait + Sync>(rt: &R, alloc: Global, workers: u32) -> bool
    requires { workers ≤ 8 }
{
    let text = b"open\ndata 0 00000001050000000106\nend 0\n";
    match served(rt, alloc, text, workers, 1, NEVER) {
        Some(run) => {
            run.served.outcome == Outcome::JournalFault
                && run.served.journal.keys.len() == 1
                && run.served.ends.as_slice() == [EndCause::Stopped].as_slice()
                && run.links.out(0) == b"\0\0\0\x01\x05".as_slice()
        }
        None => false,
    }
}

#[test]
fn a_call_whose_append_fails_has_no_reply(rt: HostRuntime) -> Result<(), Fail> {
    assert!(rt; replies_to_the_first(&rt, rt.alloc(), 0));
    assert!(rt; replies_to_the_first(&rt, rt.alloc(), 4));
    Ok(())
}

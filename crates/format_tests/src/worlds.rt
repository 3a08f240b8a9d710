//! A table of small examples, whose expected values are worked out by hand.

use host_model::Key;
use plain_machine::{
    Decided, PlainDesk, PlainEntry, PlainServices, after, called, entries_of, input, is_legal,
    marks_of, output, sent, split,
};
use std::alloc::{AllocError, Global};
use std::process::Abort;
use std::test::Fail;
use streams::{Bytes, EnvelopeFault, Mark};

/// The desk of the examples: call 10 is replied to with its answer, twice, and call 11 isn't.
struct Tiny;

impl PlainDesk for Tiny {
    ghost use Rattle.host_model.specs.TinyDesk.{tiny_desk};

    type Call = u8;

    type Answer = u8;

    ghost desk = { λ _. tiny_desk };

    fn decide(&self, alloc: Global, payload: &[u8]) -> Result<Decided<u8>, AllocError> {
        match payload {
            [] => Ok(Decided::Passed),
            [1, ..] => Ok(Decided::Called(10)),
            [2, ..] => Ok(Decided::Replied(Bytes::new(Vec::from_slice(alloc, &[20, 21])?))),
            [3, ..] => Ok(Decided::Passed),
            [4, ..] => Ok(Decided::Refused(EnvelopeFault::Short)),
            _ => Ok(Decided::Called(11)),
        }
    }

    fn is_silent(&self, call: u8) -> bool {
        call == 11
    }

    fn reply(&self, alloc: Global, _payload: &[u8], answer: u8) -> Result<Vec<u8>, AllocError> {
        Vec::from_slice(alloc, &[answer, answer])
    }
}

/// Two services, whose answer is the number of their calls before, and which start again after 255.
struct Counting;

impl PlainServices for Counting {
    ghost use Rattle.std.specs.Prelude.{◌+◌, ◌-◌, ◌%◌};

    type Call = u8;

    type Answer = u8;

    type Memory = u8;

    ghost rules = { λ _. record { slot = λ call. call - 10; rule = λ call count. (count, (count + 1) % 256) } };

    fn slot(&self, call: u8) -> usize {
        call.saturating_sub(10) as usize
    }

    fn rule(&self, _call: u8, count: u8) -> (u8, u8) {
        (count, count.wrapping_add(1))
    }

    fn is_same(&self, answer: u8, other: u8) -> bool {
        answer == other
    }
}

/// Whether a connection has so many marks, and read and wrote these bytes.
fn has_done(
    alloc: Global,
    c: u32,
    count: usize,
    read: &[u8],
    written: &[u8],
) -> Result<bool, AllocError> {
    let tape = tape(alloc)?;
    let own = marks_of(alloc, c, tape.as_slice())?;
    let is_counted = own.len() == count;
    let is_read = input(alloc, own.as_slice())?.as_slice() == read;
    let is_written = output(alloc, own.as_slice())?.as_slice() == written;
    Ok(is_counted && is_read && is_written)
}

#[test]
fn a_table_of_small_examples(rt: HostRuntime) -> Result<(), Fail> {
    let alloc = rt.alloc();
    frames_and_rests(&rt, alloc)?;
    calls_and_replies(&rt, alloc)?;
    histories(&rt, alloc)?;
    assert!(rt; has_done(alloc, 0, 5, b"abd", b"z")?);
    assert!(rt; has_done(alloc, 1, 3, b"c", b"yx")?);
    assert!(rt; has_done(alloc, 2, 0, b"", b"")?);
    Ok(())
}

fn frames_and_rests<R: Abort>(rt: &R, alloc: Global) -> Result<(), Fail> {
    splits(rt, alloc, b"", &[], 0)?;
    splits(
        rt,
        alloc,
        b"\0\0\0\x01a\0\0\0\x02bc\0\0\0",
        &[b"a", b"bc"],
        11,
    )?;
    splits(rt, alloc, b"\0\0\0\x01a\0\0\0\0\0\0\0\x01b", &[b"a"], 5)?;
    splits(rt, alloc, b"\0\0\0\x03abc", &[], 0)?;
    splits(rt, alloc, b"\0\0\0\x02a", &[], 0)?;
    splits(rt, alloc, b"\xff\xff\xff\xffab", &[], 0)
}

/// Whether these payloads were found.
fn are_payloads(found: &[Vec<u8>], payloads: &[&[u8]]) -> bool {
    if found.len() != payloads.len() {
        return false;
    }
    for (payload, expected) in found.iter().zip(payloads) {
        if payload.as_slice() != *expected {
            return false;
        }
    }
    true
}

/// The bytes are the frames of these payloads, of two bytes at most, and a rest that begins at `at`.
fn splits<R: Abort>(
    rt: &R,
    alloc: Global,
    bytes: &[u8],
    payloads: &[&[u8]],
    at: usize,
) -> Result<(), Fail> {
    let (found, rest) = split(alloc, 2, bytes)?;
    assert!(rt; rest == at && are_payloads(found.as_slice(), payloads));
    Ok(())
}

/// Whether these payloads call so.
fn calls(alloc: Global, payloads: &[Vec<u8>], wanted: &[(u64, u8)]) -> Result<bool, AllocError> {
    let found = called(alloc, &Tiny, payloads)?;
    Ok(found.as_slice() == wanted)
}

/// Whether these entries answer these payloads so.
fn sends(
    alloc: Global,
    entries: &[PlainEntry<u8, u8>],
    payloads: &[Vec<u8>],
    wanted: &[u8],
) -> Result<bool, AllocError> {
    let found = sent(alloc, &Tiny, entries, payloads)?;
    Ok(found.as_slice() == wanted)
}

/// Whether a connection has so many of these entries.
fn has_entries(
    alloc: Global,
    c: u32,
    entries: &[PlainEntry<u8, u8>],
    count: usize,
) -> Result<bool, AllocError> {
    let found = entries_of(alloc, c, entries)?;
    Ok(found.len() == count)
}

fn calls_and_replies<R: Abort>(rt: &R, alloc: Global) -> Result<(), Fail> {
    let bytes = b"\0\0\0\x01\x01\0\0\0\x01\x02\0\0\0\x01\x03\0\0\0\x01\x05\0\0\0\x01\x01";
    let (payloads, _) = split(alloc, 2, bytes)?;
    assert!(rt; calls(alloc, payloads.as_slice(), &[(0, 10), (3, 11), (4, 10)])?);
    let entries = [entry(0, 10, 5), entry(3, 11, 6), entry(4, 10, 7)];
    assert!(rt; has_entries(alloc, 0, &entries, 3)?);
    assert!(rt; has_entries(alloc, 1, &entries, 0)?);
    assert!(rt; sends(alloc, &entries[..2], payloads.as_slice(), &[5, 5, 20, 21])?);
    assert!(rt; sends(alloc, &entries, payloads.as_slice(), &[5, 5, 20, 21, 7, 7])?);
    Ok(())
}

/// An entry of connection 0.
fn entry(number: u64, call: u8, answer: u8) -> PlainEntry<u8, u8> {
    PlainEntry {
        key: Key { c: 0, i: number },
        call,
        answer,
    }
}

fn histories<R: Abort>(rt: &R, alloc: Global) -> Result<(), Fail> {
    leaves(rt, alloc, &[], true, &[5, 255])?;
    leaves(
        rt,
        alloc,
        &[
            entry(0, 10, 5),
            entry(1, 11, 255),
            entry(2, 10, 6),
            entry(3, 11, 0),
        ],
        true,
        &[7, 1],
    )?;
    leaves(
        rt,
        alloc,
        &[entry(0, 10, 5), entry(1, 10, 5)],
        false,
        &[7, 255],
    )?;
    leaves(rt, alloc, &[entry(0, 12, 0)], false, &[5, 255])
}

/// From 5 and 255 calls before, this journal is legal or isn't, and leaves these memories.
fn leaves<R: Abort>(
    rt: &R,
    alloc: Global,
    journal: &[PlainEntry<u8, u8>],
    legal: bool,
    memories: &[u8],
) -> Result<(), Fail> {
    let mut now = [5, 255];
    assert!(rt; is_legal(alloc, &Counting, &now, journal)? == legal);
    after(&Counting, &mut now, journal);
    assert!(rt; now.as_slice() == memories);
    Ok(())
}

/// What two connections were seen to do: a letter for the kind, the connection and the bytes.
const TAPE: [(u8, u32, &[u8]); 8] = [
    (b'o', 0, b""),
    (b'r', 0, b"ab"),
    (b'r', 1, b"c"),
    (b'w', 0, b"z"),
    (b'w', 1, b"yx"),
    (b'r', 0, b"d"),
    (b'e', 1, b""),
    (b'c', 0, b""),
];

fn mark(alloc: Global, kind: u8, c: u32, items: &[u8]) -> Result<Mark, AllocError> {
    match kind {
        b'o' => Ok(Mark::Opened(c)),
        b'e' => Ok(Mark::Ended(c)),
        b'c' => Ok(Mark::Closed(c)),
        b'r' => Ok(Mark::Read(c, bytes(alloc, items)?)),
        _ => Ok(Mark::Wrote(c, bytes(alloc, items)?)),
    }
}

fn tape(alloc: Global) -> Result<Vec<Mark>, AllocError> {
    let mut tape = Vec::new(alloc);
    for (kind, c, items) in &TAPE {
        tape.push(mark(alloc, *kind, *c, items)?)?;
    }
    Ok(tape)
}

fn bytes(alloc: Global, items: &[u8]) -> Result<Bytes, AllocError> {
    Ok(Bytes::new(Vec::from_slice(alloc, items)?))
}

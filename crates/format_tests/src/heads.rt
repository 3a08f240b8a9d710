//! Heads read and written, in either protocol. What is refused the program itself shows in rows/.

use crate::{compact_head_vectors, head_vectors};
use envelope::{HeadFault, Protocol, read_head, write_head};
use std::alloc::{AllocError, Global};
use std::test::Fail;
use streams::EnvelopeFault::{self, MessageType, Short};

/// The bytes of a payload, and of its head the name, the type, the sequence id and the place behind it.
type Row = (&'static [u8], &'static [u8], u8, i32, usize);

const HEADS: [Row; 7] = [
    (b"\x80\x01\0\x01\0\0\0\x04ping\0\0\0\0\0", b"ping", 1, 0, 16),
    (
        b"\x80\x01\0\x04\0\0\0\x03zip\xff\xff\xff\xff\0",
        b"zip",
        4,
        -1,
        15,
    ),
    // The byte between version and type says nothing.
    (
        b"\x80\x01\x7f\x01\0\0\0\0\x7f\xff\xff\xff",
        b"",
        1,
        i32::MAX,
        12,
    ),
    (
        b"\0\0\0\x03add\x01\0\0\0\x01\x08\0\x01\0\0\0\x01\x08\0\x02\0\0\0\x01\0",
        b"add",
        1,
        1,
        12,
    ),
    (b"\0\0\0\0\x04\x80\0\0\0", b"", 4, i32::MIN, 9),
    (
        b"\0\0\0\x01\0\x01\x01\x02\x03\x04\0",
        b"\0",
        1,
        0x0102_0304,
        10,
    ),
    (
        b"\x80\x01\0\x01\0\0\0\x03\xff\x80\0\0\0\0\x07",
        b"\xff\x80\0",
        1,
        7,
        15,
    ),
];

/// Whether the head of a row is read.
fn is_head(protocol: Protocol, alloc: Global, row: &Row) -> bool {
    match read_head(alloc, protocol, row.0) {
        Ok(head) => {
            let is_told = head.kind == row.2 && head.id == row.3 && head.behind == row.4;
            is_told && head.name.as_slice() == row.1
        }
        Err(_) => false,
    }
}

/// Whether this fault is found in a payload.
fn is_refused(protocol: Protocol, alloc: Global, payload: &[u8], fault: EnvelopeFault) -> bool {
    match read_head(alloc, protocol, payload) {
        Ok(_) => false,
        Err(found) => found == HeadFault::Envelope(fault),
    }
}

/// Whether a message is read as its row says; one of type 2 or 3 is a reply, and refused.
fn is_read_or_refused(protocol: Protocol, alloc: Global, row: &Row) -> bool {
    match row.2 {
        1 | 4 => is_head(protocol, alloc, row),
        2 | 3 => is_refused(protocol, alloc, row.0, MessageType(row.2)),
        _ => false,
    }
}

/// What is written of a head behind two dots; the dots alone where the name is long.
fn written(protocol: Protocol, alloc: Global, row: &Row) -> Result<Vec<u8>, AllocError> {
    let mut into = Vec::from_slice(alloc, b"..")?;
    if row.1.len() < 1000 {
        write_head(protocol, row.1, row.2, row.3, &mut into)?;
    }
    Ok(into)
}

/// Whether the head of a row is written as its payload begins, behind what was there.
fn is_written(protocol: Protocol, alloc: Global, row: &Row) -> Result<bool, AllocError> {
    let both = written(protocol, alloc, row)?;
    match both.as_slice().strip_prefix(b"..".as_slice()) {
        Some(head) => Ok(head.len() == row.4 && row.0.starts_with(head)),
        None => Ok(false),
    }
}

/// Whether a message of Apache's is read, and its head is written as it stands there, unless that is in the old form.
fn holds(protocol: Protocol, alloc: Global, row: &Row) -> Result<bool, AllocError> {
    if !is_read_or_refused(protocol, alloc, row) {
        return Ok(false);
    }
    if row.0.starts_with(b"\0") {
        return Ok(true);
    }
    is_written(protocol, alloc, row)
}

/// Whether all messages of Apache's hold.
fn all_hold(protocol: Protocol, alloc: Global, rows: &[Row]) -> Result<bool, AllocError> {
    for row in rows {
        if !holds(protocol, alloc, row)? {
            return Ok(false);
        }
    }
    Ok(true)
}

/// Whether the heads of all rows are read.
fn are_heads(alloc: Global, rows: &[Row]) -> bool {
    for row in rows {
        if !is_head(Protocol::Binary, alloc, row) {
            return false;
        }
    }
    true
}

#[test]
fn heads_are_read_and_written(rt: HostRuntime) -> Result<(), Fail> {
    assert!(rt; are_heads(rt.alloc(), &HEADS));
    assert!(rt; all_hold(Protocol::Binary, rt.alloc(), &head_vectors::MESSAGES)?);
    assert!(rt;
        all_hold(
            Protocol::Compact,
            rt.alloc(),
            &compact_head_vectors::MESSAGES
        )?
    );
    // No frame has a payload of no bytes.
    assert!(rt; is_refused(Protocol::Binary, rt.alloc(), b"", Short));
    assert!(rt; is_refused(Protocol::Compact, rt.alloc(), b"", Short));
    Ok(())
}

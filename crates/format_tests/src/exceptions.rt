//! Exceptions, in either protocol, byte for byte as Apache Thrift's own library writes them.

use crate::exception_vectors::{BINARY, COMPACT, Row};
use envelope::{Protocol, write_exception};
use std::alloc::{AllocError, Global};
use std::test::Fail;

// Whether a message is written as Apache's library writes it, behind one byte that was there before.
fn is_written(protocol: Protocol, alloc: Global, row: &Row) -> Result<bool, AllocError> {
    let (bytes, name, id, text, code) = row;
    if name.len() >= 1000 || text.len() >= 1000 {
        return Ok(false);
    }
    let mut into = vec![in alloc; 7]?;
    write_exception(protocol, name, *id, text, *code, &mut into)?;
    Ok(into.get(1..) == Some(*bytes))
}

// Whether all of them are.
fn are_written(protocol: Protocol, alloc: Global, rows: &[Row]) -> Result<bool, AllocError> {
    for row in rows {
        if !is_written(protocol, alloc, row)? {
            return Ok(false);
        }
    }
    Ok(true)
}

#[test]
fn exceptions_of_apache(rt: HostRuntime) -> Result<(), Fail> {
    assert!(rt; are_written(Protocol::Binary, rt.alloc(), &BINARY)?);
    assert!(rt; are_written(Protocol::Compact, rt.alloc(), &COMPACT)?);
    Ok(())
}

//! Structs of Apache's library, against what is read and written here, in either protocol.

use crate::struct_vectors::Row;
use envelope::Protocol;
use std::alloc::{AllocError, Global};
use thrift_value::{Raw, WireFault};
use value_text::put_value;

/// What reading the struct in front answers.
type Read = Result<(Raw, usize), WireFault>;

/// Reads the struct in front.
fn read_struct(protocol: Protocol, alloc: Global, bytes: &[u8]) -> Read {
    match protocol {
        Protocol::Binary => binary_codec::read_struct(alloc, bytes, 0),
        Protocol::Compact => compact_codec::read_struct(alloc, bytes, 0),
    }
}

/// What is written of the struct in front, in the binary protocol; nothing where it isn't tidy.
fn again_in_binary(alloc: Global, bytes: &[u8]) -> Result<Option<Vec<u8>>, WireFault> {
    let (value, _behind) = binary_codec::read_struct(alloc, bytes, 0)?;
    if !value.is_tidy() {
        return Ok(None);
    }
    let mut written = Vec::new(alloc);
    binary_codec::write_struct(&value, &mut written)?;
    Ok(Some(written))
}

/// The same in the compact protocol.
fn again_in_compact(alloc: Global, bytes: &[u8]) -> Result<Option<Vec<u8>>, WireFault> {
    let (value, _behind) = compact_codec::read_struct(alloc, bytes, 0)?;
    if !value.is_tidy() {
        return Ok(None);
    }
    let mut written = Vec::new(alloc);
    compact_codec::write_struct(&value, &mut written)?;
    Ok(Some(written))
}

/// Whether the struct that these bytes are is written as the same bytes.
fn is_written_again(protocol: Protocol, alloc: Global, bytes: &[u8]) -> bool {
    let written = match protocol {
        Protocol::Binary => again_in_binary(alloc, bytes),
        Protocol::Compact => again_in_compact(alloc, bytes),
    };
    match written {
        Ok(Some(written)) => written.as_slice() == bytes,
        _ => false,
    }
}

/// Whether a value has this tree.
fn has_tree(alloc: Global, value: &Raw, tree: &[u8]) -> Result<bool, AllocError> {
    let mut text = Vec::new(alloc);
    put_value(&mut text, value)?;
    Ok(text.as_slice() == tree)
}

/// Whether a struct is that of a row, and is written as its bytes.
fn is_of(protocol: Protocol, alloc: Global, value: &Raw, row: &Row) -> Result<bool, AllocError> {
    let (bytes, count, depth, tree) = row;
    if value.count() != *count || value.depth() != *depth || !has_tree(alloc, value, tree)? {
        return Ok(false);
    }
    Ok(is_written_again(protocol, alloc, bytes))
}

/// Whether a struct of Apache's is read as its tree, and written again byte for byte.
fn holds(protocol: Protocol, alloc: Global, row: &Row) -> Result<bool, AllocError> {
    match read_struct(protocol, alloc, row.0) {
        Ok((value, behind)) if behind == row.0.len() => is_of(protocol, alloc, &value, row),
        _ => Ok(false),
    }
}

/// Whether all of them are.
pub(crate) fn hold(protocol: Protocol, alloc: Global, rows: &[Row]) -> Result<bool, AllocError> {
    for row in rows {
        if !holds(protocol, alloc, row)? {
            return Ok(false);
        }
    }
    Ok(true)
}

/// Whether a struct was read as this tree, up to this place.
pub(crate) fn is_read_as(
    alloc: Global,
    read: Read,
    tree: &[u8],
    place: usize,
) -> Result<bool, AllocError> {
    match read {
        Ok((value, behind)) if behind == place => has_tree(alloc, &value, tree),
        _ => Ok(false),
    }
}

/// A struct that is read otherwise here: its bytes, its tree as Apache's library reads it, and as it is read here.
type Difference = (&'static [u8], &'static [u8], &'static [u8]);

/// Whether a struct is read as its tree here, which isn't Apache's.
pub(crate) fn is_read_otherwise(
    protocol: Protocol,
    alloc: Global,
    row: &Difference,
) -> Result<bool, AllocError> {
    if row.1 == row.2 {
        return Ok(false);
    }
    is_read_as(
        alloc,
        read_struct(protocol, alloc, row.0),
        row.2,
        row.0.len(),
    )
}

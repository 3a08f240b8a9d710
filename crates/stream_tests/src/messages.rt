//! Messages in pieces, and messages of many levels.

use limits::MOST_READ;
use std::alloc::{AllocError, Global};
use std::test::Fail;
use stream_model::{MessageProgress, StreamFault};
use stream_reader::MessageReader;
use thrift_value::WireFault;

/// Calls of `ping()`, of 17 bytes, and of `add(1, 1)`, of 30.
const TWO: &[u8] =
    b"\x80\x01\0\x01\0\0\0\x04ping\0\0\0\0\0\x80\x01\0\x01\0\0\0\x03add\0\0\0\x01\x08\0\x01\0\0\0\x01\x08\0\x02\0\0\0\x01\0";

/// Reads what is missing of the item under way, or what there is of it; answers the bytes behind it.
fn fed<'a>(reader: &mut MessageReader, bytes: &'a [u8]) -> Result<&'a [u8], AllocError> {
    let count = (reader.missing() as usize).min(MOST_READ).min(bytes.len());
    reader.reserve()?;
    let (front, back) = bytes.split_at(count);
    reader.take(front);
    Ok(back)
}

/// Reads all bytes, and notes the length of each message that ends in them.
fn fed_all(
    reader: &mut MessageReader,
    bytes: &[u8],
    lengths: &mut Vec<u32>,
) -> Result<(), AllocError> {
    let mut left = bytes;
    for _ in 0..bytes.len() {
        left = fed(reader, left)?;
        match reader.progress() {
            MessageProgress::Whole(length) => {
                lengths.push(length).ok().ok_or(AllocError)?;
                reader.clear();
            }
            MessageProgress::Wants(_) => {}
            MessageProgress::Refused(_, _) => return Ok(()),
        }
    }
    Ok(())
}

/// Whether the two messages end where they do, in two pieces.
fn are_two(alloc: Global, front: &[u8], back: &[u8]) -> Result<bool, AllocError> {
    let mut reader = MessageReader::new(alloc, 100)?;
    let mut lengths = Vec::new(alloc);
    fed_all(&mut reader, front, &mut lengths)?;
    fed_all(&mut reader, back, &mut lengths)?;
    Ok(lengths.as_slice() == [17, 30].as_slice() && reader.bytes().is_empty())
}

/// Whether they do at each cut.
fn are_two_at_each_cut(alloc: Global) -> Result<bool, AllocError> {
    for cut in 0..TWO.len() + 1 {
        let (front, back) = TWO.split_at(cut);
        if !are_two(alloc, front, back)? {
            return Ok(false);
        }
    }
    Ok(true)
}

/// A message of so many levels: a struct, and lists in one another.
fn nested(alloc: Global, levels: usize) -> Result<Vec<u8>, AllocError> {
    let mut bytes = Vec::from_slice(alloc, b"\0\0\0\0\x01\0\0\0\x01\x0f\0\x01")?;
    for _ in 2..levels {
        bytes.extend_from_slice(b"\x0f\0\0\0\x01")?;
    }
    bytes.extend_from_slice(b"\x02\0\0\0\0\0")?;
    Ok(bytes)
}

/// What becomes of a message of so many levels.
fn progress_of(alloc: Global, levels: usize) -> Result<MessageProgress, AllocError> {
    let bytes = nested(alloc, levels)?;
    let mut reader = MessageReader::new(alloc, 1000)?;
    let mut left = bytes.as_slice();
    for _ in 0..bytes.len() {
        left = fed(&mut reader, left)?;
    }
    Ok(reader.progress())
}

/// Whether a message of 64 levels is whole, all its 328 bytes, and one of 65 is refused behind the header of the list
/// at level 64.
fn levels_are_counted(alloc: Global) -> Result<bool, AllocError> {
    let MessageProgress::Whole(length) = progress_of(alloc, 64)? else {
        return Ok(false);
    };
    let MessageProgress::Refused(at, StreamFault::Body(WireFault::TooDeep)) = progress_of(
        alloc, 65,
    )?
    else {
        return Ok(false);
    };
    Ok(length == 328 && at == 327)
}

#[test]
fn two_messages_are_read_at_each_cut(rt: HostRuntime) -> Result<(), Fail> {
    assert!(rt; are_two_at_each_cut(rt.alloc())?);
    Ok(())
}

#[test]
fn sixty_four_levels_are_read(rt: HostRuntime) -> Result<(), Fail> {
    assert!(rt; levels_are_counted(rt.alloc())?);
    Ok(())
}

//! The marks of one connection, and the bytes that they say were read and written.

ghost use Rattle.std.specs.Prelude.{◌≡◌, IfOk};
ghost use Rattle.host_model.specs.Marks.{connection_of, marks_of, read_by, written_by, input, output};

use std::alloc::{AllocError, Global};
use streams::{Bytes, Mark};

/// The number of the connection that a mark is of.
fn connection_of(mark: &Mark) -> u32
    ensures { result ≡ connection_of mark.now }
{
    match mark {
        Mark::Opened(c)
        | Mark::Read(c, _)
        | Mark::Ended(c)
        | Mark::Wrote(c, _)
        | Mark::ReadFailed(c)
        | Mark::WriteFailed(c)
        | Mark::Closed(c) => *c,
    }
}

/// The same mark, in memory of its own.
fn copy_of(alloc: Global, mark: &Mark) -> Result<Mark, AllocError>
    ensures { IfOk result (λ copy. copy ≡ mark.now) }
{
    match mark {
        Mark::Opened(c) => Ok(Mark::Opened(*c)),
        Mark::Read(c, bytes) => Ok(Mark::Read(*c, same_bytes(alloc, bytes)?)),
        Mark::Ended(c) => Ok(Mark::Ended(*c)),
        Mark::Wrote(c, bytes) => Ok(Mark::Wrote(*c, same_bytes(alloc, bytes)?)),
        Mark::ReadFailed(c) => Ok(Mark::ReadFailed(*c)),
        Mark::WriteFailed(c) => Ok(Mark::WriteFailed(*c)),
        Mark::Closed(c) => Ok(Mark::Closed(*c)),
    }
}

/// The same bytes, in memory of their own.
fn same_bytes(alloc: Global, bytes: &Bytes) -> Result<Bytes, AllocError>
    ensures { IfOk result (λ copy. copy ≡ bytes.now) }
{
    Ok(Bytes::new(Vec::from_slice(alloc, bytes.as_slice())?))
}

/// The marks of the connection of this number.
#[tactic(auto, using(crate::proofs::Fronting::kept_all))]
pub fn marks_of(alloc: Global, c: u32, tape: &[Mark]) -> Result<Vec<Mark>, AllocError>
    ensures { IfOk result (λ own. own.items ≡ marks_of c tape.now) }
{
    let mut own = Vec::new(alloc);
    for mark in tape {
        if connection_of(mark) == c {
            own.push(copy_of(alloc, mark)?)?;
        }
    }
    Ok(own)
}

/// The bytes that a mark says were read.
fn read_by(mark: &Mark) -> &[u8]
    ensures { result.now ≡ read_by mark.now }
{
    match mark {
        Mark::Read(_, bytes) => bytes.as_slice(),
        Mark::Opened(_) => &[],
        Mark::Ended(_) => &[],
        Mark::Wrote(_, _) => &[],
        Mark::ReadFailed(_) => &[],
        Mark::WriteFailed(_) => &[],
        Mark::Closed(_) => &[],
    }
}

/// The bytes that a mark says were written.
fn written_by(mark: &Mark) -> &[u8]
    ensures { result.now ≡ written_by mark.now }
{
    match mark {
        Mark::Wrote(_, bytes) => bytes.as_slice(),
        Mark::Opened(_) => &[],
        Mark::Read(_, _) => &[],
        Mark::Ended(_) => &[],
        Mark::ReadFailed(_) => &[],
        Mark::WriteFailed(_) => &[],
        Mark::Closed(_) => &[],
    }
}

/// All bytes that marks say were read.
pub fn input(alloc: Global, marks: &[Mark]) -> Result<Vec<u8>, AllocError>
    ensures { IfOk result (λ bytes. bytes.items ≡ input marks.now) }
{
    let mut bytes = Vec::new(alloc);
    for mark in marks {
        bytes.extend_from_slice(read_by(mark))?;
    }
    Ok(bytes)
}

/// All bytes that marks say were written.
pub fn output(alloc: Global, marks: &[Mark]) -> Result<Vec<u8>, AllocError>
    ensures { IfOk result (λ bytes. bytes.items ≡ output marks.now) }
{
    let mut bytes = Vec::new(alloc);
    for mark in marks {
        bytes.extend_from_slice(written_by(mark))?;
    }
    Ok(bytes)
}

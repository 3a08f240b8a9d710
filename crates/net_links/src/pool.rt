//! Room for bytes that wait, in one piece of memory.

ghost use Rattle.std.specs.Prelude.{◌-◌, ◌≤◌, ◌<◌, length};

use std::alloc::{AllocError, Global};

/// The bytes of a block.
pub(crate) const BLOCK: usize = 16_384;

/// Blocks of bytes, each by the place of its first byte. Memory for all of them is taken at once, and those that were never given out are never touched.
#[derive(Drop)]
pub(crate) struct Pool {
    /// The bytes of the blocks that were given out at least once.
    bytes: Vec<u8>,
    /// The blocks among them that were given back, the last one given back on top, so that few are touched.
    free: Vec<usize>,
}

impl Pool {
    /// Makes so many blocks.
    pub(crate) fn new(alloc: Global, blocks: usize) -> Result<Pool, AllocError>
        requires { blocks ≤ 65536 }
    {
        Ok(Pool {
            bytes: Vec::with_capacity(alloc, blocks * BLOCK)?,
            free: Vec::with_capacity(alloc, blocks)?,
        })
    }

    /// Gives a block, where one is left; takes no memory.
    pub(crate) fn take(&mut self) -> Option<usize> {
        if let Some(start) = self.free.pop() {
            return Some(start);
        }
        let start = self.bytes.len();
        let end = start.checked_add(BLOCK)?;
        if end > self.bytes.capacity() {
            return None;
        }
        self.bytes.resize(end, 0).ok()?;
        Some(start)
    }

    /// Gives a block back.
    pub(crate) fn give(&mut self, start: usize) {
        let _ = self.free.push(start);
    }

    /// The bytes from one place on to another.
    pub(crate) fn part(&self, from: usize, to: usize) -> &[u8]
        requires { from ≤ to }
    {
        if to <= self.bytes.len() {
            &self.bytes.as_slice()[from..to]
        } else {
            &[]
        }
    }

    /// Gives the same bytes, to be written.
    pub(crate) fn room(&mut self, from: usize, to: usize) -> &mut [u8]
        requires { from ≤ to }
        ensures { length result.now ≤ to - from }
    {
        if to <= self.bytes.len() {
            &mut self.bytes.as_mut_slice()[from..to]
        } else {
            &mut []
        }
    }
}

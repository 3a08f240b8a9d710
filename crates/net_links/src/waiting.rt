//! Bytes of one link that wait, to be read or to be sent.

ghost use Rattle.std.specs.Prelude.{◌≡◌, ◌≤◌, ◌<◌, length, min};

use crate::pool::{BLOCK, Pool};

/// The bytes of a block from one place of the pool on to another. A block is held only while bytes stand in it.
#[derive(Drop)]
pub(crate) struct Waiting {
    /// The first byte that waits.
    from: usize,
    /// The place behind the last one.
    to: usize,
    /// The place behind the last byte of the block; 0 where none is held.
    end: usize,
    ghost ordered: { from ≤ to },
    ghost within: { to ≤ end },
}

impl Waiting {
    /// Nothing waits.
    pub(crate) fn new() -> Waiting {
        Waiting {
            from: 0,
            to: 0,
            end: 0,
        }
    }

    /// Whether nothing waits.
    pub(crate) fn is_empty(&self) -> bool {
        self.end == 0
    }

    /// The bytes that wait.
    pub(crate) fn bytes<'a>(&self, pool: &'a Pool) -> &'a [u8] {
        pool.part(self.from, self.to)
    }

    /// How many more may be put behind them.
    pub(crate) fn room(&self) -> usize {
        if self.is_empty() {
            return BLOCK;
        }
        self.end - self.to
    }

    /// The first bytes of the block that starts here wait now, in place of any before.
    pub(crate) fn hold(&mut self, start: usize, count: usize) {
        *self = Waiting {
            from: start,
            to: start.saturating_add(count.min(BLOCK)),
            end: start.saturating_add(BLOCK),
        };
    }

    /// So many bytes off the front don't wait any more. Where none is left, the block is given back.
    pub(crate) fn pass(&mut self, pool: &mut Pool, count: usize) {
        if count < self.to - self.from {
            self.from += count;
            return;
        }
        self.let_go(pool);
    }

    /// Nothing waits any more, and the block is given back.
    pub(crate) fn let_go(&mut self, pool: &mut Pool) {
        if !self.is_empty() {
            pool.give(self.end.saturating_sub(BLOCK));
        }
        *self = Waiting::new();
    }

    /// Copies bytes off the front to the front of `into`, and answers how many.
    pub(crate) fn take(&mut self, pool: &mut Pool, into: &mut [u8]) -> usize
        ensures { result ≤ length into.new }
    {
        let bytes = self.bytes(pool);
        let count = bytes.len().min(into.len());
        into[..count].copy_from_slice(&bytes[..count]);
        self.pass(pool, count);
        count
    }

    /// Puts bytes off the front of `bytes` behind those that wait, as far as there is room, and answers how many.
    pub(crate) fn put(&mut self, pool: &mut Pool, bytes: &[u8]) -> usize
        ensures { result ≤ length bytes.now }
    {
        if self.is_empty() {
            let Some(start) = pool.take() else {
                return 0;
            };
            self.hold(start, 0);
        }
        let room = pool.room(self.to, self.end);
        let count = bytes.len().min(room.len());
        room[..count].copy_from_slice(&bytes[..count]);
        self.to += count;
        count
    }
}

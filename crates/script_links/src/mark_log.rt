//! A tape that grows, and how many marks stand on it.

ghost use Rattle.std.specs.Prelude.{◌≡◌, ◌+◌, ◌<◌, ◌≤◌, [], ◌∷◌, ◌++◌, length, OnOk};
ghost use Rattle.streams.specs.Marks.{lent_mark, lent_bytes};

use std::alloc::{AllocError, Global};
use std::marker::Model;
use streams::{Cursor, MarkAt, Tape, TapeLog};

/// What happened so far, the oldest first, with room for more.
#[derive(Drop)]
pub struct MarkLog {
    /// The marks.
    log: TapeLog,
    /// How many there are.
    count: usize,
    /// For how many there is room in all.
    room: usize,
}

impl Model for MarkLog {
    ghost use Rattle.std.specs.Prelude.{◌≡◌, ◌≤◌, length};
    ghost use Rattle.streams.specs.Rows.{TapeView};

    ghost Value = { TapeView };

    ghost view = { λ t. record { items = t.log.items; capacity = t.room; spare = t.log.spare } };

    ghost invariant = { λ t. (t.count ≡ length t.log.items) × (t.room ≤ t.log.capacity) };
}

impl MarkLog {
    /// Makes a log of nothing; takes no memory.
    pub fn new(alloc: Global) -> Self
        ensures { result.items ≡ [] }
    {
        MarkLog {
            log: TapeLog::new(alloc),
            count: 0,
            room: 0,
        }
    }

    /// How many marks there are.
    pub fn len(&self) -> usize
        ensures { result ≡ length self.now.items }
    {
        self.count
    }

    /// Takes room for so many marks more.
    pub fn reserve(&mut self, additional: usize) -> Result<(), AllocError>
        ensures items { self.new.items ≡ self.old.items }
        ensures room { OnOk result (length self.new.items + additional ≤ self.new.capacity) }
        ensures more { self.old.capacity ≤ self.new.capacity }
        ensures spare { self.new.spare ≡ self.old.spare }
    {
        let Some(room) = self.count.checked_add(additional) else {
            return Err(AllocError);
        };
        self.log.reserve(additional)?;
        self.room = self.room.max(room);
        Ok(())
    }

    /// Takes room for so many bytes more.
    pub fn reserve_bytes(&mut self, additional: usize) -> Result<(), AllocError>
        ensures items { self.new.items ≡ self.old.items }
        ensures capacity { self.new.capacity ≡ self.old.capacity }
        ensures room { OnOk result (additional ≤ self.new.spare) }
    {
        self.log.reserve_bytes(additional)
    }

    /// Notes one thing more, for which there is room; takes no memory.
    pub fn push(&mut self, mark: MarkAt<'_>)
        requires room { length self.old.items < self.old.capacity }
        requires spare { length (lent_bytes mark) ≤ self.old.spare }
        ensures items { self.new.items ≡ self.old.items ++ lent_mark mark.entry ∷ [] }
        ensures capacity { self.new.capacity ≡ self.old.capacity }
    {
        self.log.push(mark);
        self.count += 1;
    }

    /// The marks, from the oldest one on.
    pub fn marks(&self) -> Cursor<'_>
        ensures { result ≡ self.now.items }
    {
        self.log.marks()
    }

    /// Gives all that happened; takes no memory.
    pub fn finish(self) -> Tape
        ensures { result ≡ self.items }
    {
        self.log.finish()
    }
}

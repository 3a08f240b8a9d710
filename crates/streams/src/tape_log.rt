//! A tape that grows.

ghost use Rattle.std.specs.Prelude.{◌≡◌, ◌+◌, ◌<◌, ◌≤◌, [], ◌∷◌, ◌++◌, length, OnOk, OnErr};
ghost use Rattle.streams.specs.Marks.{lent_mark, lent_bytes};

use crate::cursor::Cursor;
use crate::mark_at::MarkAt;
use crate::mark_row::MarkRow;
use crate::tape::Tape;
use std::alloc::{AllocError, Global};
use std::marker::Model;

/// What happened so far, the oldest first, with room for more.
#[derive(Drop)]
pub struct TapeLog {
    /// A row for each mark.
    rows: Vec<MarkRow>,
    /// The bytes of all marks, one behind another.
    bytes: Vec<u8>,
}

impl Model for TapeLog {
    ghost use Rattle.std.specs.Prelude.{◌≡◌, ◌-◌, length};
    ghost use Rattle.std.specs.Vec.{vec_capacity};
    ghost use Rattle.streams.specs.Rows.{TapeView, marks_in, bytes_owed};

    ghost Value = { TapeView };

    ghost view = { λ t. record {
      items = marks_in t.rows.items t.bytes.items;
      capacity = vec_capacity t.rows;
      spare = vec_capacity t.bytes - length t.bytes.items;
    } };

    ghost invariant = { λ t. bytes_owed t.rows.items ≡ length t.bytes.items };
}

impl TapeLog {
    /// Makes a log of nothing; takes no memory.
    pub fn new(alloc: Global) -> Self
        ensures { result.items ≡ [] }
    {
        TapeLog {
            rows: Vec::new(alloc),
            bytes: Vec::new(alloc),
        }
    }

    /// Takes room for so many marks more.
    pub fn reserve(&mut self, additional: usize) -> Result<(), AllocError>
        ensures items { self.new.items ≡ self.old.items }
        ensures room { OnOk result (length self.new.items + additional ≤ self.new.capacity) }
        ensures more { self.old.capacity ≤ self.new.capacity }
        ensures spare { self.new.spare ≡ self.old.spare }
    {
        self.rows.reserve(additional)
    }

    /// Takes room for so many bytes more.
    pub fn reserve_bytes(&mut self, additional: usize) -> Result<(), AllocError>
        ensures items { self.new.items ≡ self.old.items }
        ensures capacity { self.new.capacity ≡ self.old.capacity }
        ensures room { OnOk result (additional ≤ self.new.spare) }
        ensures more { self.old.spare ≤ self.new.spare }
    {
        self.bytes.reserve(additional)
    }

    /// Notes one thing more, for which there is room; takes no memory.
    pub fn push(&mut self, mark: MarkAt<'_>)
        requires room { length self.old.items < self.old.capacity }
        requires spare { length (lent_bytes mark) ≤ self.old.spare }
        ensures items { self.new.items ≡ self.old.items ++ lent_mark mark.entry ∷ [] }
        ensures capacity { self.new.capacity ≡ self.old.capacity }
        ensures spare { self.old.spare ≤ self.new.spare + length (lent_bytes mark.entry) }
    {
        let (row, bytes) = MarkRow::of(mark);
        let _ = self.bytes.extend_from_slice(bytes);
        self.rows.push_reserved(row);
    }

    /// The marks, from the oldest one on.
    pub fn marks(&self) -> Cursor<'_>
        ensures { result ≡ self.now.items }
    {
        Cursor::new(self.rows.as_slice(), self.bytes.as_slice())
    }

    /// Gives all that happened; takes no memory.
    pub fn finish(self) -> Tape
        ensures { result ≡ self.items }
    {
        Tape::new(self.rows, self.bytes)
    }
}

//! A tape that is whole.

ghost use Rattle.std.specs.Prelude.{◌≡◌, [], length};
ghost use Rattle.streams.specs.Rows.{marks_in, bytes_owed};

use crate::cursor::Cursor;
use crate::mark_row::MarkRow;
use std::alloc::Global;
use std::marker::Model;

/// What happened, the oldest first.
#[derive(Drop)]
pub struct Tape {
    /// A row for each mark.
    rows: Vec<MarkRow>,
    /// The bytes of all marks, one behind another.
    bytes: Vec<u8>,
}

impl Model for Tape {
    ghost use Rattle.std.specs.Prelude.{◌≡◌, List, length};
    ghost use Rattle.streams.specs.declared.marks.Mark.{Mark};
    ghost use Rattle.streams.specs.Rows.{marks_in, bytes_owed};

    ghost Value = { List Mark };

    ghost view = { λ t. marks_in t.rows.items t.bytes.items };

    ghost invariant = { λ t. bytes_owed t.rows.items ≡ length t.bytes.items };
}

impl Tape {
    /// Makes the tape of these rows; takes no memory.
    pub(crate) fn new(rows: Vec<MarkRow>, bytes: Vec<u8>) -> Self
        requires whole { bytes_owed rows.items ≡ length bytes.items }
        ensures { result ≡ marks_in rows.items bytes.items }
    {
        Tape { rows, bytes }
    }

    /// Makes a tape on which nothing happened; takes no memory.
    pub fn empty(alloc: Global) -> Self
        ensures { result ≡ [] }
    {
        Tape {
            rows: Vec::new(alloc),
            bytes: Vec::new(alloc),
        }
    }

    /// The marks, from the oldest one on.
    pub fn marks(&self) -> Cursor<'_>
        ensures { result ≡ self.now }
    {
        Cursor::new(self.rows.as_slice(), self.bytes.as_slice())
    }
}

//! The marks that are left of a tape.

ghost use Rattle.std.specs.Prelude.{◌≡◌, [], ◌∷◌, length, MatchOption};
ghost use Rattle.streams.specs.Rows.{marks_in, bytes_owed};
ghost use Rattle.streams.specs.Marks.{lent_mark};

use crate::mark_at::MarkAt;
use crate::mark_row::MarkRow;
use std::marker::Model;

/// The marks that are left, the oldest first.
#[derive(Drop)]
pub struct Cursor<'a> {
    /// Their rows.
    rows: &'a [MarkRow],
    /// Their bytes, one behind another.
    bytes: &'a [u8],
}

impl<'a> Model for Cursor<'a> {
    ghost use Rattle.std.specs.Prelude.{◌≡◌, List, length};
    ghost use Rattle.streams.specs.declared.marks.Mark.{Mark};
    ghost use Rattle.streams.specs.Rows.{marks_in, bytes_owed};

    ghost Value = { List Mark };

    ghost view = { λ t. marks_in t.rows.now t.bytes.now };

    ghost invariant = { λ t. bytes_owed t.rows.now ≡ length t.bytes.now };
}

impl<'a> Cursor<'a> {
    /// The marks of these rows.
    pub(crate) fn new(rows: &'a [MarkRow], bytes: &'a [u8]) -> Self
        requires whole { bytes_owed rows.now ≡ length bytes.now }
        ensures { result ≡ marks_in rows.now bytes.now }
    {
        Cursor { rows, bytes }
    }

    /// The oldest mark, where one is left.
    pub fn next(&mut self) -> Option<MarkAt<'a>>
        ensures { MatchOption result ((self.old ≡ []) × (self.new ≡ [])) (λ mark. self.old ≡ lent_mark mark ∷ self.new) }
    {
        let (row, rows) = self.rows.split_first()?;
        let (own, behind) = self.bytes.split_at(row.len);
        self.rows = rows;
        self.bytes = behind;
        Some(row.mark(own))
    }
}

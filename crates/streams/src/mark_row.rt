//! A mark without its bytes.

ghost use Rattle.std.specs.Prelude.{◌≡◌, [], length};
ghost use Rattle.streams.specs.Rows.{mark_of};
ghost use Rattle.streams.specs.Marks.{lent_mark, lent_bytes};

use crate::mark_at::MarkAt;

/// What happened.
#[derive(Clone, Copy)]
pub(crate) enum MarkKind {
    Opened,
    Read,
    Ended,
    Wrote,
    ReadFailed,
    WriteFailed,
    Closed,
}

/// A mark: what happened, on which connection, and how many bytes it has.
#[derive(Clone, Copy)]
pub(crate) struct MarkRow {
    pub kind: MarkKind,
    pub c: u32,
    pub len: usize,
}

/// A mark of no bytes.
fn bare<'a>(kind: MarkKind, c: u32) -> (MarkRow, &'a [u8])
    ensures row { result.0 ≡ record { kind = kind; c = c; len = 0 } }
    ensures bytes { result.1.now ≡ [] }
{
    (MarkRow { kind, c, len: 0 }, &[])
}

/// A mark of these bytes.
fn with_bytes(kind: MarkKind, c: u32, bytes: &[u8]) -> (MarkRow, &[u8])
    ensures row { result.0 ≡ record { kind = kind; c = c; len = length bytes.now } }
    ensures bytes { result.1.now ≡ bytes.now }
{
    (
        MarkRow {
            kind,
            c,
            len: bytes.len(),
        },
        bytes,
    )
}

impl MarkRow {
    /// The row of a mark, and its bytes.
    pub(crate) fn of<'a>(mark: MarkAt<'a>) -> (MarkRow, &'a [u8])
        ensures len { result.0.len ≡ length result.1.now }
        ensures bytes { result.1.now ≡ lent_bytes mark.entry }
        ensures mark { mark_of result.0 result.1.now ≡ lent_mark mark.entry }
    {
        match mark {
            MarkAt::Opened(c) => bare(MarkKind::Opened, c),
            MarkAt::Read(c, bytes) => with_bytes(MarkKind::Read, c, bytes),
            MarkAt::Ended(c) => bare(MarkKind::Ended, c),
            MarkAt::Wrote(c, bytes) => with_bytes(MarkKind::Wrote, c, bytes),
            MarkAt::ReadFailed(c) => bare(MarkKind::ReadFailed, c),
            MarkAt::WriteFailed(c) => bare(MarkKind::WriteFailed, c),
            MarkAt::Closed(c) => bare(MarkKind::Closed, c),
        }
    }

    /// The mark of a row with these bytes.
    pub(crate) fn mark(self, bytes: &[u8]) -> MarkAt<'_>
        ensures { lent_mark result ≡ mark_of self bytes.now }
    {
        match self.kind {
            MarkKind::Opened => MarkAt::Opened(self.c),
            MarkKind::Read => MarkAt::Read(self.c, bytes),
            MarkKind::Ended => MarkAt::Ended(self.c),
            MarkKind::Wrote => MarkAt::Wrote(self.c, bytes),
            MarkKind::ReadFailed => MarkAt::ReadFailed(self.c),
            MarkKind::WriteFailed => MarkAt::WriteFailed(self.c),
            MarkKind::Closed => MarkAt::Closed(self.c),
        }
    }
}

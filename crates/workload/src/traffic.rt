//! How many bytes a tape says were read and written. A count stands still at the end of its type.

ghost use Rattle.std.specs.Prelude.{◌≡◌, ◌-◌, ◌^◌, min, length};
ghost use Rattle.streams.specs.Marks.{lent_mark};
ghost use Rattle.host_model.specs.Marks.{input, output, read_by, written_by};

use streams::{MarkAt, Tape};

/// How many bytes were read.
pub fn bytes_read(tape: &Tape) -> u64
    ensures { result ≡ min (length (input tape.now)) (2 ^ 64 - 1) }
{
    let mut count: u64 = 0;
    let mut marks = tape.marks();
    'tape: while let Some(mark) = marks.next() {
        count = count.saturating_add(read_by(mark));
    }
    count
}

/// How many bytes were written.
pub fn bytes_written(tape: &Tape) -> u64
    ensures { result ≡ min (length (output tape.now)) (2 ^ 64 - 1) }
{
    let mut count: u64 = 0;
    let mut marks = tape.marks();
    'tape: while let Some(mark) = marks.next() {
        count = count.saturating_add(written_by(mark));
    }
    count
}

/// How many bytes a mark says were read.
fn read_by(mark: MarkAt<'_>) -> u64
    ensures { result ≡ length (read_by (lent_mark mark.entry)) }
{
    match mark {
        MarkAt::Read(_, bytes) => bytes.len() as u64,
        MarkAt::Opened(_) => 0,
        MarkAt::Ended(_) => 0,
        MarkAt::Wrote(_, _) => 0,
        MarkAt::ReadFailed(_) => 0,
        MarkAt::WriteFailed(_) => 0,
        MarkAt::Closed(_) => 0,
    }
}

/// How many bytes it says were written.
fn written_by(mark: MarkAt<'_>) -> u64
    ensures { result ≡ length (written_by (lent_mark mark.entry)) }
{
    match mark {
        MarkAt::Wrote(_, bytes) => bytes.len() as u64,
        MarkAt::Opened(_) => 0,
        MarkAt::Read(_, _) => 0,
        MarkAt::Ended(_) => 0,
        MarkAt::ReadFailed(_) => 0,
        MarkAt::WriteFailed(_) => 0,
        MarkAt::Closed(_) => 0,
    }
}

//! What was written to each connection of a run.

ghost use Rattle.std.specs.Prelude.{◌≡◌, ◌++◌, [], map, replicate, slice_index_or, slice_set, IfOk, OnOk};
ghost use Rattle.streams.specs.Marks.{lent_mark};
ghost use Rattle.cell_core.specs.Rehearsed.{AreWritten, rows_behind};

use lists::Listed;
use std::alloc::{AllocError, Global};
use streams::{Bytes, Cursor, MarkAt};

/// The bytes that were written to each connection, by number; contracts see a list of lists.
pub type Outs = Listed<Bytes>;

/// The bytes that these marks say were written to each of so many connections.
pub fn written(alloc: Global, mut marks: Cursor<'_>, count: usize) -> Result<Outs, AllocError>
    ensures { IfOk result (λ outs. AreWritten count marks.entry outs) }
{
    let mut all = rows(alloc, count)?;
    'walk: while let Some(mark) = marks.next() {
        add_mark(&mut all, mark)?;
    }
    let mut items = Vec::with_capacity(alloc, count)?;
    for row in all {
        items.push(Bytes::new(row))?;
    }
    Ok(Outs::new(items))
}

/// Makes so many empty rows.
fn rows(alloc: Global, count: usize) -> Result<Vec<Vec<u8>>, AllocError>
    ensures { IfOk result (λ all. map (λ row. row.items) all.items ≡ replicate count []) }
{
    let mut all = Vec::with_capacity(alloc, count)?;
    for _ in 0..count {
        all.push(Vec::new(alloc))?;
    }
    Ok(all)
}

/// What a mark says was written, where there is a row for it.
fn add_mark(all: &mut Vec<Vec<u8>>, mark: MarkAt<'_>) -> Result<(), AllocError>
    ensures { OnOk result (map (λ row. row.items) all.new.items ≡ rows_behind (map (λ row. row.items) all.old.items) (lent_mark mark.entry)) }
{
    match mark {
        MarkAt::Wrote(c, bytes) => add(all, c as usize, bytes),
        _ => Ok(()),
    }
}

/// Bytes more in a row, where there is one.
fn add(all: &mut Vec<Vec<u8>>, c: usize, bytes: &[u8]) -> Result<(), AllocError>
    ensures { OnOk result (map (λ row. row.items) all.new.items ≡ slice_set (map (λ row. row.items) all.old.items) c
        (slice_index_or (map (λ row. row.items) all.old.items) c [] ++ bytes.now)) }
{
    if let Some(row) = all.get_mut(c) {
        row.extend_from_slice(bytes)?;
    }
    Ok(())
}

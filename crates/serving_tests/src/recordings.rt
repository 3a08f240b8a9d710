//! A recorded connection that an office of the example answers with a mirror, where the journal or the output fails.

ghost use Rattle.std.specs.Prelude.{◌≡◌, length, IfOk};
ghost use Rattle.processor.specs.Offices.{plain_office};

use crate::faulty_journals::FaultyJournal;
use crate::offices::office;
use call_rules::Entry;
use conn_table::Limits;
use envelope::Protocol;
use house_handlers::Mirror;
use journal_text::put_entry;
use processor::Office;
use recorded_runs::ServingFault::{self, JournalFault, WriteFault};
use recorded_runs::answer_recorded;
use run_report::EntryLine;
use std::alloc::{AllocError, Global};
use std::test::Fail;
use streams::{MemSink, MemSource};

// A call of `f`, and one of `g`, which there isn't.
const CALLS: &[u8] = b"open\ndata 0 00000006822101016600000000068221\ndata 0 02016700\nend 0\n";

// The lines of entries.
struct Lines {}

impl EntryLine for Lines {
    ghost use Rattle.journal_text.specs.EntryText.{entry_text};

    ghost line = { entry_text };

    fn put(into: &mut Vec<u8>, entry: &Entry) -> Result<(), AllocError> {
        put_entry(into, entry)
    }
}

// The append at which the journal fails, the write of a byte at which the output does, why there is no report to its end, and what was written of it.
type Row = (usize, u64, ServingFault, &'static [u8]);

const ROWS: [Row; 5] = [
    (0, 1_000, JournalFault, b""),
    (1_000, 0, WriteFault, b""),
    (1_000, 1, WriteFault, b"t"),
    (1_000, 11, WriteFault, b"tape open 0"),
    (1_000, 26, WriteFault, b"tape open 0\ntape read 0 4\n"),
];

// One mirror.
pub(crate) fn one_mirror(alloc: Global) -> Result<Vec<Mirror>, AllocError>
    ensures { IfOk result (λ handlers. length handlers.items ≡ 1) }
{
    let mut handlers = Vec::new(alloc);
    handlers.push(Mirror::new())?;
    Ok(handlers)
}

// Whether the recorded calls, answered at this office, end as a row says.
fn ends_so(
    alloc: Global,
    input: &mut MemSource,
    output: &mut MemSink,
    desk: &Office,
    row: &Row,
) -> Result<bool, AllocError>
    requires one { length (plain_office desk.now).bindings ≡ 1 }
    requires longest { (plain_office desk.now).max_frame ≡ 268435456 }
{
    let handlers = one_mirror(alloc)?;
    let journal = FaultyJournal::new(alloc, row.0);
    let limits = Limits {
        max_frame: 268_435_456,
        read_budget: 268_435_456,
    };
    let answered = answer_recorded::<Lines, _, _, _, _, _>(
        alloc, input, output, desk, handlers, journal, 0, limits,
    );
    Ok(answered.result == Err(row.2))
}

// Whether they do at the office of the example.
fn ends_so_there(
    alloc: Global,
    input: &mut MemSource,
    output: &mut MemSink,
    row: &Row,
) -> Result<bool, AllocError> {
    let desk = office(alloc, Protocol::Compact)?;
    ends_so(alloc, input, output, &desk, row)
}

// Whether they come to what a row says, and this is written until then.
fn is_written_so(
    alloc: Global,
    input: &mut MemSource,
    fails: Vec<u64>,
    row: &Row,
) -> Result<bool, AllocError> {
    let mut output = MemSink::in_pieces(alloc, fails, 1);
    let is_told = ends_so_there(alloc, input, &mut output, row)?;
    let output = output.into_bytes();
    Ok(is_told && output.as_slice() == row.3)
}

// Whether recorded calls come to what a row says.
fn is_cut(alloc: Global, row: &Row) -> Result<bool, AllocError> {
    let mut input = MemSource::new(CALLS.to_vec(alloc)?, Vec::new(alloc));
    let fails = vec![in alloc; row.1]?;
    is_written_so(alloc, &mut input, fails, row)
}

#[test]
fn what_fails_ends_the_run(rt: HostRuntime) -> Result<(), Fail> {
    for row in &ROWS {
        assert!(rt; is_cut(rt.alloc(), row)?);
    }
    Ok(())
}

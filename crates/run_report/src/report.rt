//! The report of a run, which goes to a sink in pieces, so that its memory doesn't grow with the run.

ghost use Rattle.std.specs.Prelude.{◌≡◌, ◌<◌, ℕ, [], ◌++◌, codes, length, take, MatchResult, OnOk};
ghost use Rattle.streams.specs.Content.{told_more};
ghost use Rattle.streams.specs.Taken.{TakesText};
ghost use Rattle.text_out.specs.Hex.{hex_of};
ghost use Rattle.text_out.specs.Line.{line_of};
ghost use Rattle.host_model.specs.Report.{end_text, hex_or_dash, journal_lines, mark_text, numbered, report, tape_lines};
ghost use Rattle.streams.specs.Marks.{lent_mark};
ghost use Rattle.run_report.specs.Entries.{IsPlainEntry};
ghost use Rattle.run_report.specs.Written.{outputs, ended_lines};
ghost use Rattle.run_report.specs.Pieces.{HasReportCause};

use crate::entries::{EntryLine, ReportedJournal};
use crate::fault::ReportFault;
use crate::lines::{put_count, put_end, put_mark};
use call_rules::Entry;
use host_model::EndCause;
use std::alloc::Global;
use streams::{Bytes, MarkAt, Sink, Tape, write_all};
use text_out::hex;

/// How many bytes are pending at most before they are handed to the sink, a line aside.
pub(crate) const PIECE: usize = 65_536;

/// How many bytes are written in hexadecimal at a time.
const CHUNK: usize = 32_768;

/// Writes the report of a run: its tape, its journal, and what each connection, by its number, ended by and was sent.
#[tactic(auto, using(crate::proofs::Taking::taking))]
pub fn write_report<L: EntryLine, J: ReportedJournal, K: Sink>(
    alloc: Global,
    out: &mut K,
    tape: &Tape,
    journal: &J,
    causes: &[EndCause],
    written: &[Bytes],
) -> Result<(), ReportFault>
    requires written { written.now ≡ outputs tape.now 0 causes.now }
    ensures told { MatchResult result
        (λ _. K.taken out.new ≡ told_more (K.taken out.old) (report L.line tape.now (J.listed journal.now) causes.now))
        (λ _. (n : ℕ) × (K.taken out.new ≡ told_more (K.taken out.old) (take n (report L.line tape.now (J.listed journal.now) causes.now)))) }
    ensures cause { HasReportCause (K.faults out.old) (K.faults out.new) result }
{
    let mut pending = Vec::new(alloc);
    write_lines::<L, J, K>(out, &mut pending, tape, journal, causes, written)?;
    flush(out, &mut pending)
}

/// Writes the lines of the report, the last of which stay pending.
#[tactic(auto, using(crate::proofs::Taking::taking))]
fn write_lines<L: EntryLine, J: ReportedJournal, K: Sink>(
    out: &mut K,
    pending: &mut Vec<u8>,
    tape: &Tape,
    journal: &J,
    causes: &[EndCause],
    written: &[Bytes],
) -> Result<(), ReportFault>
    requires written { written.now ≡ outputs tape.now 0 causes.now }
    ensures told { TakesText (K.taken out.old) (K.taken out.new)
        (pending.old.items ++ report L.line tape.now (J.listed journal.now) causes.now) pending.new.items result }
    ensures cause { HasReportCause (K.faults out.old) (K.faults out.new) result }
{
    write_tape(out, pending, tape)?;
    write_journal::<L, J, K>(out, pending, journal)?;
    write_ends(out, pending, causes, written)?;
    write_count(out, pending, journal.count())
}

/// Writes the lines of the tape.
#[tactic(auto, using(crate::proofs::Taking::taking))]
fn write_tape<K: Sink>(out: &mut K, pending: &mut Vec<u8>, tape: &Tape) -> Result<(), ReportFault>
    ensures told { TakesText (K.taken out.old) (K.taken out.new)
        (pending.old.items ++ (tape_lines tape.now)) pending.new.items result }
    ensures cause { HasReportCause (K.faults out.old) (K.faults out.new) result }
{
    let mut marks = tape.marks();
    'tape: while let Some(mark) = marks.next() {
        write_mark(out, pending, mark)?;
    }
    Ok(())
}

/// Writes the line of a mark.
#[tactic(auto, using(crate::proofs::Taking::taking))]
fn write_mark<K: Sink>(
    out: &mut K,
    pending: &mut Vec<u8>,
    mark: MarkAt<'_>,
) -> Result<(), ReportFault>
    ensures told { TakesText (K.taken out.old) (K.taken out.new)
        (pending.old.items ++ (line_of (mark_text (lent_mark mark.entry)))) pending.new.items result }
    ensures few { OnOk result (length pending.new.items < PIECE) }
    ensures cause { HasReportCause (K.faults out.old) (K.faults out.new) result }
{
    put_mark(pending, mark)?;
    settle(out, pending)
}

/// Writes the lines of the journal.
#[tactic(auto, using(crate::proofs::Taking::taking))]
fn write_journal<L: EntryLine, J: ReportedJournal, K: Sink>(
    out: &mut K,
    pending: &mut Vec<u8>,
    journal: &J,
) -> Result<(), ReportFault>
    ensures told { TakesText (K.taken out.old) (K.taken out.new)
        (pending.old.items ++ (journal_lines L.line (J.listed journal.now))) pending.new.items result }
    ensures cause { HasReportCause (K.faults out.old) (K.faults out.new) result }
{
    for i in 0..journal.count() {
        let Some(entry) = journal.entry(i) else {
            unreachable!();
        };
        write_entry::<L, K>(out, pending, entry)?;
    }
    Ok(())
}

/// Writes the line of an entry.
#[tactic(auto, using(crate::proofs::Taking::taking))]
fn write_entry<L: EntryLine, K: Sink>(
    out: &mut K,
    pending: &mut Vec<u8>,
    entry: &Entry,
) -> Result<(), ReportFault>
    requires plain { IsPlainEntry entry.now }
    ensures told { TakesText (K.taken out.old) (K.taken out.new)
        (pending.old.items ++ (line_of (L.line entry.now))) pending.new.items result }
    ensures few { OnOk result (length pending.new.items < PIECE) }
    ensures cause { HasReportCause (K.faults out.old) (K.faults out.new) result }
{
    L::put(pending, entry)?;
    settle(out, pending)
}

/// Writes the lines of the connections: what each ended by, and all bytes that were written to it.
#[tactic(auto, using(crate::proofs::Taking::taking))]
fn write_ends<K: Sink>(
    out: &mut K,
    pending: &mut Vec<u8>,
    causes: &[EndCause],
    written: &[Bytes],
) -> Result<(), ReportFault>
    requires { length written.now ≡ length causes.now }
    ensures told { TakesText (K.taken out.old) (K.taken out.new)
        (pending.old.items ++ ended_lines 0 causes.now written.now) pending.new.items result }
    ensures cause { HasReportCause (K.faults out.old) (K.faults out.new) result }
{
    let mut c = 0;
    'ends: while c < causes.len() {
        write_end(out, pending, c as u64, causes[c], &written[c])?;
        c += 1;
    }
    Ok(())
}

/// Writes the line of a connection.
#[tactic(auto, using(crate::proofs::Taking::taking))]
fn write_end<K: Sink>(
    out: &mut K,
    pending: &mut Vec<u8>,
    c: u64,
    cause: EndCause,
    written: &Bytes,
) -> Result<(), ReportFault>
    ensures told { TakesText (K.taken out.old) (K.taken out.new)
        (pending.old.items ++ line_of (end_text c cause written.now)) pending.new.items result }
    ensures cause { HasReportCause (K.faults out.old) (K.faults out.new) result }
{
    put_end(pending, c, cause)?;
    write_sent(out, pending, written.as_slice())
}

/// Writes bytes in hexadecimal, or a dash where there are none, and a newline.
#[tactic(auto, using(crate::proofs::Taking::taking))]
fn write_sent<K: Sink>(out: &mut K, pending: &mut Vec<u8>, bytes: &[u8]) -> Result<(), ReportFault>
    ensures told { TakesText (K.taken out.old) (K.taken out.new)
        (pending.old.items ++ line_of (hex_or_dash bytes.now)) pending.new.items result }
    ensures cause { HasReportCause (K.faults out.old) (K.faults out.new) result }
{
    write_bytes(out, pending, bytes)?;
    pending.push(b'\n')?;
    Ok(())
}

/// Writes bytes in hexadecimal, or a dash where there are none.
#[tactic(auto, using(crate::proofs::Taking::taking))]
fn write_bytes<K: Sink>(out: &mut K, pending: &mut Vec<u8>, bytes: &[u8]) -> Result<(), ReportFault>
    ensures told { TakesText (K.taken out.old) (K.taken out.new)
        (pending.old.items ++ (hex_or_dash bytes.now)) pending.new.items result }
    ensures cause { HasReportCause (K.faults out.old) (K.faults out.new) result }
{
    if !bytes.is_empty() {
        return write_hex(out, pending, bytes);
    }
    pending.push(b'-')?;
    Ok(())
}

/// Writes bytes in hexadecimal, a chunk at a time.
#[tactic(auto, using(crate::proofs::Taking::taking))]
fn write_hex<K: Sink>(out: &mut K, pending: &mut Vec<u8>, bytes: &[u8]) -> Result<(), ReportFault>
    ensures told { TakesText (K.taken out.old) (K.taken out.new)
        (pending.old.items ++ (hex_of bytes.now)) pending.new.items result }
    ensures cause { HasReportCause (K.faults out.old) (K.faults out.new) result }
{
    let mut rest = bytes;
    'chunks: while !rest.is_empty() {
        let (chunk, behind) = rest.split_at(rest.len().min(CHUNK));
        write_chunk(out, pending, chunk)?;
        rest = behind;
    }
    Ok(())
}

/// Writes a chunk of bytes in hexadecimal.
#[tactic(auto, using(crate::proofs::Taking::taking))]
fn write_chunk<K: Sink>(out: &mut K, pending: &mut Vec<u8>, chunk: &[u8]) -> Result<(), ReportFault>
    ensures told { TakesText (K.taken out.old) (K.taken out.new)
        (pending.old.items ++ (hex_of chunk.now)) pending.new.items result }
    ensures few { OnOk result (length pending.new.items < PIECE) }
    ensures cause { HasReportCause (K.faults out.old) (K.faults out.new) result }
{
    hex(pending, chunk)?;
    settle(out, pending)
}

/// Writes the line of the number of calls.
#[tactic(auto, using(crate::proofs::Taking::taking))]
pub(crate) fn write_count<K: Sink>(
    out: &mut K,
    pending: &mut Vec<u8>,
    count: u64,
) -> Result<(), ReportFault>
    ensures told { TakesText (K.taken out.old) (K.taken out.new)
        (pending.old.items ++ (line_of (numbered (codes "calls") count))) pending.new.items result }
    ensures few { OnOk result (length pending.new.items < PIECE) }
    ensures cause { HasReportCause (K.faults out.old) (K.faults out.new) result }
{
    put_count(pending, count)?;
    settle(out, pending)
}

/// Hands what is pending to the sink where it is a piece or more.
#[tactic(auto, using(crate::proofs::Taking::taking))]
pub(crate) fn settle<K: Sink>(out: &mut K, pending: &mut Vec<u8>) -> Result<(), ReportFault>
    ensures told { TakesText (K.taken out.old) (K.taken out.new) pending.old.items pending.new.items result }
    ensures few { OnOk result (length pending.new.items < PIECE) }
    ensures cause { HasReportCause (K.faults out.old) (K.faults out.new) result }
{
    if pending.len() < PIECE {
        Ok(())
    } else {
        flush(out, pending)
    }
}

/// Hands all that is pending to the sink.
#[tactic(auto, using(crate::proofs::Taking::taking))]
pub(crate) fn flush<K: Sink>(out: &mut K, pending: &mut Vec<u8>) -> Result<(), ReportFault>
    ensures told { TakesText (K.taken out.old) (K.taken out.new) pending.old.items [] result }
    ensures empty { OnOk result (pending.new.items ≡ []) }
    ensures cause { HasReportCause (K.faults out.old) (K.faults out.new) result }
{
    write_all(out, pending.as_slice())?;
    pending.clear();
    Ok(())
}

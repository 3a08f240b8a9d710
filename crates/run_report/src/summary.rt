//! The summary of what was served at a port, which goes to a sink: a line once connections are awaited, and the others at the end.

ghost use Rattle.std.specs.Prelude.{◌≡◌, ◌<◌, [], ◌++◌, length, MatchResult, OnOk};
ghost use Rattle.streams.specs.Content.{told_more};
ghost use Rattle.streams.specs.Taken.{IsTakenInPart, TakesText};
ghost use Rattle.text_out.specs.Line.{line_of};
ghost use Rattle.run_report.specs.Summary.{listening_line, conn_text, conn_lines, summary_lines};
ghost use Rattle.run_report.specs.Pieces.{HasReportCause};

use crate::fault::ReportFault;
use crate::lines::{put_conn, put_listening};
use crate::report::{PIECE, flush, settle, write_count};
use host_model::EndCause;
use std::alloc::Global;
use streams::Sink;

/// Writes the line that tells at which port connections are awaited.
#[tactic(auto, using(crate::proofs::Taking::taking))]
pub fn write_listening<K: Sink>(alloc: Global, out: &mut K, port: u16) -> Result<(), ReportFault>
    ensures told { MatchResult result
        (λ _. K.taken out.new ≡ told_more (K.taken out.old) (listening_line port))
        (λ _. IsTakenInPart (K.taken out.old) (K.taken out.new) (listening_line port)) }
    ensures cause { HasReportCause (K.faults out.old) (K.faults out.new) result }
{
    let mut pending = Vec::new(alloc);
    put_listening(&mut pending, port)?;
    flush(out, &mut pending)
}

/// Writes the lines that tell what each connection, by its number, ended by, and how many calls there were.
#[tactic(auto, using(crate::proofs::Taking::taking))]
pub fn write_summary<K: Sink>(
    alloc: Global,
    out: &mut K,
    causes: &[EndCause],
    calls: u64,
) -> Result<(), ReportFault>
    ensures told { MatchResult result
        (λ _. K.taken out.new ≡ told_more (K.taken out.old) (summary_lines causes.now calls))
        (λ _. IsTakenInPart (K.taken out.old) (K.taken out.new) (summary_lines causes.now calls)) }
    ensures cause { HasReportCause (K.faults out.old) (K.faults out.new) result }
{
    let mut pending = Vec::new(alloc);
    write_ended(out, &mut pending, causes, calls)?;
    flush(out, &mut pending)
}

/// Writes those lines, the last of which stay pending.
#[tactic(auto, using(crate::proofs::Taking::taking))]
fn write_ended<K: Sink>(
    out: &mut K,
    pending: &mut Vec<u8>,
    causes: &[EndCause],
    calls: u64,
) -> Result<(), ReportFault>
    ensures told { TakesText (K.taken out.old) (K.taken out.new)
        (pending.old.items ++ summary_lines causes.now calls) pending.new.items result }
    ensures cause { HasReportCause (K.faults out.old) (K.faults out.new) result }
{
    write_conns(out, pending, causes)?;
    write_count(out, pending, calls)
}

/// Writes the lines of the connections.
#[tactic(auto, using(crate::proofs::Taking::taking))]
fn write_conns<K: Sink>(
    out: &mut K,
    pending: &mut Vec<u8>,
    causes: &[EndCause],
) -> Result<(), ReportFault>
    ensures told { TakesText (K.taken out.old) (K.taken out.new)
        (pending.old.items ++ conn_lines 0 causes.now) pending.new.items result }
    ensures cause { HasReportCause (K.faults out.old) (K.faults out.new) result }
{
    let mut c = 0;
    'conns: while c < causes.len() {
        write_conn(out, pending, c as u64, causes[c])?;
        c += 1;
    }
    Ok(())
}

/// Writes the line of a connection.
#[tactic(auto, using(crate::proofs::Taking::taking))]
fn write_conn<K: Sink>(
    out: &mut K,
    pending: &mut Vec<u8>,
    c: u64,
    cause: EndCause,
) -> Result<(), ReportFault>
    ensures told { TakesText (K.taken out.old) (K.taken out.new)
        (pending.old.items ++ line_of (conn_text c cause)) pending.new.items result }
    ensures few { OnOk result (length pending.new.items < PIECE) }
    ensures cause { HasReportCause (K.faults out.old) (K.faults out.new) result }
{
    put_conn(pending, c, cause)?;
    pending.push(b'\n')?;
    settle(out, pending)
}

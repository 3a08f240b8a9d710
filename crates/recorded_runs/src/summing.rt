//! A run of a workload, summed up.

ghost use Rattle.std.specs.Prelude.{◌≡◌, ◌≢◌, ◌≤◌, List, length, Some, Err, IfOk};
ghost use Rattle.streams.specs.Cause.{Rose};
ghost use Rattle.host_model.specs.declared.cause.EndCause.TheVariants.{NoMemory as RanOut};
ghost use Rattle.conn_table.specs.declared.run_limits.Outcome.TheVariants as outcomes;
ghost use Rattle.call_rules.specs.Entries.{CallEntry};
ghost use Rattle.recorded_runs.specs.declared.fault.ServingFault.TheVariants as faults;
ghost use Rattle.recorded_runs.specs.Answered.{HasNone};
ghost use Rattle.workload.specs.ExpectedRun.{work_text};
ghost use Rattle.workload.specs.SummaryText.{sum_of_answers};
ghost use Rattle.workload.specs.Summed.{ComesToSum};
ghost use Rattle.recorded_runs.specs.Summaries.{WritesSummary, is_want, some_ran_out};

use crate::ServingFault;
use crate::workloads::Work;
use call_rules::Handler;
use conn_table::Outcome;
use host_loop::Served;
use host_model::EndCause;
use run_report::ReportedJournal;
use std::alloc::{AllocError, Global};
use streams::{Sink, Tape, write_all};
use workload::{Summary, answer_adds, bytes_read, bytes_written, print_summary};

/// Writes the summary of a run that came to its end, where no connection ran out of memory.
pub(crate) fn sum_up<H: Handler, J: ReportedJournal, K: Sink>(
    alloc: Global,
    out: &mut K,
    tape: &Tape,
    run: &Served<H, J>,
    work: Work,
) -> Result<(), ServingFault>
    requires most { work.size ≤ 1000000 }
    requires comes { run.now.outcome ≡ outcomes.All → (entries : List CallEntry) → J.told run.now.journal ≡ Some entries → HasNone RanOut run.now.ends
        → ComesToSum work.seed work.size tape.now entries run.now.ends }
    ensures summed { WritesSummary (work_text work.seed work.size) (K.taken out.old) (K.taken out.new) result }
    ensures write_fault { result ≡ Err faults.WriteFault → Rose (K.faults out.old) (K.faults out.new) }
    ensures journal_fault { result ≡ Err faults.JournalFault → run.now.outcome ≡ outcomes.JournalFault }
    ensures all { result ≢ Err faults.JournalFault → result ≢ Err faults.NoMemory → run.now.outcome ≡ outcomes.All }
    ensures output_left { result ≢ Err faults.WriteFault → K.faults out.new ≡ K.faults out.old }
{
    match run.outcome {
        Outcome::All => {
            let ends = run.ends.as_slice();
            if ran_out(ends) {
                return Err(ServingFault::NoMemory);
            }
            let text = summary(alloc, tape, &run.journal, ends, work)?;
            hand_over(out, text.as_slice())
        }
        Outcome::JournalFault => Err(ServingFault::JournalFault),
        Outcome::NetFault | Outcome::NoMemory => Err(ServingFault::NoMemory),
    }
}

/// Whether a connection ended for want of memory.
fn ran_out(ends: &[EndCause]) -> bool
    ensures { result ≡ some_ran_out ends.now }
{
    let [first, rest @ ..] = ends else {
        return false;
    };
    is_want(*first) || ran_out(rest)
}

/// Whether a connection that ended so ran out of memory.
fn is_want(cause: EndCause) -> bool
    ensures { result ≡ is_want cause }
{
    match cause {
        EndCause::NoMemory => true,
        EndCause::End
        | EndCause::Cut
        | EndCause::SizeFault(_)
        | EndCause::Envelope(_)
        | EndCause::ReadFault
        | EndCause::WriteFault
        | EndCause::Stopped => false,
    }
}

/// The summary that is counted from a run.
fn summary<J: ReportedJournal>(
    alloc: Global,
    tape: &Tape,
    journal: &J,
    ends: &[EndCause],
    work: Work,
) -> Result<Vec<u8>, AllocError>
    requires most { work.size ≤ 1000000 }
    requires comes { (entries : List CallEntry) → J.told journal.now ≡ Some entries → ComesToSum work.seed work.size tape.now entries ends.now }
    ensures { IfOk result (λ text. text.items ≡ work_text work.seed work.size) }
{
    let counted = Summary {
        connections: summed_calls(ends),
        frames: u64::from(work.size),
        calls: journal.count(),
        bytes_in: bytes_read(tape),
        bytes_out: bytes_written(tape),
        sum: sum_of_answers(journal),
    };
    let text = print_summary(alloc, &counted)?;
    Ok(text)
}

/// The sum over the answers of a journal: the i32 of each success that has one.
fn sum_of_answers<J: ReportedJournal>(journal: &J) -> i128
    ensures { result ≡ sum_of_answers (J.listed journal.now) }
{
    let mut sum: i128 = 0;
    for i in 0..journal.count() {
        let Some(one) = journal.entry(i) else {
            unreachable!();
        };
        sum += i128::from(answer_adds(&one.answer));
    }
    sum
}

/// How many connections have ended, which are few.
fn summed_calls(ends: &[EndCause]) -> u32
    requires { length ends.now ≤ 8 }
    ensures { result ≡ length ends.now }
{
    ends.len() as u32
}

/// Hands a text to the output.
fn hand_over<K: Sink>(out: &mut K, text: &[u8]) -> Result<(), ServingFault>
    ensures summed { WritesSummary text.now (K.taken out.old) (K.taken out.new) result }
    ensures write_fault { result ≡ Err faults.WriteFault → Rose (K.faults out.old) (K.faults out.new) }
    ensures no_journal_fault { result ≢ Err faults.JournalFault }
    ensures output_left { result ≢ Err faults.WriteFault → K.faults out.new ≡ K.faults out.old }
{
    match write_all(out, text) {
        Ok(()) => Ok(()),
        Err(_) => Err(ServingFault::WriteFault),
    }
}

//! A recording, answered from its input to its report.

ghost use Rattle.std.specs.Prelude.{◌≡◌, ◌≢◌, ◌≤◌, false, [], List, length, map, Some, Err, IfErr};
ghost use Rattle.streams.specs.Cause.{Rose};
ghost use Rattle.conn_table.specs.declared.run_limits.Outcome.TheVariants as outcomes;
ghost use Rattle.call_rules.specs.Entries.{CallEntry};
ghost use Rattle.script_model.specs.ScriptLines.{ScriptPlan};
ghost use Rattle.script_text.specs.Sound.{MovesItsWorkers};
ghost use Rattle.cell_core.specs.Rehearsed.{AreWritten};
ghost use Rattle.recorded_runs.specs.Recorded.{IsToldRun, IsOfInput, MeansRecorded};
ghost use Rattle.recorded_runs.specs.Answered.{Answering, IsRunOfScript, TellsSomeRun, script_for};
ghost use Rattle.recorded_runs.specs.Steps.{ReportsServed};
ghost use Rattle.conn_table.specs.Servable.{CanServe};

use crate::fault::ServingFault;
use crate::input::read_input;
use call_rules::{Desk, Handler};
use cell_core::{Rehearsed, rehearse};
use conn_table::{Limits, Outcome};
use run_report::{EntryLine, ReportedJournal, write_report};
use script_text::Script;
use std::alloc::Global;
use streams::{Sink, Source};

/// What became of a recording: the journal as it is after the run, and whether its report was written.
#[derive(Drop)]
pub struct Answered<J: ReportedJournal> {
    /// The journal of the calls, which tells the entries of a run, and whose count of faults is no lower than before.
    pub journal: J,
    /// Whether the report was written.
    pub result: Result<(), ServingFault>,
}

/// Runs the script that the input is, and writes the report of the run to the output. The journal is empty at first.
///
/// # Errors
///
/// NoScript comes exactly where the input is none, with its first fault; ReadFault, WriteFault and JournalFault come only where the count of faults rose, and
/// it is as before with any other result; NoMemory may come too. With all but WriteFault and NoMemory nothing is written.
pub fn answer_recorded<L: EntryLine, D: Desk, H: Handler, J: ReportedJournal, S: Source, K: Sink>(
    alloc: Global,
    input: &mut S,
    output: &mut K,
    desk: &D,
    handlers: Vec<H>,
    journal: J,
    workers: u32,
    limits: Limits,
) -> Answered<J>
    requires can { CanServe limits workers (D.meaning desk.now).max_frame (D.meaning desk.now).slots (length handlers.items) }
    requires empty { J.told journal ≡ Some [] }
    requires whole { J.torn journal ≡ false }
    // Ok says that the input is a script, read to its end, and that the bytes added to the output are the report of a run of it at this desk and from the
    // memories that the handlers had, whose entries the journal tells. It and NoScript come exactly by the input, since no input is both a script and none.
    ensures means { MeansRecorded
        (script_for (record { desk = D.meaning desk.now; services = map H.service handlers.items; workers = workers; budget = limits.read_budget; line = L.line }))
        (IsToldRun (J.told result.journal) (IsRunOfScript (record { desk = D.meaning desk.now; services = map H.service handlers.items; workers = workers; budget = limits.read_budget; line = L.line })))
        L.line result.result
        (record { left_before = S.left input.old; left = S.left input.new; taken_before = K.taken output.old; taken = K.taken output.new }) }
    // Whatever it says, the journal that comes back tells the entries of a run at this desk from those memories. Where no script was read it is the one that came.
    ensures entries { TellsSomeRun
        (record { desk = D.meaning desk.now; services = map H.service handlers.items; workers = workers; budget = limits.read_budget; line = L.line })
        (J.told result.journal) }
    ensures unread { IfErr result.result (λ fault. IsOfInput fault → result.journal ≡ journal) }
    ensures read_fault { result.result ≡ Err ServingFault.ReadFault → Rose (S.faults input.old) (S.faults input.new) }
    ensures write_fault { result.result ≡ Err ServingFault.WriteFault → Rose (K.faults output.old) (K.faults output.new) }
    ensures journal_fault { result.result ≡ Err ServingFault.JournalFault → Rose (J.faults journal) (J.faults result.journal) }
    ensures later { J.faults journal ≤ J.faults result.journal }
    // No read, no write and no append has failed but where the fault says so.
    ensures input_left { result.result ≢ Err ServingFault.ReadFault → S.faults input.new ≡ S.faults input.old }
    ensures output_left { result.result ≢ Err ServingFault.WriteFault → K.faults output.new ≡ K.faults output.old }
    ensures journal_left { result.result ≢ Err ServingFault.JournalFault → J.faults result.journal ≡ J.faults journal }
{
    match read_input(alloc, input, workers, true) {
        Ok(script) => run_and_report::<L, D, H, J, K>(
            alloc, &script, output, desk, handlers, journal, workers, limits,
        ),
        Err(fault) => Answered {
            journal,
            result: Err(fault),
        },
    }
}

/// Runs a script, and writes the report of the run.
fn run_and_report<L: EntryLine, D: Desk, H: Handler, J: ReportedJournal, K: Sink>(
    alloc: Global,
    script: &Script,
    output: &mut K,
    desk: &D,
    handlers: Vec<H>,
    journal: J,
    workers: u32,
    limits: Limits,
) -> Answered<J>
    requires can { CanServe limits workers (D.meaning desk.now).max_frame (D.meaning desk.now).slots (length handlers.items) }
    requires moves { MovesItsWorkers workers script.now }
    requires empty { J.told journal ≡ Some [] }
    requires whole { J.torn journal ≡ false }
    ensures reported { ReportsServed
        (IsToldRun (J.told result.journal) (IsRunOfScript (record { desk = D.meaning desk.now; services = map H.service handlers.items; workers = workers; budget = limits.read_budget; line = L.line })))
        L.line script.now (K.taken output.old) (K.taken output.new) result.result }
    ensures entries { TellsSomeRun
        (record { desk = D.meaning desk.now; services = map H.service handlers.items; workers = workers; budget = limits.read_budget; line = L.line })
        (J.told result.journal) }
    ensures write_fault { result.result ≡ Err ServingFault.WriteFault → Rose (K.faults output.old) (K.faults output.new) }
    ensures journal_fault { result.result ≡ Err ServingFault.JournalFault → Rose (J.faults journal) (J.faults result.journal) }
    ensures later { J.faults journal ≤ J.faults result.journal }
    ensures no_read_fault { result.result ≢ Err ServingFault.ReadFault }
    ensures output_left { result.result ≢ Err ServingFault.WriteFault → K.faults output.new ≡ K.faults output.old }
    ensures journal_left { result.result ≢ Err ServingFault.JournalFault → J.faults result.journal ≡ J.faults journal }
{
    let run = rehearse(alloc, script, desk, handlers, journal, workers, limits);
    let result = report_run::<L, H, J, K>(alloc, output, &run);
    let Rehearsed { journal, .. } = run;
    Answered { journal, result }
}

/// Writes the report of a run that came to its end.
fn report_run<L: EntryLine, H: Handler, J: ReportedJournal, K: Sink>(
    alloc: Global,
    out: &mut K,
    run: &Rehearsed<H, J>,
) -> Result<(), ServingFault>
    requires outs { run.now.outcome ≡ outcomes.All → AreWritten (length run.now.ends) run.now.tape run.now.outs }
    ensures reported { (a : Answering) (script : ScriptPlan)
        → (run.now.outcome ≡ outcomes.All → (entries : List CallEntry) → J.told run.now.journal ≡ Some entries → IsRunOfScript a script run.now.tape entries run.now.ends)
        → ReportsServed (IsToldRun (J.told run.now.journal) (IsRunOfScript a)) L.line script (K.taken out.old) (K.taken out.new) result }
    ensures write_fault { result ≡ Err ServingFault.WriteFault → Rose (K.faults out.old) (K.faults out.new) }
    ensures journal_fault { result ≡ Err ServingFault.JournalFault → run.now.outcome ≡ outcomes.JournalFault }
    ensures journal_broken { run.now.outcome ≡ outcomes.JournalFault → result ≡ Err ServingFault.JournalFault }
    ensures no_read_fault { result ≢ Err ServingFault.ReadFault }
    ensures output_left { result ≢ Err ServingFault.WriteFault → K.faults out.new ≡ K.faults out.old }
{
    match run.outcome {
        Outcome::All => {
            write_report::<L, J, K>(
                alloc,
                out,
                &run.tape,
                &run.journal,
                run.ends.as_slice(),
                run.outs.as_slice(),
            )?;
            Ok(())
        }
        Outcome::JournalFault => Err(ServingFault::JournalFault),
        Outcome::NetFault => Err(ServingFault::NoMemory),
        Outcome::NoMemory => Err(ServingFault::NoMemory),
    }
}

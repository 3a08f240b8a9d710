//! A recording, served from its input to its report.

ghost use Rattle.std.specs.Prelude.{◌≡◌, ◌≢◌, ◌≤◌, false, [], List, length, map, Some, Err, IfErr};
ghost use Rattle.streams.specs.Cause.{Rose};
ghost use Rattle.conn_table.specs.declared.run_limits.Outcome.TheVariants as outcomes;
ghost use Rattle.call_rules.specs.Entries.{CallEntry};
ghost use Rattle.script_model.specs.ScriptLines.{ScriptPlan};
ghost use Rattle.recorded_runs.specs.Recorded.{IsToldRun, IsOfInput, MeansRecorded};
ghost use Rattle.recorded_runs.specs.Answered.{Answering, TellsSomeRun};
ghost use Rattle.recorded_runs.specs.Steps.{ReportsServed};
ghost use Rattle.recorded_runs.specs.ServedScripts.{script_to_serve, IsServedScript};
ghost use Rattle.conn_table.specs.Servable.{CanServe};

use crate::{Answered, ServingFault, read_input};
use call_rules::{Desk, Handler};
use cell_core::written;
use conn_table::{Limits, Outcome};
use host_loop::{Served, serve};
use outside::Gate;
use run_report::{EntryLine, ReportedJournal, write_report};
use script_links::ScriptLinks;
use script_text::Script;
use std::alloc::Global;
use std::sync::Wait;
use std::thread::Threads;
use streams::{Sink, Source, Tape};

/// Serves the connections of the script that the input is, by a loop and so many workers on threads, and writes the report of the run to the output. The journal
/// is empty at first. It may wait.
///
/// # Errors
///
/// NoScript comes exactly where the input is none, with its first fault; ReadFault, WriteFault and JournalFault come only where the count of faults rose, and
/// the counts of input and output are as before with any other result; NoMemory may come too. With all but WriteFault and NoMemory nothing is written.
pub fn serve_recorded<
    L: EntryLine,
    D: Desk + Sync,
    H: Handler,
    J: ReportedJournal + Send,
    S: Source,
    K: Sink,
    G: Gate + Sync,
    R: Threads + Wait + Sync,
>(
    rt: &R,
    alloc: Global,
    input: &mut S,
    output: &mut K,
    desk: &D,
    handlers: Vec<H>,
    journal: J,
    workers: u32,
    gate: &G,
    limits: Limits,
) -> Answered<J>
    requires can { CanServe limits workers (D.meaning desk.now).max_frame (D.meaning desk.now).slots (length handlers.items) }
    requires empty { J.told journal ≡ Some [] }
    requires whole { J.torn journal ≡ false }
    // Ok says that the input is a script, read to its end, and that the bytes added to the output are the report of a run of it at this desk and from the
    // memories that the handlers had, whose entries the journal tells. It and NoScript come exactly by the input, since no input is both a script and none.
    ensures means { MeansRecorded
        (script_to_serve (record { desk = D.meaning desk.now; services = map H.service handlers.items; workers = workers; budget = limits.read_budget; line = L.line }))
        (IsToldRun (J.told result.journal) (IsServedScript (record { desk = D.meaning desk.now; services = map H.service handlers.items; workers = workers; budget = limits.read_budget; line = L.line })))
        L.line result.result
        (record { left_before = S.left input.old; left = S.left input.new; taken_before = K.taken output.old; taken = K.taken output.new }) }
    // Whatever it says, the journal that comes back tells the entries of a run at this desk from those memories. Where no script was read it is the one that came.
    ensures entries { TellsSomeRun
        (record { desk = D.meaning desk.now; services = map H.service handlers.items; workers = workers; budget = limits.read_budget; line = L.line })
        (J.told result.journal) }
    ensures unread { IfErr result.result (λ fault. IsOfInput fault → result.journal ≡ journal) }
    ensures read_fault { result.result ≡ Err ServingFault.ReadFault → Rose (S.faults input.old) (S.faults input.new) }
    ensures write_fault { result.result ≡ Err ServingFault.WriteFault → Rose (K.faults output.old) (K.faults output.new) }
    ensures journal_fault { result.result ≡ Err ServingFault.JournalFault → Rose (J.faults journal) (J.faults result.journal) }
    ensures later { J.faults journal ≤ J.faults result.journal }
    // No read and no write has failed but where the fault says so, and no append but where it says so or memory ran out.
    ensures input_left { result.result ≢ Err ServingFault.ReadFault → S.faults input.new ≡ S.faults input.old }
    ensures output_left { result.result ≢ Err ServingFault.WriteFault → K.faults output.new ≡ K.faults output.old }
    ensures journal_left { result.result ≢ Err ServingFault.JournalFault → result.result ≢ Err ServingFault.NoMemory → J.faults result.journal ≡ J.faults journal }
{
    match read_input(alloc, input, workers, false) {
        Ok(script) => serve_and_report::<L, D, H, J, K, G, R>(
            rt, alloc, script, output, desk, handlers, journal, workers, gate, limits,
        ),
        Err(fault) => Answered {
            journal,
            result: Err(fault),
        },
    }
}

/// Serves the connections of a script, and writes the report of the run.
fn serve_and_report<
    L: EntryLine,
    D: Desk + Sync,
    H: Handler,
    J: ReportedJournal + Send,
    K: Sink,
    G: Gate + Sync,
    R: Threads + Wait + Sync,
>(
    rt: &R,
    alloc: Global,
    script: Script,
    output: &mut K,
    desk: &D,
    handlers: Vec<H>,
    journal: J,
    workers: u32,
    gate: &G,
    limits: Limits,
) -> Answered<J>
    requires can { CanServe limits workers (D.meaning desk.now).max_frame (D.meaning desk.now).slots (length handlers.items) }
    requires empty { J.told journal ≡ Some [] }
    requires whole { J.torn journal ≡ false }
    ensures reported { ReportsServed
        (IsToldRun (J.told result.journal) (IsServedScript (record { desk = D.meaning desk.now; services = map H.service handlers.items; workers = workers; budget = limits.read_budget; line = L.line })))
        L.line script (K.taken output.old) (K.taken output.new) result.result }
    ensures entries { TellsSomeRun
        (record { desk = D.meaning desk.now; services = map H.service handlers.items; workers = workers; budget = limits.read_budget; line = L.line })
        (J.told result.journal) }
    ensures write_fault { result.result ≡ Err ServingFault.WriteFault → Rose (K.faults output.old) (K.faults output.new) }
    ensures journal_fault { result.result ≡ Err ServingFault.JournalFault → Rose (J.faults journal) (J.faults result.journal) }
    ensures later { J.faults journal ≤ J.faults result.journal }
    ensures no_read_fault { result.result ≢ Err ServingFault.ReadFault }
    ensures output_left { result.result ≢ Err ServingFault.WriteFault → K.faults output.new ≡ K.faults output.old }
    ensures journal_left { result.result ≢ Err ServingFault.JournalFault → result.result ≢ Err ServingFault.NoMemory → J.faults result.journal ≡ J.faults journal }
{
    let Ok(mut links) = ScriptLinks::new(alloc, script) else {
        return Answered {
            journal,
            result: Err(ServingFault::NoMemory),
        };
    };
    let run = serve(
        rt, alloc, &mut links, desk, handlers, journal, workers, gate, limits,
    );
    links.follow_their_script();
    journal_tells(&run.journal);
    let tape = links.into_tape();
    let result = report_run::<L, H, J, K>(alloc, output, &tape, &run);
    let Served { journal, .. } = run;
    Answered { journal, result }
}

/// A journal in memory tells its entries.
pub(crate) fn journal_tells<J: ReportedJournal>(journal: &J)
    ensures { J.told journal.now ≡ Some (J.listed journal.now) }
{}

/// Writes the report of a run that came to its end.
fn report_run<L: EntryLine, H: Handler, J: ReportedJournal, K: Sink>(
    alloc: Global,
    out: &mut K,
    tape: &Tape,
    run: &Served<H, J>,
) -> Result<(), ServingFault>
    ensures reported { (a : Answering) (script : ScriptPlan)
        → (run.now.outcome ≡ outcomes.All → (entries : List CallEntry) → J.told run.now.journal ≡ Some entries → IsServedScript a script tape.now entries run.now.ends)
        → ReportsServed (IsToldRun (J.told run.now.journal) (IsServedScript a)) L.line script (K.taken out.old) (K.taken out.new) result }
    ensures write_fault { result ≡ Err ServingFault.WriteFault → Rose (K.faults out.old) (K.faults out.new) }
    ensures journal_fault { result ≡ Err ServingFault.JournalFault → run.now.outcome ≡ outcomes.JournalFault }
    ensures all { result ≢ Err ServingFault.JournalFault → result ≢ Err ServingFault.NoMemory → run.now.outcome ≡ outcomes.All }
    ensures no_read_fault { result ≢ Err ServingFault.ReadFault }
    ensures output_left { result ≢ Err ServingFault.WriteFault → K.faults out.new ≡ K.faults out.old }
{
    match run.outcome {
        Outcome::All => {
            let ends = run.ends.as_slice();
            let Ok(outs) = written(alloc, tape.marks(), ends.len()) else {
                return Err(ServingFault::NoMemory);
            };
            write_report::<L, J, K>(alloc, out, tape, &run.journal, ends, outs.as_slice())?;
            Ok(())
        }
        Outcome::JournalFault => Err(ServingFault::JournalFault),
        Outcome::NetFault | Outcome::NoMemory => Err(ServingFault::NoMemory),
    }
}

//! A workload, served from its seed to its summary.

ghost use Rattle.std.specs.Prelude.{◌≡◌, ◌≢◌, ◌≤◌, false, [], length, map, Some, Err};
ghost use Rattle.streams.specs.Cause.{Rose};
ghost use Rattle.workload.specs.LoadPlan.{workload_plan};
ghost use Rattle.workload.specs.ExpectedRun.{work_text};
ghost use Rattle.workload.specs.Summed.{HasCalculator};
ghost use Rattle.recorded_runs.specs.declared.fault.ServingFault.TheVariants as faults;
ghost use Rattle.recorded_runs.specs.Recorded.{TellsRunOf};
ghost use Rattle.recorded_runs.specs.Answered.{TellsSomeRun};
ghost use Rattle.recorded_runs.specs.ServedScripts.{IsServedScript};
ghost use Rattle.recorded_runs.specs.Summaries.{ServesCalculator, WritesSummary};
ghost use Rattle.conn_table.specs.Servable.{CanServe};

use crate::serving::journal_tells;
use crate::summing::sum_up;
use crate::workload_laws::a_served_workload_comes_to_its_sum;
use crate::{Answered, ServingFault};
use call_rules::{Desk, Handler};
use conn_table::Limits;
use host_loop::{Served, serve};
use outside::Gate;
use run_report::ReportedJournal;
use script_links::ScriptLinks;
use script_text::Script;
use std::alloc::Global;
use std::sync::Wait;
use std::thread::Threads;
use streams::Sink;
use workload::generate;

/// A workload: its seed, and how many frames it has.
#[derive(Clone, Copy)]
pub struct Work {
    /// The seed.
    pub seed: u64,
    /// How many frames there are.
    pub size: u32,
}

/// Serves the connections of a workload's script, by a loop and so many workers on threads, at a desk that is a calculator's office, and writes the summary of
/// the run to the output. The journal is empty at first. It may wait.
///
/// # Errors
///
/// WriteFault and JournalFault come only where the count of faults rose, and the output's is as before with any other result; NoMemory may come too. With all
/// but WriteFault nothing is written.
pub fn serve_workload<
    D: Desk + Sync,
    H: Handler,
    J: ReportedJournal + Send,
    K: Sink,
    G: Gate + Sync,
    R: Threads + Wait + Sync,
>(
    rt: &R,
    alloc: Global,
    output: &mut K,
    desk: &D,
    handlers: Vec<H>,
    journal: J,
    workers: u32,
    gate: &G,
    limits: Limits,
    work: Work,
) -> Answered<J>
    requires can { CanServe limits workers (D.meaning desk.now).max_frame (D.meaning desk.now).slots (length handlers.items) }
    requires frames { 1 ≤ work.size }
    requires most { work.size ≤ 1000000 }
    requires calculators { ServesCalculator (D.meaning desk.now) }
    requires service { HasCalculator (map H.service handlers.items) }
    requires empty { J.told journal ≡ Some [] }
    requires whole { J.torn journal ≡ false }
    // Ok says that the summary of the workload is what was added to the output, whatever the services remembered, and in whichever order the threads got on.
    ensures summed { WritesSummary (work_text work.seed work.size) (K.taken output.old) (K.taken output.new) result.result }
    // The journal that comes back tells the entries of that run; with JournalFault and NoMemory those of some run at this desk from the memories that the
    // handlers had.
    ensures ran { result.result ≢ Err faults.JournalFault → result.result ≢ Err faults.NoMemory → TellsRunOf (J.told result.journal)
        (IsServedScript (record { desk = D.meaning desk.now; services = map H.service handlers.items; workers = workers; budget = limits.read_budget; line = λ _. [] }))
        (workload_plan work.seed work.size) }
    ensures entries { TellsSomeRun
        (record { desk = D.meaning desk.now; services = map H.service handlers.items; workers = workers; budget = limits.read_budget; line = λ _. [] })
        (J.told result.journal) }
    ensures write_fault { result.result ≡ Err faults.WriteFault → Rose (K.faults output.old) (K.faults output.new) }
    ensures journal_fault { result.result ≡ Err faults.JournalFault → Rose (J.faults journal) (J.faults result.journal) }
    ensures later { J.faults journal ≤ J.faults result.journal }
    // No write has failed but where the fault says so, and no append but where it says so or memory ran out.
    ensures output_left { result.result ≢ Err faults.WriteFault → K.faults output.new ≡ K.faults output.old }
    ensures journal_left { result.result ≢ Err faults.JournalFault → result.result ≢ Err faults.NoMemory → J.faults result.journal ≡ J.faults journal }
{
    match generate(alloc, work.seed, work.size) {
        Ok(script) => serve_script::<D, H, J, K, G, R>(
            rt, alloc, script, output, desk, handlers, journal, workers, gate, limits, work,
        ),
        Err(_) => Answered {
            journal,
            result: Err(ServingFault::NoMemory),
        },
    }
}

/// Serves the connections of the workload's script, and writes the summary of the run.
fn serve_script<
    D: Desk + Sync,
    H: Handler,
    J: ReportedJournal + Send,
    K: Sink,
    G: Gate + Sync,
    R: Threads + Wait + Sync,
>(
    rt: &R,
    alloc: Global,
    script: Script,
    output: &mut K,
    desk: &D,
    handlers: Vec<H>,
    journal: J,
    workers: u32,
    gate: &G,
    limits: Limits,
    work: Work,
) -> Answered<J>
    requires script { script ≡ workload_plan work.seed work.size }
    requires can { CanServe limits workers (D.meaning desk.now).max_frame (D.meaning desk.now).slots (length handlers.items) }
    requires frames { 1 ≤ work.size }
    requires most { work.size ≤ 1000000 }
    requires calculators { ServesCalculator (D.meaning desk.now) }
    requires service { HasCalculator (map H.service handlers.items) }
    requires empty { J.told journal ≡ Some [] }
    requires whole { J.torn journal ≡ false }
    ensures summed { WritesSummary (work_text work.seed work.size) (K.taken output.old) (K.taken output.new) result.result }
    ensures ran { result.result ≢ Err faults.JournalFault → result.result ≢ Err faults.NoMemory → TellsRunOf (J.told result.journal)
        (IsServedScript (record { desk = D.meaning desk.now; services = map H.service handlers.items; workers = workers; budget = limits.read_budget; line = λ _. [] }))
        (workload_plan work.seed work.size) }
    ensures entries { TellsSomeRun
        (record { desk = D.meaning desk.now; services = map H.service handlers.items; workers = workers; budget = limits.read_budget; line = λ _. [] })
        (J.told result.journal) }
    ensures write_fault { result.result ≡ Err faults.WriteFault → Rose (K.faults output.old) (K.faults output.new) }
    ensures journal_fault { result.result ≡ Err faults.JournalFault → Rose (J.faults journal) (J.faults result.journal) }
    ensures later { J.faults journal ≤ J.faults result.journal }
    ensures output_left { result.result ≢ Err faults.WriteFault → K.faults output.new ≡ K.faults output.old }
    ensures journal_left { result.result ≢ Err faults.JournalFault → result.result ≢ Err faults.NoMemory → J.faults result.journal ≡ J.faults journal }
{
    a_served_workload_comes_to_its_sum();
    let Ok(mut links) = ScriptLinks::new(alloc, script) else {
        return Answered {
            journal,
            result: Err(ServingFault::NoMemory),
        };
    };
    let run = serve(
        rt, alloc, &mut links, desk, handlers, journal, workers, gate, limits,
    );
    links.follow_their_script();
    journal_tells(&run.journal);
    let tape = links.into_tape();
    let result = sum_up::<H, J, K>(alloc, output, &tape, &run, work);
    let Served { journal, .. } = run;
    Answered { journal, result }
}

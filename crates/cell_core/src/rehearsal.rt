//! The rehearsal of a script.

ghost use Rattle.std.specs.Prelude.{◌≡◌, ◌≢◌, ◌≤◌, List, false, [], length, map, IfOk};
ghost use Rattle.std.specs.Vec.{vec_capacity};
ghost use Rattle.streams.specs.Cause.{Rose};
ghost use Rattle.conn_table.specs.declared.run_limits.Outcome.TheVariants.{All, NetFault, JournalFault, NoMemory};
ghost use Rattle.cell_core.specs.declared.stop.RunStop.TheVariants.{JournalFault as Broken};
ghost use Rattle.host_model.specs.declared.cause.EndCause.{EndCause};
ghost use Rattle.call_rules.specs.Handling.{ServiceState};
ghost use Rattle.machine_model.specs.SeenHall.{MayHave};
ghost use Rattle.script_text.specs.Sound.{MovesItsWorkers};
ghost use Rattle.cell_loop.specs.Settings.{CellSetting, ServedCell, ServedPlay};
ghost use Rattle.cell_loop.specs.LoopTied.{IsLoopTied};
ghost use Rattle.cell_loop.specs.LoopMoves.{AreAllOver, IsLoopUnderWay};
ghost use Rattle.cell_core.specs.Rehearsed.{SeenRun, IsSeenRun, IsSeenRehearsal, AreWritten, AreWrittenOrNone, IsOpenedPart, AreFirstWorkers, LeadsToEnd};
ghost use Rattle.conn_table.specs.Servable.{CanServe};

use crate::laws::a_rehearsal_is_whole;
use crate::machine::Machine;
use crate::outs::{Outs, written};
use crate::{Holding, RunStop};
use call_rules::{Desk, Handler, Journal};
use cell_loop::LoopPart;
use conn_table::{Ends, Limits, Outcome};
use hall_core::Hall;
use script_text::Script;
use script_text::laws::{kept_scripts_let_all_end, scripts_are_sound};
use std::alloc::{AllocError, Global};
use streams::Tape;

/// What a rehearsal came to.
#[derive(Drop)]
pub struct Rehearsed<H: Handler, J: Journal> {
    /// What happened on connections.
    pub tape: Tape,
    /// What was written to each connection. Where the run didn't come to its end it may be empty, for want of memory.
    pub outs: Outs,
    /// By what each connection ended.
    pub ends: Ends,
    /// The handlers, after all calls.
    pub handlers: Vec<H>,
    /// The journal of the calls.
    pub journal: J,
    /// How the run came out.
    pub outcome: Outcome,
}

/// Runs a script by the machine of loop, hall and workers, without threads: its lines are done in order, and the run is drained
/// at each line of rest and after the last line. A run to its end is the rehearsal of the script. Where the journal fails, or
/// memory for the run itself runs out, each connection that is open ends since the host stops, by rising number, and the run so
/// far is still one of the machine, within the read budget.
pub fn rehearse<D: Desk, H: Handler, J: Journal>(
    alloc: Global,
    script: &Script,
    desk: &D,
    handlers: Vec<H>,
    journal: J,
    workers: u32,
    limits: Limits,
) -> Rehearsed<H, J>
    requires can { CanServe limits workers (D.meaning desk.now).max_frame (D.meaning desk.now).slots (length handlers.items) }
    requires whole { J.torn journal ≡ false }
    requires empty { MayHave (J.told journal) [] }
    requires moves { MovesItsWorkers workers script.now }
    ensures run { IsSeenRun
        (record { desk = D.meaning desk.now; opening = map H.service handlers.items; budget = limits.read_budget; workers = workers })
        (record {
          tape = result.tape;
          causes = result.ends;
          told = J.told result.journal;
          services = map H.service result.handlers.items;
          faults_before = J.faults journal;
          faults = J.faults result.journal;
        }) }
    ensures all { result.outcome ≡ All → IsSeenRehearsal
        (record { desk = D.meaning desk.now; opening = map H.service handlers.items; budget = limits.read_budget; workers = workers }) script.now
        (record {
          tape = result.tape;
          causes = result.ends;
          told = J.told result.journal;
          services = map H.service result.handlers.items;
          faults_before = J.faults journal;
          faults = J.faults result.journal;
        }) }
    ensures outs { result.outcome ≡ All → AreWritten (length result.ends) result.tape result.outs }
    ensures outs_or_none { AreWrittenOrNone (length result.ends) result.tape result.outs }
    ensures no_net { result.outcome ≢ NetFault }
    ensures fault { result.outcome ≡ JournalFault → Rose (J.faults journal) (J.faults result.journal) }
    ensures kept { result.outcome ≢ JournalFault → J.faults result.journal ≡ J.faults journal }
    ensures later { J.faults journal ≤ J.faults result.journal }
{
    a_rehearsal_is_whole();
    scripts_are_sound();
    kept_scripts_let_all_end();
    let made = opened(alloc, script, workers, limits.read_budget);
    let hall = match Hall::new(alloc, handlers, journal) {
        Ok(hall) => hall,
        Err(no) => return nothing(alloc, no.handlers, no.journal),
    };
    match made {
        Ok((part, workers)) => {
            let mut machine = Machine {
                part,
                hall,
                workers,
            };
            let lines = script.lines().as_slice();
            match machine.do_lines(alloc, desk, limits.max_frame, lines) {
                Ok(()) => finished(alloc, machine, Outcome::All),
                Err(stop) => stopped(alloc, machine, stop),
            }
        }
        Err(_) => {
            let (handlers, journal) = hall.into_parts();
            nothing(alloc, handlers, journal)
        }
    }
}

/// The loop's part of a script and its workers, before the first line.
fn opened(
    alloc: Global,
    script: &Script,
    workers: u32,
    read_budget: u64,
) -> Result<(LoopPart<'_>, Vec<Holding>), AllocError>
    ensures part { IfOk result (λ r. IsOpenedPart read_budget script.now r.0) }
    ensures workers { IfOk result (λ r. AreFirstWorkers workers r.1.items) }
{
    let part = LoopPart::new(alloc, read_budget, script.rules().as_slice())?;
    let mut all = Vec::new(alloc);
    for _ in 0..workers.max(1) {
        all.push(Holding::Idle)?;
    }
    Ok((part, all))
}

/// How a run came out that stopped so.
fn outcome_of(stop: RunStop) -> Outcome
    ensures all { result ≢ All }
    ensures no_net { result ≢ NetFault }
    ensures fault { result ≡ JournalFault → stop ≡ Broken }
    ensures broken { stop ≡ Broken → result ≡ JournalFault }
{
    match stop {
        RunStop::JournalFault => Outcome::JournalFault,
        RunStop::NoMemory => Outcome::NoMemory,
    }
}

/// What a machine has come to that stops so: each connection that is open ends.
fn stopped<'a, H: Handler, J: Journal>(
    alloc: Global,
    machine: Machine<'a, H, J>,
    stop: RunStop,
) -> Rehearsed<H, J>
    requires under_way { IsLoopUnderWay machine.part }
    ensures run { (s : CellSetting) (cell : ServedCell) (play : ServedPlay) → IsLoopTied s machine.entry.part play → cell.loop ≡ play.cell.loop →
        LeadsToEnd s cell result.tape result.ends }
    ensures services { map H.service result.handlers.items ≡ machine.entry.hall.memories }
    ensures told { J.told result.journal ≡ machine.entry.hall.told }
    ensures faults { J.faults result.journal ≡ machine.entry.hall.faults }
    ensures all { result.outcome ≢ All }
    ensures no_net { result.outcome ≢ NetFault }
    ensures fault { result.outcome ≡ JournalFault → stop ≡ Broken }
    ensures broken { stop ≡ Broken → result.outcome ≡ JournalFault }
    ensures outs { AreWrittenOrNone (length result.ends) result.tape result.outs }
{
    let mut machine = machine;
    machine.part.stop_all();
    finished(alloc, machine, outcome_of(stop))
}

/// What a machine has come to whose connections have all ended.
fn finished<'a, H: Handler, J: Journal>(
    alloc: Global,
    machine: Machine<'a, H, J>,
    outcome: Outcome,
) -> Rehearsed<H, J>
    requires none_yet { machine.part.ends.items ≡ [] }
    requires room { length machine.part.stages.items ≤ vec_capacity machine.part.ends }
    ensures tape { result.tape ≡ machine.entry.part.tape.items }
    ensures ends { (causes : List EndCause) → AreAllOver machine.entry.part causes → result.ends ≡ causes }
    ensures services { map H.service result.handlers.items ≡ machine.entry.hall.memories }
    ensures told { J.told result.journal ≡ machine.entry.hall.told }
    ensures faults { J.faults result.journal ≡ machine.entry.hall.faults }
    ensures outcome { result.outcome ≡ All → outcome ≡ All }
    ensures net { result.outcome ≡ NetFault → outcome ≡ NetFault }
    ensures fault { result.outcome ≡ JournalFault → outcome ≡ JournalFault }
    ensures broken { outcome ≡ JournalFault → result.outcome ≡ JournalFault }
    ensures written { AreWrittenOrNone (length machine.entry.part.stages.items) machine.entry.part.tape.items result.outs }
    ensures outs { result.outcome ≡ All → AreWritten (length machine.entry.part.stages.items) machine.entry.part.tape.items result.outs }
{
    let Machine {
        mut part,
        hall,
        workers: _,
    } = machine;
    let (handlers, journal) = hall.into_parts();
    part.tell_ends();
    let (outs, outcome) = match written(alloc, part.tape.marks(), part.stages.len()) {
        Ok(outs) => (outs, outcome),
        Err(_) => (Outs::new(Vec::new(alloc)), without_memory(outcome)),
    };
    let LoopPart { tape, ends, .. } = part;
    Rehearsed {
        tape: tape.finish(),
        outs,
        ends: Ends::new(ends),
        handlers,
        journal,
        outcome,
    }
}

/// An outcome where memory ran out after it: a fault of the journal stays.
fn without_memory(outcome: Outcome) -> Outcome
    ensures all { result ≢ All }
    ensures net { result ≡ NetFault → outcome ≡ NetFault }
    ensures fault { result ≡ JournalFault → outcome ≡ JournalFault }
    ensures broken { outcome ≡ JournalFault → result ≡ JournalFault }
{
    match outcome {
        Outcome::All => Outcome::NoMemory,
        other => other,
    }
}

/// A run that wasn't begun, for want of memory.
fn nothing<H: Handler, J: Journal>(alloc: Global, handlers: Vec<H>, journal: J) -> Rehearsed<H, J>
    ensures tape { (result.tape ≡ []) × (result.ends ≡ []) }
    ensures outs { result.outs ≡ [] }
    ensures kept { (result.handlers ≡ handlers) × (result.journal ≡ journal) }
    ensures outcome { result.outcome ≡ NoMemory }
{
    Rehearsed {
        tape: Tape::empty(alloc),
        outs: Outs::new(Vec::new(alloc)),
        ends: Ends::new(Vec::new(alloc)),
        handlers,
        journal,
        outcome: Outcome::NoMemory,
    }
}

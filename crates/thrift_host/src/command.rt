//! The top call.

ghost use Rattle.std.specs.Prelude.{◌≡◌, ◌≢◌, ◌≤◌, ◌⊎◌, ℕ, List, Option, map, string_bytes};
ghost use Rattle.streams.specs.Cause.{Rose};
ghost use Rattle.command_line.specs.Answering.{plain_served};
ghost use Rattle.command_line.specs.Bounds.{KeepsServedBounds};
ghost use Rattle.command_line.specs.Words.{words_of};
ghost use Rattle.thrift_host.specs.CommandSteps.{EndsCommand};
ghost use Rattle.thrift_host.specs.Counts.{GoesOn};
ghost use Rattle.thrift_host.specs.Hosts.{Hosts};
ghost use Rattle.thrift_host.specs.Top.{asked_run, asked_place};
ghost use Rattle.thrift_host.specs.Runs.{MeansRun, SaysRun, SaysUnarranged, rehearsing, recording};
ghost use Rattle.thrift_host.specs.Serving.{MeansServing, host_change, place_change};
ghost use Rattle.thrift_host.specs.Workloads.{MeansWorkload, asked_workload};

use crate::calling::call;
use crate::checking::check;
use crate::comparing::compare;
use crate::ending::end_run;
use crate::recording::serve_script;
use crate::rehearsing::rehearse;
use crate::saying::{end, end_without_command};
use crate::serving::serve_connections;
use crate::status::Status;
use crate::workloads::{work, workload_words};
use call_rules::Handler;
use command_line::{Command, ServedIdl, read_words};
use compat_model::a_break_is_no_compatibility;
use idl_check::refusal_laws::an_idl_has_one_verdict;
use outside::{Binder, Gate};
use port_serving::ServedPort;
use recorded_runs::Work;
use service_binding::what_is_bound_is_not_refused;
use std::alloc::Global;
use std::sync::Wait;
use std::thread::Threads;
use streams::{Files, Sink, Source};

/// Runs the command of these words, which leave the program's name out: it checks an IDL and writes the text of its schema to the output; it compares an IDL
/// with the one that comes after it, and writes whether its values and calls survive; it runs the
/// script of recorded connections that its input is, with these handlers, and writes the report there, without threads, or by a loop with workers that pass the
/// gate; it serves connections at a port that the binder listens at, with a journal among the files; it calls a method of a service at a port, and writes what it came to; or it runs a workload, whose script is made from a seed, on the
/// tutorial's calculator, and writes its summary to the output. Where it isn't done it says why on the errors, in one
/// line. A write of that line that fails changes nothing. It may wait.
pub fn host<
    F: Files,
    S: Source,
    K: Sink,
    E: Sink,
    B: Binder,
    G: Gate + Sync,
    H: Handler,
    R: Threads + Wait + Sync,
>(
    rt: &R,
    alloc: Global,
    words: &[String],
    files: &mut F,
    input: &mut S,
    output: &mut K,
    errors: &mut E,
    binder: &mut B,
    gate: &G,
    handlers: Vec<H>,
) -> Status
    // What surrounds the program, before and after: `Hosts` says what a status means, what was said, dialled and kept, which faults were met, and when a
    // command can't but be done.
    ensures { Hosts (words_of (map string_bytes words.now)) (map H.service handlers.items)
        (record {
          files = record { held = F.files files.old; faults = F.faults files.old; sink_faults = F.sink_faults files.old };
          input = record { left = S.left input.old; faults = S.faults input.old };
          output = record { taken = K.taken output.old; faults = K.faults output.old };
          errors = record { taken = E.taken errors.old; faults = E.faults errors.old };
          binder = record { past = B.past binder.old; called = B.called binder.old; handed = B.handed binder.old; faults = B.faults binder.old };
        })
        (record {
          files = record { held = F.files files.new; faults = F.faults files.new; sink_faults = F.sink_faults files.new };
          input = record { left = S.left input.new; faults = S.faults input.new };
          output = record { taken = K.taken output.new; faults = K.faults output.new };
          errors = record { taken = E.taken errors.new; faults = E.faults errors.new };
          binder = record { past = B.past binder.new; called = B.called binder.new; handed = B.handed binder.new; faults = B.faults binder.new };
        })
        result }
{
    an_idl_has_one_verdict();
    what_is_bound_is_not_refused();
    a_break_is_no_compatibility();
    command_of(
        rt, alloc, words, files, input, output, errors, binder, gate, handlers,
    )
}

/// Runs the command of these words.
fn command_of<
    F: Files,
    S: Source,
    K: Sink,
    E: Sink,
    B: Binder,
    G: Gate + Sync,
    H: Handler,
    R: Threads + Wait + Sync,
>(
    rt: &R,
    alloc: Global,
    words: &[String],
    files: &mut F,
    input: &mut S,
    output: &mut K,
    errors: &mut E,
    binder: &mut B,
    gate: &G,
    handlers: Vec<H>,
) -> Status
    ensures { EndsCommand (words_of (map string_bytes words.now)) (map H.service handlers.items)
        (record {
          files = record { held = F.files files.old; faults = F.faults files.old; sink_faults = F.sink_faults files.old };
          input = record { left = S.left input.old; faults = S.faults input.old };
          output = record { taken = K.taken output.old; faults = K.faults output.old };
          errors = record { taken = E.taken errors.old; faults = E.faults errors.old };
          binder = record { past = B.past binder.old; called = B.called binder.old; handed = B.handed binder.old; faults = B.faults binder.old };
        })
        (record {
          files = record { held = F.files files.new; faults = F.faults files.new; sink_faults = F.sink_faults files.new };
          input = record { left = S.left input.new; faults = S.faults input.new };
          output = record { taken = K.taken output.new; faults = K.faults output.new };
          errors = record { taken = E.taken errors.new; faults = E.faults errors.new };
          binder = record { past = B.past binder.new; called = B.called binder.new; handed = B.handed binder.new; faults = B.faults binder.new };
        })
        result }
{
    match read_words(alloc, words) {
        Ok(Command::Check(idl)) => check(alloc, files, output, errors, idl.as_str()),
        Ok(Command::Compat(idls)) => compare(alloc, files, output, errors, &idls),
        Ok(Command::Call(asked)) => call(alloc, files, output, errors, binder, &asked),
        Ok(Command::Rehearse(served)) => rehearse_and_say(
            alloc, files, input, output, errors, served, handlers,
        ),
        Ok(Command::Record(served)) => record_and_say(
            rt, alloc, files, input, output, errors, served, gate, handlers,
        ),
        Ok(
            Command::Serve {
                served,
                port,
                accept,
                journal,
            },
        ) => {
            let place = ServedPort {
                port,
                accept,
                journal: journal.as_str(),
            };
            serve_and_say(
                rt, alloc, files, output, errors, binder, served, &place, gate, handlers,
            )
        }
        Ok(
            Command::Workload {
                seed,
                size,
                workers,
            },
        ) => work_and_say(
            rt, alloc, files, output, errors, seed, size, workers, gate, handlers,
        ),
        Err(fault) => end_without_command(errors, fault),
    }
}

/// Rehearses recorded connections as the words say, and ends the command with what became of it.
fn rehearse_and_say<F: Files, S: Source, K: Sink, E: Sink, H: Handler>(
    alloc: Global,
    files: &mut F,
    input: &mut S,
    output: &mut K,
    errors: &mut E,
    served: ServedIdl,
    handlers: Vec<H>,
) -> Status
    requires { KeepsServedBounds (plain_served served) }
    ensures means { MeansRun rehearsing
        (record { says = plain_served served; files = F.files files.old; handlers = map H.service handlers.items }) result
        (record { left_before = S.left input.old; left = S.left input.new; taken_before = K.taken output.old; taken = K.taken output.new }) }
    ensures errors { SaysRun rehearsing
        (record { says = plain_served served; files = F.files files.old; handlers = map H.service handlers.items }) result
        (record { left_before = S.left input.old; left = S.left input.new; taken_before = K.taken output.old; taken = K.taken output.new })
        (record { taken_before = E.taken errors.old; taken = E.taken errors.new; faults_before = E.faults errors.old; faults = E.faults errors.new }) }
    ensures files { F.files files.new ≡ F.files files.old }
    ensures sinks { F.sink_faults files.new ≡ F.sink_faults files.old }
    ensures file_fault { result ≡ Status.FileFault → Rose (F.faults files.old) (F.faults files.new) }
    ensures read_fault { result ≡ Status.ReadFault → Rose (S.faults input.old) (S.faults input.new) }
    ensures write_fault { result ≡ Status.WriteFault → Rose (K.faults output.old) (K.faults output.new) }
    ensures files_kept { result ≢ Status.FileFault → F.faults files.new ≡ F.faults files.old }
    ensures input_kept { result ≢ Status.ReadFault → S.faults input.new ≡ S.faults input.old }
    ensures output_kept { result ≢ Status.WriteFault → K.faults output.new ≡ K.faults output.old }
{
    let came_to = rehearse(alloc, files, input, output, &served, handlers);
    let status = end_run(alloc, errors, &served, came_to);
    let_go(served);
    status
}

/// Serves recorded connections by a loop with workers, as the words say, and ends the command with what became of it. It may wait.
fn record_and_say<
    F: Files,
    S: Source,
    K: Sink,
    E: Sink,
    G: Gate + Sync,
    H: Handler,
    R: Threads + Wait + Sync,
>(
    rt: &R,
    alloc: Global,
    files: &mut F,
    input: &mut S,
    output: &mut K,
    errors: &mut E,
    served: ServedIdl,
    gate: &G,
    handlers: Vec<H>,
) -> Status
    requires { KeepsServedBounds (plain_served served) }
    ensures means { MeansRun recording
        (record { says = plain_served served; files = F.files files.old; handlers = map H.service handlers.items }) result
        (record { left_before = S.left input.old; left = S.left input.new; taken_before = K.taken output.old; taken = K.taken output.new }) }
    ensures errors { SaysRun recording
        (record { says = plain_served served; files = F.files files.old; handlers = map H.service handlers.items }) result
        (record { left_before = S.left input.old; left = S.left input.new; taken_before = K.taken output.old; taken = K.taken output.new })
        (record { taken_before = E.taken errors.old; taken = E.taken errors.new; faults_before = E.faults errors.old; faults = E.faults errors.new }) }
    ensures files { F.files files.new ≡ F.files files.old }
    ensures sinks { F.sink_faults files.new ≡ F.sink_faults files.old }
    ensures file_fault { result ≡ Status.FileFault → Rose (F.faults files.old) (F.faults files.new) }
    ensures read_fault { result ≡ Status.ReadFault → Rose (S.faults input.old) (S.faults input.new) }
    ensures write_fault { result ≡ Status.WriteFault → Rose (K.faults output.old) (K.faults output.new) }
    ensures files_kept { result ≢ Status.FileFault → F.faults files.new ≡ F.faults files.old }
    ensures input_kept { result ≢ Status.ReadFault → S.faults input.new ≡ S.faults input.old }
    ensures output_kept { result ≢ Status.WriteFault → K.faults output.new ≡ K.faults output.old }
{
    let came_to = serve_script(rt, alloc, files, input, output, &served, gate, handlers);
    let status = end_run(alloc, errors, &served, came_to);
    let_go(served);
    status
}

/// Serves connections at a place as the words say, by a loop with workers, and ends the command with what became of it. It may wait.
fn serve_and_say<
    F: Files,
    K: Sink,
    E: Sink,
    B: Binder,
    G: Gate + Sync,
    H: Handler,
    R: Threads + Wait + Sync,
>(
    rt: &R,
    alloc: Global,
    files: &mut F,
    output: &mut K,
    errors: &mut E,
    binder: &mut B,
    served: ServedIdl,
    place: &ServedPort<'_>,
    gate: &G,
    handlers: Vec<H>,
) -> Status
    requires { KeepsServedBounds (plain_served served) }
    ensures means { (left : Option (List ℕ)) → MeansServing
        (record {
          run = asked_run (plain_served served) (F.files files.old) (map H.service handlers.items);
          place = asked_place place.now.port place.now.accept place.now.journal.now;
        })
        (host_change left left (K.taken output.old) (K.taken output.new)
        (place_change (F.files files.old) (F.files files.new) (F.sink_faults files.old) (F.sink_faults files.new) (B.past binder.old) (B.past binder.new) (B.handed binder.old) (B.handed binder.new))) result }
    ensures errors { SaysUnarranged (asked_run (plain_served served) (F.files files.old) (map H.service handlers.items)) result
        (record { taken_before = E.taken errors.old; taken = E.taken errors.new; faults_before = E.faults errors.old; faults = E.faults errors.new }) }
    ensures called { B.called binder.new ≡ B.called binder.old }
    ensures file_fault { result ≡ Status.FileFault → Rose (F.faults files.old) (F.faults files.new) }
    ensures read_fault { result ≡ Status.ReadFault → ⊥ }
    ensures write_fault { result ≡ Status.WriteFault → Rose (K.faults output.old) (K.faults output.new) }
    ensures net_fault { result ≡ Status.NetFault → Rose (B.faults binder.old) (B.faults binder.new) }
    ensures journal_fault { result ≡ Status.JournalFault → Rose (F.sink_faults files.old) (F.sink_faults files.new) }
    ensures files_kept { result ≢ Status.FileFault → F.faults files.new ≡ F.faults files.old }
    ensures output_kept { (GoesOn result → ⊥) → result ≢ Status.WriteFault → K.faults output.new ≡ K.faults output.old }
    ensures binder_kept { (GoesOn result → ⊥) → B.faults binder.new ≡ B.faults binder.old }
    ensures sinks_kept { (GoesOn result → ⊥) → F.sink_faults files.new ≡ F.sink_faults files.old }
{
    let came_to = serve_connections(
        rt, alloc, files, output, binder, &served, place, gate, handlers,
    );
    let status = end_run(alloc, errors, &served, came_to);
    let_go(served);
    status
}

/// Runs a workload on the tutorial's calculator, by a loop with workers, and ends the command with what became of it. It may wait.
fn work_and_say<F: Files, K: Sink, E: Sink, G: Gate + Sync, H: Handler, R: Threads + Wait + Sync>(
    rt: &R,
    alloc: Global,
    files: &mut F,
    output: &mut K,
    errors: &mut E,
    seed: u64,
    size: u32,
    workers: u32,
    gate: &G,
    handlers: Vec<H>,
) -> Status
    requires workers { workers ≤ 8 }
    requires frames { 1 ≤ size }
    requires most { size ≤ 1000000 }
    ensures means { (left : Option (List ℕ)) → MeansWorkload (asked_workload workers (F.files files.old) (map H.service handlers.items)) seed size result
        (record { left_before = left; left = left; taken_before = K.taken output.old; taken = K.taken output.new }) }
    ensures errors { SaysUnarranged (asked_workload workers (F.files files.old) (map H.service handlers.items)) result
        (record { taken_before = E.taken errors.old; taken = E.taken errors.new; faults_before = E.faults errors.old; faults = E.faults errors.new }) }
    ensures files { F.files files.new ≡ F.files files.old }
    ensures sinks { F.sink_faults files.new ≡ F.sink_faults files.old }
    ensures file_fault { result ≡ Status.FileFault → Rose (F.faults files.old) (F.faults files.new) }
    ensures write_fault { result ≡ Status.WriteFault → Rose (K.faults output.old) (K.faults output.new) }
    ensures no_read_fault { result ≢ Status.ReadFault }
    ensures no_net_fault { result ≢ Status.NetFault }
    ensures no_journal_fault { result ≢ Status.JournalFault }
    ensures files_kept { result ≢ Status.FileFault → F.faults files.new ≡ F.faults files.old }
    ensures output_kept { result ≢ Status.WriteFault → K.faults output.new ≡ K.faults output.old }
{
    let Ok(served) = workload_words(alloc, workers) else {
        return end(errors, Status::NoMemory);
    };
    let asked = Work { seed, size };
    let came_to = work(rt, alloc, files, output, &served, gate, handlers, asked);
    end_run(alloc, errors, &served, came_to)
}

/// Lets go of what the words say is served.
fn let_go(_served: ServedIdl) {}

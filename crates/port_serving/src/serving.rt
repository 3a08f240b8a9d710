//! A port, served from its listening to the summary.

ghost use Rattle.std.specs.Prelude.{◌≡◌, ◌≢◌, ℕ, true, false, [], List, Option, Some, length, map, Err};
ghost use Rattle.streams.specs.Cause.{Rose};
ghost use Rattle.streams.specs.Content.{told_more};
ghost use Rattle.streams.specs.Files.{File};
ghost use Rattle.streams.specs.Making.{told_with_file, IsThere};
ghost use Rattle.outside.specs.Binding.{StartListening, HandedOut, one_more_out};
ghost use Rattle.conn_table.specs.declared.run_limits.Outcome.TheVariants as outcomes;
ghost use Rattle.run_report.specs.Summary.{listening_line};
ghost use Rattle.host_loop.specs.Served.{ServerSetting};
ghost use Rattle.port_serving.specs.Places.{PortPlace, PlaceChange};
ghost use Rattle.port_serving.specs.Served.{HasServedPort};
ghost use Rattle.port_serving.specs.Answered.{MeansServedPort, went_on};
ghost use Rattle.conn_table.specs.Servable.{CanServe};

use crate::fault::PortFault;
use crate::file_journal::{FileJournal, close_journal, open_journal};
use crate::listening::listen;
use crate::place::ServedPort;
use call_rules::{Desk, Handler};
use conn_table::{Ends, Limits, Outcome};
use host_loop::{Served, serve};
use outside::{Binder, Gate};
use run_report::write_summary;
use std::alloc::Global;
use std::sync::Wait;
use std::thread::Threads;
use streams::{Files, Sink};

/// What became of the connections of a port.
#[derive(Drop)]
struct PortRun {
    /// By what each ended.
    ends: Ends,
    /// How many calls were entered in the journal; the count stands still at its type's end.
    calls: u64,
    /// How the run came out.
    outcome: Outcome,
    /// Whether lines of the journal are lost: a write of them failed, in the run or at the journal's end.
    lost: bool,
}

/// Serves connections at a place, by a loop and so many workers on threads: the journal's file is made, the port listened at, and the first line of the summary written
/// before a connection is served; then the links are handed back, the journal's last lines written, unless a write of them has failed, its sink handed back, and the
/// rest of the summary is written, also where the net or the journal failed, as far as output and memory allow. It may wait.
///
/// # Errors
///
/// The first fault that was met: that of the run, then that of the journal's end, then that of the summary. FileFault, NetFault, WriteFault and JournalFault come only where the count of faults rose. With FileFault nothing was touched; a
/// WriteFault on the first line comes before a connection is served.
pub fn serve_port<
    F: Files,
    K: Sink,
    B: Binder,
    D: Desk + Sync,
    H: Handler,
    G: Gate + Sync,
    R: Threads + Wait + Sync,
>(
    rt: &R,
    alloc: Global,
    files: &mut F,
    output: &mut K,
    binder: &mut B,
    desk: &D,
    handlers: Vec<H>,
    gate: &G,
    workers: u32,
    limits: Limits,
    place: &ServedPort<'_>,
) -> Result<(), PortFault>
    requires can { CanServe limits workers (D.meaning desk.now).max_frame (D.meaning desk.now).slots (length handlers.items) }
    // Ok says that connections were served at this desk and from the memories that the handlers had until all was over, that the file holds the
    // journal's lines, that the links came back with the tape, and that the summary was written. JournalFault says that the file holds a beginning of
    // these lines and of that of the call whose append failed. At most once links are handed out, and then they have come back; no pipe is.
    ensures means { MeansServedPort
        (record { desk = D.meaning desk.now; services = map H.service handlers.items; budget = limits.read_budget })
        (record { listening = record { port = place.now.port; accept = place.now.accept }; journal = place.now.journal.now })
        (record {
          files_before = F.files files.old;
          files = F.files files.new;
          sink_faults_before = F.sink_faults files.old;
          sink_faults = F.sink_faults files.new;
          past_before = B.past binder.old;
          past = B.past binder.new;
          handed_before = B.handed binder.old;
          handed = B.handed binder.new;
        })
        (record { taken_before = K.taken output.old; taken = K.taken output.new }) result }
    // No port was dialled.
    ensures called { B.called binder.new ≡ B.called binder.old }
    ensures file_fault { result ≡ Err PortFault.FileFault → Rose (F.faults files.old) (F.faults files.new) }
    ensures net_fault { result ≡ Err PortFault.NetFault → Rose (B.faults binder.old) (B.faults binder.new) }
    ensures write_fault { result ≡ Err PortFault.WriteFault → Rose (K.faults output.old) (K.faults output.new) }
    ensures journal_fault { result ≡ Err PortFault.JournalFault → Rose (F.sink_faults files.old) (F.sink_faults files.new) }
    // What failed is told: of the files always, of the binder and its links, the output and the journal's sink unless serving went on to its end after the fault that
    // is told.
    ensures files_kept { result ≢ Err PortFault.FileFault → F.faults files.new ≡ F.faults files.old }
    ensures binder_kept { went_on result ≡ false → B.faults binder.new ≡ B.faults binder.old }
    ensures output_kept { went_on result ≡ false → result ≢ Err PortFault.WriteFault → K.faults output.new ≡ K.faults output.old }
    ensures sinks_kept { went_on result ≡ false → F.sink_faults files.new ≡ F.sink_faults files.old }
{
    let journal = open_journal(alloc, files, place.journal)?;
    match listen(alloc, output, binder, place.port, place.accept) {
        Ok(links) => {
            let run = serve_links(
                rt, alloc, files, binder, links, desk, handlers, journal, gate, workers, limits,
                place,
            );
            finish(alloc, output, &run)
        }
        Err(fault) => {
            close_journal(files, place.journal, journal);
            Err(fault)
        }
    }
}

/// Serves the connections of links, and hands the links and the journal's sink back.
fn serve_links<
    F: Files,
    B: Binder,
    D: Desk + Sync,
    H: Handler,
    G: Gate + Sync,
    R: Threads + Wait + Sync,
>(
    rt: &R,
    alloc: Global,
    files: &mut F,
    binder: &mut B,
    links: B::L,
    desk: &D,
    handlers: Vec<H>,
    journal: FileJournal<F::Out>,
    gate: &G,
    workers: u32,
    limits: Limits,
    place: &ServedPort<'_>,
) -> PortRun
    requires can { CanServe limits workers (D.meaning desk.now).max_frame (D.meaning desk.now).slots (length handlers.items) }
    requires empty { journal.entries ≡ [] }
    requires whole { journal.failed ≡ false }
    requires faultless { F.Out.faults journal.sink ≡ 0 }
    requires there { IsThere (F.files files.old) place.now.journal.now }
    requires starts { StartListening (B.past binder.old) (record { port = place.now.port; accept = place.now.accept }) (B.L.state links) }
    ensures served { (before : Option (List File)) (handed : HandedOut) → F.files files.old ≡ told_with_file before place.now.journal.now (Some [])
        → B.handed binder.old ≡ one_more_out handed
        → HasServedPort
        (record { desk = D.meaning desk.now; services = map H.service handlers.items; budget = limits.read_budget })
        (record { listening = record { port = place.now.port; accept = place.now.accept }; journal = place.now.journal.now })
        (record {
          files_before = before;
          files = F.files files.new;
          sink_faults_before = F.sink_faults files.old;
          sink_faults = F.sink_faults files.new;
          past_before = B.past binder.old;
          past = B.past binder.new;
          handed_before = handed;
          handed = B.handed binder.new;
        })
        result.ends result.calls result.outcome result.lost }
    ensures called { B.called binder.new ≡ B.called binder.old }
    ensures net_fault { result.outcome ≡ outcomes.NetFault → Rose (B.faults binder.old) (B.faults binder.new) }
    ensures torn { result.outcome ≡ outcomes.JournalFault → result.lost ≡ true }
    ensures journal_fault { result.lost ≡ true → Rose (F.sink_faults files.old) (F.sink_faults files.new) }
    ensures files_kept { F.faults files.new ≡ F.faults files.old }
    ensures binder_kept { result.outcome ≡ outcomes.All → B.faults binder.new ≡ B.faults binder.old }
    ensures sinks_kept { result.lost ≡ false → F.sink_faults files.new ≡ F.sink_faults files.old }
{
    let mut links = links;
    let run = serve(
        rt, alloc, &mut links, desk, handlers, journal, workers, gate, limits,
    );
    binder.take_back(links);
    let Served {
        ends,
        mut journal,
        outcome,
        ..
    } = run;
    let calls = journal.count();
    let lost = journal.finish();
    close_journal(files, place.journal, journal);
    PortRun {
        ends,
        calls,
        outcome,
        lost,
    }
}

/// Writes the summary's other lines, and answers by what the run came to, then by what became of the journal's lines.
fn finish<K: Sink>(alloc: Global, output: &mut K, run: &PortRun) -> Result<(), PortFault>
    requires torn { run.now.outcome ≡ outcomes.JournalFault → run.now.lost ≡ true }
    ensures means { (s : ServerSetting) (place : PortPlace) (change : PlaceChange) (before : Option (List ℕ))
        → HasServedPort s place change run.now.ends run.now.calls run.now.outcome run.now.lost → K.taken output.old ≡ told_more before (listening_line place.listening.port)
        → MeansServedPort s place change (record { taken_before = before; taken = K.taken output.new }) result }
    ensures no_file_fault { result ≢ Err PortFault.FileFault }
    ensures net_fault { result ≡ Err PortFault.NetFault → run.now.outcome ≡ outcomes.NetFault }
    ensures write_fault { result ≡ Err PortFault.WriteFault → Rose (K.faults output.old) (K.faults output.new) }
    ensures journal_fault { result ≡ Err PortFault.JournalFault → run.now.lost ≡ true }
    ensures all { went_on result ≡ false → run.now.outcome ≡ outcomes.All }
    ensures whole { went_on result ≡ false → run.now.lost ≡ false }
    ensures output_kept { went_on result ≡ false → result ≢ Err PortFault.WriteFault → K.faults output.new ≡ K.faults output.old }
{
    let written = write_summary(alloc, output, run.ends.as_slice(), run.calls);
    match run.outcome {
        Outcome::All => {
            if run.lost {
                return Err(PortFault::JournalFault);
            }
            written?;
            Ok(())
        }
        Outcome::NetFault => Err(PortFault::NetFault),
        Outcome::JournalFault => Err(PortFault::JournalFault),
        Outcome::NoMemory => Err(PortFault::NoMemory),
    }
}

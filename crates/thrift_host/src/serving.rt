//! Connections at a port, served by handlers of an IDL's services, by a loop with workers on threads.

ghost use Rattle.std.specs.Prelude.{◌≡◌, ◌≢◌, ℕ, List, Option, true, false, length, map, Err};
ghost use Rattle.streams.specs.Cause.{Rose};
ghost use Rattle.conn_table.specs.Servable.{CanServe};
ghost use Rattle.call_model.specs.Desk.{desk_of};
ghost use Rattle.command_line.specs.Answering.{plain_served};
ghost use Rattle.command_line.specs.Bounds.{KeepsServedBounds};
ghost use Rattle.port_serving.specs.Answered.{MeansServedPort, went_on};
ghost use Rattle.port_serving.specs.declared.fault.PortFault.TheVariants as port_faults;
ghost use Rattle.processor.specs.Offices.{plain_office};
ghost use Rattle.thrift_host.specs.Steps.{TellsServing, is_file_missed, of_port, serves_on};
ghost use Rattle.thrift_host.specs.declared.arranging.RunFault.TheVariants as faults;

use crate::arranging::{RunFault, arrange, let_go};
use call_rules::Handler;
use command_line::ServedIdl;
use conn_table::Limits;
use outside::{Binder, Gate};
use port_serving::{PortFault, ServedPort, serve_port};
use processor::Office;
use std::alloc::Global;
use std::sync::Wait;
use std::thread::Threads;
use streams::{Files, Sink};

/// Serves connections at a place, as the words say, and writes the summary to the output. It may wait.
pub(crate) fn serve_connections<
    F: Files,
    K: Sink,
    B: Binder,
    G: Gate + Sync,
    H: Handler,
    R: Threads + Wait + Sync,
>(
    rt: &R,
    alloc: Global,
    files: &mut F,
    output: &mut K,
    binder: &mut B,
    served: &ServedIdl,
    place: &ServedPort<'_>,
    gate: &G,
    handlers: Vec<H>,
) -> Result<(), RunFault>
    requires { KeepsServedBounds (plain_served served.now) }
    ensures tells { (left : Option (List ℕ)) → TellsServing
        (record {
          run = record { says = plain_served served.now; files = F.files files.old; handlers = map H.service handlers.items };
          place = record { listening = record { port = place.now.port; accept = place.now.accept }; journal = place.now.journal.now };
        })
        result
        (record {
          streams = record { left_before = left; left = left; taken_before = K.taken output.old; taken = K.taken output.new };
          place = record {
            files_before = F.files files.old;
            files = F.files files.new;
            sink_faults_before = F.sink_faults files.old;
            sink_faults = F.sink_faults files.new;
            past_before = B.past binder.old;
            past = B.past binder.new;
            handed_before = B.handed binder.old;
            handed = B.handed binder.new;
          };
        }) }
    ensures called { B.called binder.new ≡ B.called binder.old }
    ensures file_fault { is_file_missed result ≡ true → Rose (F.faults files.old) (F.faults files.new) }
    ensures net_fault { result ≡ Err (faults.Unserved port_faults.NetFault) → Rose (B.faults binder.old) (B.faults binder.new) }
    ensures write_fault { result ≡ Err (faults.Unserved port_faults.WriteFault) → Rose (K.faults output.old) (K.faults output.new) }
    ensures journal_fault { result ≡ Err (faults.Unserved port_faults.JournalFault) → Rose (F.sink_faults files.old) (F.sink_faults files.new) }
    ensures files_kept { is_file_missed result ≡ false → F.faults files.new ≡ F.faults files.old }
    ensures output_kept { serves_on result ≡ false → result ≢ Err (faults.Unserved port_faults.WriteFault) → K.faults output.new ≡ K.faults output.old }
    ensures binder_kept { serves_on result ≡ false → B.faults binder.new ≡ B.faults binder.old }
    ensures sinks_kept { serves_on result ≡ false → F.sink_faults files.new ≡ F.sink_faults files.old }
{
    match arrange(alloc, files, served, handlers) {
        Ok((office, handlers)) => {
            let limits = served.limits;
            let workers = served.workers;
            serving_of(run_port(
                rt, alloc, files, output, binder, office, place, gate, handlers, workers, limits,
            ))
        }
        Err(fault) => Err(fault),
    }
}

/// Serves at an office whose slots are these handlers.
fn run_port<F: Files, K: Sink, B: Binder, G: Gate + Sync, H: Handler, R: Threads + Wait + Sync>(
    rt: &R,
    alloc: Global,
    files: &mut F,
    output: &mut K,
    binder: &mut B,
    office: Office,
    place: &ServedPort<'_>,
    gate: &G,
    handlers: Vec<H>,
    workers: u32,
    limits: Limits,
) -> Result<(), PortFault>
    requires can { CanServe limits workers (plain_office office).max_frame (length (plain_office office).bindings) (length handlers.items) }
    ensures means { MeansServedPort
        (record { desk = desk_of (plain_office office); services = map H.service handlers.items; budget = limits.read_budget })
        (record { listening = record { port = place.now.port; accept = place.now.accept }; journal = place.now.journal.now })
        (record {
          files_before = F.files files.old;
          files = F.files files.new;
          sink_faults_before = F.sink_faults files.old;
          sink_faults = F.sink_faults files.new;
          past_before = B.past binder.old;
          past = B.past binder.new;
          handed_before = B.handed binder.old;
          handed = B.handed binder.new;
        })
        (record { taken_before = K.taken output.old; taken = K.taken output.new }) result }
    ensures called { B.called binder.new ≡ B.called binder.old }
    ensures file_fault { result ≡ Err PortFault.FileFault → Rose (F.faults files.old) (F.faults files.new) }
    ensures net_fault { result ≡ Err PortFault.NetFault → Rose (B.faults binder.old) (B.faults binder.new) }
    ensures write_fault { result ≡ Err PortFault.WriteFault → Rose (K.faults output.old) (K.faults output.new) }
    ensures journal_fault { result ≡ Err PortFault.JournalFault → Rose (F.sink_faults files.old) (F.sink_faults files.new) }
    ensures files_kept { result ≢ Err PortFault.FileFault → F.faults files.new ≡ F.faults files.old }
    ensures output_kept { went_on result ≡ false → result ≢ Err PortFault.WriteFault → K.faults output.new ≡ K.faults output.old }
    ensures binder_kept { went_on result ≡ false → B.faults binder.new ≡ B.faults binder.old }
    ensures sinks_kept { went_on result ≡ false → F.sink_faults files.new ≡ F.sink_faults files.old }
{
    let came_to = serve_port(
        rt, alloc, files, output, binder, &office, handlers, gate, workers, limits, place,
    );
    let_go(office);
    came_to
}

/// What serving at a port comes to, by what the port came to.
fn serving_of(came_to: Result<(), PortFault>) -> Result<(), RunFault>
    ensures { result ≡ of_port came_to }
{
    match came_to {
        Ok(()) => Ok(()),
        Err(fault) => Err(RunFault::Unserved(fault)),
    }
}

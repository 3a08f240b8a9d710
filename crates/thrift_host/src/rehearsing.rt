//! A rehearsal: recorded connections, served by handlers of an IDL's services, without threads.

ghost use Rattle.std.specs.Prelude.{◌≡◌, ◌≢◌, true, false, length, map, Err};
ghost use Rattle.streams.specs.Cause.{Rose};
ghost use Rattle.conn_table.specs.Servable.{CanServe};
ghost use Rattle.call_model.specs.Desk.{desk_of};
ghost use Rattle.command_line.specs.Answering.{plain_served};
ghost use Rattle.command_line.specs.Bounds.{KeepsServedBounds};
ghost use Rattle.journal_text.specs.EntryText.{entry_text};
ghost use Rattle.processor.specs.Offices.{plain_office};
ghost use Rattle.recorded_runs.specs.Answered.{MeansAnswered};
ghost use Rattle.recorded_runs.specs.declared.fault.ServingFault.TheVariants as serving_faults;
ghost use Rattle.thrift_host.specs.Runs.{rehearsing};
ghost use Rattle.thrift_host.specs.Steps.{TellsRun, is_file_missed};
ghost use Rattle.thrift_host.specs.declared.arranging.RunFault.TheVariants as faults;

use crate::arranging::{RunFault, arrange, let_go, run_of};
use crate::journal::{JournalLines, ReportedList};
use call_rules::Handler;
use command_line::ServedIdl;
use conn_table::Limits;
use processor::Office;
use recorded_runs::{ServingFault, answer_recorded};
use std::alloc::Global;
use streams::{Files, Sink, Source};

/// Runs the script that the input is, as the words say, and writes the report of the run to the output.
pub(crate) fn rehearse<F: Files, S: Source, K: Sink, H: Handler>(
    alloc: Global,
    files: &mut F,
    input: &mut S,
    output: &mut K,
    served: &ServedIdl,
    handlers: Vec<H>,
) -> Result<(), RunFault>
    requires { KeepsServedBounds (plain_served served.now) }
    ensures tells { TellsRun rehearsing
        (record { says = plain_served served.now; files = F.files files.old; handlers = map H.service handlers.items }) result
        (record { left_before = S.left input.old; left = S.left input.new; taken_before = K.taken output.old; taken = K.taken output.new }) }
    ensures files { F.files files.new ≡ F.files files.old }
    ensures sinks { F.sink_faults files.new ≡ F.sink_faults files.old }
    ensures file_fault { is_file_missed result ≡ true → Rose (F.faults files.old) (F.faults files.new) }
    ensures read_fault { result ≡ Err (faults.Unanswered serving_faults.ReadFault) → Rose (S.faults input.old) (S.faults input.new) }
    ensures write_fault { result ≡ Err (faults.Unanswered serving_faults.WriteFault) → Rose (K.faults output.old) (K.faults output.new) }
    ensures files_kept { is_file_missed result ≡ false → F.faults files.new ≡ F.faults files.old }
    ensures input_kept { result ≢ Err (faults.Unanswered serving_faults.ReadFault) → S.faults input.new ≡ S.faults input.old }
    ensures output_kept { result ≢ Err (faults.Unanswered serving_faults.WriteFault) → K.faults output.new ≡ K.faults output.old }
{
    match arrange(alloc, files, served, handlers) {
        Ok((office, handlers)) => {
            let limits = served.limits;
            let workers = served.workers;
            run_of(run_rehearsal(alloc, input, output, office, handlers, workers, limits))
        }
        Err(fault) => Err(fault),
    }
}

/// Serves at an office whose slots are these handlers.
fn run_rehearsal<S: Source, K: Sink, H: Handler>(
    alloc: Global,
    input: &mut S,
    output: &mut K,
    office: Office,
    handlers: Vec<H>,
    workers: u32,
    limits: Limits,
) -> Result<(), ServingFault>
    requires can { CanServe limits workers (plain_office office).max_frame (length (plain_office office).bindings) (length handlers.items) }
    ensures means { MeansAnswered
        (record { desk = desk_of (plain_office office); services = map H.service handlers.items; workers = workers; budget = limits.read_budget; line = entry_text }) result
        (record { left_before = S.left input.old; left = S.left input.new; taken_before = K.taken output.old; taken = K.taken output.new }) }
    ensures read_fault { result ≡ Err ServingFault.ReadFault → Rose (S.faults input.old) (S.faults input.new) }
    ensures write_fault { result ≡ Err ServingFault.WriteFault → Rose (K.faults output.old) (K.faults output.new) }
    ensures input_kept { result ≢ Err ServingFault.ReadFault → S.faults input.new ≡ S.faults input.old }
    ensures output_kept { result ≢ Err ServingFault.WriteFault → K.faults output.new ≡ K.faults output.old }
{
    let journal = ReportedList::new(alloc);
    let answered = answer_recorded::<JournalLines, Office, H, ReportedList, S, K>(
        alloc, input, output, &office, handlers, journal, workers, limits,
    );
    let_go(office);
    answered.result
}

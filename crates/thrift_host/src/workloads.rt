//! A workload: the tutorial's calculator, served on the connections of a script that is made from a seed, by a loop with workers on threads.

ghost use Rattle.std.specs.Prelude.{◌≡◌, ◌≢◌, ◌≤◌, ℕ, List, Option, true, false, length, map, IfOk, MatchResult, Err};
ghost use Rattle.streams.specs.Cause.{Rose};
ghost use Rattle.streams.specs.Files.{File};
ghost use Rattle.conn_table.specs.Servable.{CanServe};
ghost use Rattle.command_line.specs.Answering.{plain_served};
ghost use Rattle.processor.specs.Offices.{plain_office};
ghost use Rattle.schema.specs.SchemaOf.{schema_of};
ghost use Rattle.schema.specs.Sound.{IsSound};
ghost use Rattle.recorded_runs.specs.declared.fault.ServingFault.TheVariants as serving_faults;
ghost use Rattle.workload.specs.ExpectedRun.{work_text};
ghost use Rattle.workload.specs.Calculators.{IsCalculatorsOffice};
ghost use Rattle.workload.specs.Summed.{HasCalculator};
ghost use Rattle.recorded_runs.specs.Summaries.{WritesSummary};
ghost use Rattle.thrift_host.specs.Runs.{HasSchema};
ghost use Rattle.thrift_host.specs.Steps.{TellsUnworked, TellsWorkload, is_file_missed};
ghost use Rattle.thrift_host.specs.Workloads.{has_calculator, workload_says};
ghost use Rattle.thrift_host.specs.declared.arranging.RunFault.TheVariants as faults;

use crate::arranging::{RunFault, bind_pairs, let_go, run_of};
use crate::journal::ReportedList;
use call_rules::{Handler, Kind};
use command_line::ServedIdl;
use conn_table::Limits;
use envelope::Protocol;
use idl_check::program_schema;
use limits::{LONGEST_PAYLOAD, USUAL_PAYLOAD};
use outside::Gate;
use processor::Office;
use recorded_runs::{ServingFault, Work, serve_workload};
use schema::Schema;
use service_binding::{BindWords, Word};
use std::alloc::{AllocError, Global};
use std::sync::Wait;
use std::thread::Threads;
use streams::{Files, Sink};
use workload::is_calculator;

/// What a workload serves, as words would say it.
pub(crate) fn workload_words(alloc: Global, workers: u32) -> Result<ServedIdl, AllocError>
    ensures { IfOk result (λ served. plain_served served ≡ workload_says workers) }
{
    let idl = Word::copied(alloc, "@tutorial")?;
    let name = Word::copied(alloc, "Calculator")?;
    let pairs = vec![in alloc; (name, Kind::Calculator)]?;
    Ok(ServedIdl {
        idl,
        protocol: Protocol::Binary,
        workers,
        pairs: BindWords::new(pairs),
        default_service: None,
        limits: Limits {
            max_frame: USUAL_PAYLOAD,
            read_budget: LONGEST_PAYLOAD,
        },
    })
}

/// Serves the workload, as these words say, and writes its summary to the output. It may wait.
pub(crate) fn work<F: Files, K: Sink, G: Gate + Sync, H: Handler, R: Threads + Wait + Sync>(
    rt: &R,
    alloc: Global,
    files: &mut F,
    output: &mut K,
    served: &ServedIdl,
    gate: &G,
    handlers: Vec<H>,
    work: Work,
) -> Result<(), RunFault>
    requires says { plain_served served.now ≡ workload_says served.now.workers }
    requires workers { served.now.workers ≤ 8 }
    requires frames { 1 ≤ work.size }
    requires most { work.size ≤ 1000000 }
    ensures tells { (left : Option (List ℕ)) → TellsWorkload
        (record { says = plain_served served.now; files = F.files files.old; handlers = map H.service handlers.items }) work.seed work.size result
        (record { left_before = left; left = left; taken_before = K.taken output.old; taken = K.taken output.new }) }
    ensures files { F.files files.new ≡ F.files files.old }
    ensures sinks { F.sink_faults files.new ≡ F.sink_faults files.old }
    ensures file_fault { is_file_missed result ≡ true → Rose (F.faults files.old) (F.faults files.new) }
    ensures write_fault { result ≡ Err (faults.Unanswered serving_faults.WriteFault) → Rose (K.faults output.old) (K.faults output.new) }
    ensures files_kept { is_file_missed result ≡ false → F.faults files.new ≡ F.faults files.old }
    ensures output_kept { result ≢ Err (faults.Unanswered serving_faults.WriteFault) → K.faults output.new ≡ K.faults output.old }
{
    match arrange_calculator(alloc, files, served, handlers) {
        Ok((office, handlers)) => {
            let limits = served.limits;
            let workers = served.workers;
            run_of(run_workload(
                rt, alloc, output, office, gate, handlers, workers, limits, work,
            ))
        }
        Err(fault) => Err(fault),
    }
}

/// Loads the tutorial, and binds its calculator to a handler.
fn arrange_calculator<F: Files, H: Handler>(
    alloc: Global,
    files: &mut F,
    served: &ServedIdl,
    handlers: Vec<H>,
) -> Result<(Office, Vec<H>), RunFault>
    requires says { plain_served served.now ≡ workload_says served.now.workers }
    requires workers { served.now.workers ≤ 8 }
    ensures tells { MatchResult result
        (λ made. IsCalculatorsOffice (plain_office made.0) × HasCalculator (map H.service made.1.items))
        (λ fault. TellsUnworked (record { says = plain_served served.now; files = F.files files.old; handlers = map H.service handlers.items }) fault) }
    ensures can { IfOk result (λ made. CanServe served.now.limits served.now.workers (plain_office made.0).max_frame (length (plain_office made.0).bindings) (length made.1.items)) }
    ensures files { F.files files.new ≡ F.files files.old }
    ensures sinks { F.sink_faults files.new ≡ F.sink_faults files.old }
    ensures file_fault { is_file_missed result ≡ true → Rose (F.faults files.old) (F.faults files.new) }
    ensures files_kept { is_file_missed result ≡ false → F.faults files.new ≡ F.faults files.old }
{
    match program_schema(alloc, files, served.idl.as_str()) {
        Ok(schema) => bind_calculator(alloc, served, schema, handlers),
        Err(reason) => Err(RunFault::NoSchema(reason)),
    }
}

/// Binds the calculator of the schema to a handler. Want of memory stands for a schema that has none.
fn bind_calculator<H: Handler>(
    alloc: Global,
    served: &ServedIdl,
    schema: Schema,
    handlers: Vec<H>,
) -> Result<(Office, Vec<H>), RunFault>
    requires sound { IsSound (schema_of schema) }
    requires says { plain_served served.now ≡ workload_says served.now.workers }
    requires workers { served.now.workers ≤ 8 }
    ensures tells { (files : Option (List File)) → HasSchema files served.now.idl (schema_of schema) → MatchResult result
        (λ made. IsCalculatorsOffice (plain_office made.0) × HasCalculator (map H.service made.1.items))
        (λ fault. TellsUnworked (record { says = plain_served served.now; files = files; handlers = map H.service handlers.items }) fault) }
    ensures can { IfOk result (λ made. CanServe served.now.limits served.now.workers (plain_office made.0).max_frame (length (plain_office made.0).bindings) (length made.1.items)) }
    ensures no_file { is_file_missed result ≡ false }
{
    if has_calculator(&schema) {
        return bind_pairs(alloc, served, schema, handlers);
    }
    Err(RunFault::Unanswered(ServingFault::NoMemory))
}

/// Whether the schema has the calculator that a workload calls.
fn has_calculator(schema: &Schema) -> bool
    requires { IsSound (schema_of schema.now) }
    ensures { result ≡ has_calculator (schema_of schema.now) }
{
    match schema.service(b"Calculator") {
        Some(service) => is_calculator(schema, service),
        None => false,
    }
}

/// Serves at the calculator's office, whose slot is this handler.
fn run_workload<K: Sink, G: Gate + Sync, H: Handler, R: Threads + Wait + Sync>(
    rt: &R,
    alloc: Global,
    output: &mut K,
    office: Office,
    gate: &G,
    handlers: Vec<H>,
    workers: u32,
    limits: Limits,
    work: Work,
) -> Result<(), ServingFault>
    requires can { CanServe limits workers (plain_office office).max_frame (length (plain_office office).bindings) (length handlers.items) }
    requires frames { 1 ≤ work.size }
    requires most { work.size ≤ 1000000 }
    requires calculators { IsCalculatorsOffice (plain_office office) }
    requires service { HasCalculator (map H.service handlers.items) }
    ensures summed { WritesSummary (work_text work.seed work.size) (K.taken output.old) (K.taken output.new) result }
    ensures write_fault { result ≡ Err ServingFault.WriteFault → Rose (K.faults output.old) (K.faults output.new) }
    ensures output_kept { result ≢ Err ServingFault.WriteFault → K.faults output.new ≡ K.faults output.old }
{
    let journal = ReportedList::new(alloc);
    let answered = serve_workload::<Office, H, ReportedList, K, G, R>(
        rt, alloc, output, &office, handlers, journal, workers, gate, limits, work,
    );
    let_go(office);
    answered.result
}

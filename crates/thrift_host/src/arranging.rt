//! What a run stands on: the office of an IDL's services, and the handlers in its slots.

ghost use Rattle.std.specs.Prelude.{◌≡◌, ◌≤◌, true, false, length, map, Option, List, IfOk, MatchResult};
ghost use Rattle.streams.specs.Cause.{Rose};
ghost use Rattle.streams.specs.Files.{File};
ghost use Rattle.command_line.specs.Answering.{plain_served};
ghost use Rattle.command_line.specs.Bounds.{KeepsServedBounds};
ghost use Rattle.conn_table.specs.Servable.{CanServe};
ghost use Rattle.processor.specs.Offices.{plain_office};
ghost use Rattle.schema.specs.SchemaOf.{schema_of};
ghost use Rattle.schema.specs.Sound.{IsSound};
ghost use Rattle.thrift_host.specs.Runs.{HasSchema};
ghost use Rattle.thrift_host.specs.Steps.{IsArrangedAs, TellsUnarranged, is_file_missed, of_recording};

use crate::{BindFault, bind};
use call_rules::Handler;
use command_line::ServedIdl;
use idl_check::{NoSchema, program_schema};
use port_serving::PortFault;
use processor::Office;
use recorded_runs::ServingFault;
use schema::Schema;
use std::alloc::Global;
use streams::Files;

/// Why nothing is served, or not to its end.
#[derive(Drop)]
pub(crate) enum RunFault {
    /// The IDL has no schema.
    NoSchema(NoSchema),
    /// The pairs aren't bound.
    Unbound(BindFault),
    /// The recording isn't answered.
    Unanswered(ServingFault),
    /// The port isn't served to the end.
    Unserved(PortFault),
}

/// Loads the IDL of the words, and binds their pairs to its services and to handlers.
pub(crate) fn arrange<F: Files, H: Handler>(
    alloc: Global,
    files: &mut F,
    served: &ServedIdl,
    handlers: Vec<H>,
) -> Result<(Office, Vec<H>), RunFault>
    requires { KeepsServedBounds (plain_served served.now) }
    ensures tells { MatchResult result
        (λ made. IsArrangedAs (record { says = plain_served served.now; files = F.files files.old; handlers = map H.service handlers.items })
        (plain_office made.0) (map H.service made.1.items))
        (λ fault. TellsUnarranged (record { says = plain_served served.now; files = F.files files.old; handlers = map H.service handlers.items }) fault) }
    ensures can { IfOk result (λ made. CanServe served.now.limits served.now.workers (plain_office made.0).max_frame (length (plain_office made.0).bindings) (length made.1.items)) }
    ensures files { F.files files.new ≡ F.files files.old }
    ensures sinks { F.sink_faults files.new ≡ F.sink_faults files.old }
    ensures later { F.faults files.old ≤ F.faults files.new }
    ensures file_fault { is_file_missed result ≡ true → Rose (F.faults files.old) (F.faults files.new) }
    ensures files_kept { is_file_missed result ≡ false → F.faults files.new ≡ F.faults files.old }
{
    match program_schema(alloc, files, served.idl.as_str()) {
        Ok(schema) => bind_pairs(alloc, served, schema, handlers),
        Err(reason) => Err(RunFault::NoSchema(reason)),
    }
}

/// Binds the pairs to services of the schema and to handlers.
pub(crate) fn bind_pairs<H: Handler>(
    alloc: Global,
    served: &ServedIdl,
    schema: Schema,
    handlers: Vec<H>,
) -> Result<(Office, Vec<H>), RunFault>
    requires sound { IsSound (schema_of schema) }
    requires bounds { KeepsServedBounds (plain_served served.now) }
    ensures tells { (files : Option (List File)) → HasSchema files served.now.idl (schema_of schema) → MatchResult result
        (λ made. IsArrangedAs (record { says = plain_served served.now; files = files; handlers = map H.service handlers.items })
        (plain_office made.0) (map H.service made.1.items))
        (λ fault. TellsUnarranged (record { says = plain_served served.now; files = files; handlers = map H.service handlers.items }) fault) }
    ensures can { IfOk result (λ made. CanServe served.now.limits served.now.workers (plain_office made.0).max_frame (length (plain_office made.0).bindings) (length made.1.items)) }
    ensures schema { IfOk result (λ made. (plain_office made.0).schema ≡ schema_of schema) }
    ensures no_file { is_file_missed result ≡ false }
{
    let default_service = served.default_name();
    match bind(alloc, &schema, &served.pairs, handlers, default_service) {
        Ok((bindings, handlers)) => {
            let most = served.limits.max_frame;
            let office = Office::new(schema, bindings, served.protocol, most);
            Ok((office, handlers))
        }
        Err(fault) => Err(RunFault::Unbound(fault)),
    }
}

/// What a run comes to, by what its recording came to.
pub(crate) fn run_of(answered: Result<(), ServingFault>) -> Result<(), RunFault>
    ensures { result ≡ of_recording answered }
{
    match answered {
        Ok(()) => Ok(()),
        Err(fault) => Err(RunFault::Unanswered(fault)),
    }
}

/// Lets an office go that serves no more.
pub(crate) fn let_go(_office: Office) {}

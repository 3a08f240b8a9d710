//! How a command that serves ends.

ghost use Rattle.std.specs.Prelude.{◌≡◌, IfOk};
ghost use Rattle.command_line.specs.Answering.{plain_served};
ghost use Rattle.service_binding.specs.Refusals.{refused_pair_text};
ghost use Rattle.recorded_runs.specs.Refusals.{refused_script_text};
ghost use Rattle.thrift_host.specs.Steps.{EndsAfterRun, EndsUnbound, EndsUnanswered, status_of_port};

use crate::BindFault;
use crate::arranging::RunFault;
use crate::checking::end_without_schema;
use crate::saying::{end, end_saying};
use crate::status::Status;
use command_line::ServedIdl;
use port_serving::PortFault;
use recorded_runs::{ServingFault, put_refused_script};
use script_text::ScriptFault;
use service_binding::{BindKind, put_refused_pair};
use std::alloc::{AllocError, Global};
use streams::Sink;

/// Ends the command with what became of a run, or of serving at a port.
pub(crate) fn end_run<E: Sink>(
    alloc: Global,
    errors: &mut E,
    served: &ServedIdl,
    came_to: Result<(), RunFault>,
) -> Status
    ensures { EndsAfterRun (plain_served served.now) came_to result
        (record { taken_before = E.taken errors.old; taken = E.taken errors.new; faults_before = E.faults errors.old; faults = E.faults errors.new }) }
{
    match came_to {
        Ok(()) => end(errors, Status::Done),
        Err(RunFault::NoSchema(reason)) => end_without_schema(alloc, errors, reason),
        Err(RunFault::Unbound(fault)) => end_unbound(alloc, errors, served, fault),
        Err(RunFault::Unanswered(fault)) => end_unanswered(alloc, errors, fault),
        Err(RunFault::Unserved(fault)) => end(errors, port_status(fault)),
    }
}

/// The status of a port that isn't served.
fn port_status(fault: PortFault) -> Status
    ensures { result ≡ status_of_port fault }
{
    match fault {
        PortFault::FileFault => Status::FileFault,
        PortFault::NetFault => Status::NetFault,
        PortFault::WriteFault => Status::WriteFault,
        PortFault::JournalFault => Status::JournalFault,
        PortFault::NoMemory => Status::NoMemory,
    }
}

/// Ends the command at a recording that isn't answered.
fn end_unanswered<E: Sink>(alloc: Global, errors: &mut E, fault: ServingFault) -> Status
    ensures { EndsUnanswered fault result
        (record { taken_before = E.taken errors.old; taken = E.taken errors.new; faults_before = E.faults errors.old; faults = E.faults errors.new }) }
{
    match fault {
        ServingFault::NoScript(fault) => end_saying(
            errors,
            Status::ScriptRefused,
            refused_script_line(alloc, fault),
        ),
        ServingFault::ReadFault => end(errors, Status::ReadFault),
        ServingFault::WriteFault => end(errors, Status::WriteFault),
        // A journal that is a list never fails.
        ServingFault::JournalFault | ServingFault::NoMemory => end(errors, Status::NoMemory),
    }
}

/// The errors' line of an input that is no script.
fn refused_script_line(alloc: Global, fault: ScriptFault) -> Result<Vec<u8>, AllocError>
    ensures { IfOk result (λ line. line.items ≡ refused_script_text fault) }
{
    let mut line = Vec::new(alloc);
    put_refused_script(&mut line, fault)?;
    Ok(line)
}

/// Ends the command at pairs or a default that aren't bound.
fn end_unbound<E: Sink>(
    alloc: Global,
    errors: &mut E,
    served: &ServedIdl,
    fault: BindFault,
) -> Status
    ensures { EndsUnbound (plain_served served.now) fault result
        (record { taken_before = E.taken errors.old; taken = E.taken errors.new; faults_before = E.faults errors.old; faults = E.faults errors.new }) }
{
    match fault {
        BindFault::Refused(place, kind) => {
            end_saying(
                errors,
                Status::BindRefused,
                refused_pair_line(alloc, served, place, kind),
            )
        }
        BindFault::NoMemory => end(errors, Status::NoMemory),
    }
}

/// The errors' line of the pair at a place, or of the default behind the last pair, which is refused.
fn refused_pair_line(
    alloc: Global,
    served: &ServedIdl,
    place: u32,
    kind: BindKind,
) -> Result<Vec<u8>, AllocError>
    ensures { IfOk result (λ line. line.items ≡ refused_pair_text served.now.pairs served.now.default_service place kind) }
{
    let mut line = Vec::new(alloc);
    put_refused_pair(&mut line, &served.pairs, served.default_name(), place, kind)?;
    Ok(line)
}

//! A call of a method at a port.

ghost use Rattle.std.specs.Prelude.{◌≡◌, ◌≢◌, IfOk};
ghost use Rattle.streams.specs.Cause.{Rose};
ghost use Rattle.command_line.specs.Answering.{plain_asking};
ghost use Rattle.schema.specs.SchemaOf.{schema_of};
ghost use Rattle.schema.specs.Sound.{IsSound};
ghost use Rattle.thrift_host.specs.Calls.{MeansPortCall, port_call_by, refused_call_text, refused_reply_text};
ghost use Rattle.thrift_host.specs.CallSteps.{EndsAfterCall, EndsCall};

use crate::checking::end_without_schema;
use crate::saying::{end, end_saying};
use crate::status::Status;
use command_line::AskedCall;
use idl_check::program_schema;
use outside::Binder;
use port_calls::{CallFault, CallRefusal, PortCall, ReplyRefusal, call_port};
use schema::Schema;
use std::alloc::{AllocError, Global};
use streams::{Files, Sink};
use text_out::line;

/// Makes the call of these words: the line of what it came to goes to the output.
pub(crate) fn call<F: Files, K: Sink, E: Sink, B: Binder>(
    alloc: Global,
    files: &mut F,
    output: &mut K,
    errors: &mut E,
    binder: &mut B,
    asked: &AskedCall,
) -> Status
    ensures means { MeansPortCall (F.files files.old) (plain_asking asked.now) result
        (record {
          dialled_before = record { called = B.called binder.old; handed = B.handed binder.old };
          dialled = record { called = B.called binder.new; handed = B.handed binder.new };
          taken_before = K.taken output.old;
          taken = K.taken output.new;
        })
        (record { taken_before = E.taken errors.old; taken = E.taken errors.new; faults_before = E.faults errors.old; faults = E.faults errors.new }) }
    ensures files { F.files files.new ≡ F.files files.old }
    ensures sinks { F.sink_faults files.new ≡ F.sink_faults files.old }
    ensures past { B.past binder.new ≡ B.past binder.old }
    ensures file_fault { result ≡ Status.FileFault → Rose (F.faults files.old) (F.faults files.new) }
    ensures write_fault { result ≡ Status.WriteFault → Rose (K.faults output.old) (K.faults output.new) }
    ensures net_fault { result ≡ Status.NetFault → Rose (B.faults binder.old) (B.faults binder.new) }
    ensures files_kept { result ≢ Status.FileFault → F.faults files.new ≡ F.faults files.old }
    ensures output_kept { result ≢ Status.WriteFault → K.faults output.new ≡ K.faults output.old }
    ensures binder_kept { result ≢ Status.NetFault → B.faults binder.new ≡ B.faults binder.old }
{
    match program_schema(alloc, files, asked.idl.as_str()) {
        Ok(schema) => call_with_schema(alloc, output, errors, binder, schema, asked),
        Err(reason) => end_without_schema(alloc, errors, reason),
    }
}

/// Makes the call of these words by the schema of their IDL.
fn call_with_schema<K: Sink, E: Sink, B: Binder>(
    alloc: Global,
    output: &mut K,
    errors: &mut E,
    binder: &mut B,
    schema: Schema,
    asked: &AskedCall,
) -> Status
    requires { IsSound (schema_of schema) }
    ensures ends { EndsCall (port_call_by (plain_asking asked.now) (schema_of schema)) result
        (record {
          dialled_before = record { called = B.called binder.old; handed = B.handed binder.old };
          dialled = record { called = B.called binder.new; handed = B.handed binder.new };
          taken_before = K.taken output.old;
          taken = K.taken output.new;
        })
        (record { taken_before = E.taken errors.old; taken = E.taken errors.new; faults_before = E.faults errors.old; faults = E.faults errors.new }) }
    ensures past { B.past binder.new ≡ B.past binder.old }
    ensures no_file_fault { result ≢ Status.FileFault }
    ensures write_fault { result ≡ Status.WriteFault → Rose (K.faults output.old) (K.faults output.new) }
    ensures net_fault { result ≡ Status.NetFault → Rose (B.faults binder.old) (B.faults binder.new) }
    ensures output_kept { result ≢ Status.WriteFault → K.faults output.new ≡ K.faults output.old }
    ensures binder_kept { result ≢ Status.NetFault → B.faults binder.new ≡ B.faults binder.old }
{
    let call = PortCall {
        protocol: asked.protocol,
        name: asked.name.as_str().as_bytes(),
        method: asked.method.as_str().as_bytes(),
        args: asked.args.as_str().as_bytes(),
        multiplexed: asked.multiplexed,
        port: asked.port,
    };
    let came_to = call_port(alloc, schema, binder, output, &call);
    end_call(alloc, errors, came_to)
}

/// Ends the command with what became of a call.
fn end_call<E: Sink>(alloc: Global, errors: &mut E, came_to: Result<(), CallFault>) -> Status
    ensures { EndsAfterCall came_to result
        (record { taken_before = E.taken errors.old; taken = E.taken errors.new; faults_before = E.faults errors.old; faults = E.faults errors.new }) }
{
    match came_to {
        Ok(()) => end(errors, Status::Done),
        Err(CallFault::Refused(refusal)) => {
            end_saying(
                errors,
                Status::CallRefused,
                refused_call_line(alloc, refusal),
            )
        }
        Err(CallFault::ReplyRefused(refusal)) => {
            end_saying(
                errors,
                Status::ReplyRefused,
                refused_reply_line(alloc, refusal),
            )
        }
        Err(CallFault::NetFault) => end(errors, Status::NetFault),
        Err(CallFault::WriteFault) => end(errors, Status::WriteFault),
        Err(CallFault::NoMemory) => end(errors, Status::NoMemory),
    }
}

/// The errors' line of a call that isn't made.
fn refused_call_line(alloc: Global, refusal: CallRefusal) -> Result<Vec<u8>, AllocError>
    ensures { IfOk result (λ line. line.items ≡ refused_call_text refusal) }
{
    let mut text = Vec::new(alloc);
    text.extend_from_slice(b"thriftd: call ")?;
    line(&mut text, refusal.kind().as_bytes())?;
    Ok(text)
}

/// The errors' line of a reply that is no answer.
fn refused_reply_line(alloc: Global, refusal: ReplyRefusal) -> Result<Vec<u8>, AllocError>
    ensures { IfOk result (λ line. line.items ≡ refused_reply_text refusal) }
{
    let mut text = Vec::new(alloc);
    text.extend_from_slice(b"thriftd: reply ")?;
    line(&mut text, refusal.kind().as_bytes())?;
    Ok(text)
}

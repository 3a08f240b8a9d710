//! A call at a port, from its words to its line.

ghost use Rattle.std.specs.Prelude.{◌≡◌, ◌≢◌, true, false, None, Some, Err, IfOk, IsSome, MatchOption};
ghost use Rattle.streams.specs.Cause.{Rose};
ghost use Rattle.call_model.specs.Names.{separator_of};
ghost use Rattle.client_desk.specs.Asking.{asked_frame};
ghost use Rattle.client_desk.specs.ClientOf.{plain_client};
ghost use Rattle.client_desk.specs.Hearing.{heard};
ghost use Rattle.port_calls.specs.Called.{MeansCall};
ghost use Rattle.port_calls.specs.PortCallOf.{plain_port_call};
ghost use Rattle.port_calls.specs.Calls.{caller, call_id, service_known, waits_for};
ghost use Rattle.port_calls.specs.Steps.{AsksFrame, FramesCall, HearsLine, ReadsArguments, TellsExchange, TellsReply, fault_of_asking};
ghost use Rattle.schema.specs.LookUp.{function_named};
ghost use Rattle.schema.specs.SchemaOf.{schema_of};
ghost use Rattle.schema.specs.Sound.{IsSound, IsPlaceIn};
ghost use Rattle.thrift_value.specs.TreeOf.{tree_of};
ghost use Rattle.value_text.specs.Reading.{reading_of};

use crate::asking::ask_port;
use crate::asking_fault::AskingFault;
use crate::call::PortCall;
use crate::fault::{CallFault, CallRefusal, ReplyRefusal};
use crate::lines::{SENT, heard_line};
use client_desk::{AskFault, Client, HeardFault};
use limits::USUAL_PAYLOAD;
use outside::Binder;
use schema::Schema;
use std::alloc::{AllocError, Global};
use streams::{Sink, write_all};
use thrift_value::{ByteText, Value};
use value_text::{TextFault, read};

/// The sequence id of a call.
const CALL_ID: i32 = 1;

/// The longest payload of a call and of its reply, in bytes.
const LONGEST_CALL: u32 = USUAL_PAYLOAD;

/// The place of the first `:` in a name.
fn separator_of(name: &[u8]) -> Option<usize>
    ensures { result ≡ separator_of name.now }
{
    name.iter().position(|byte| *byte == b':')
}

/// The service that the main file knows by a name, by its number; by a name with a `:` it knows none.
fn service_known(schema: &Schema, name: &[u8]) -> Option<u32>
    requires { IsSound (schema_of schema.now) }
    ensures { result ≡ service_known (schema_of schema.now) name.now }
{
    if separator_of(name).is_some() {
        return None;
    }
    schema.service(name)
}

/// Whether a reply of a method of a service is waited for.
fn waits_for(schema: &Schema, service: u32, method: &[u8]) -> bool
    requires { IsSound (schema_of schema.now) }
    ensures { result ≡ waits_for (schema_of schema.now) service method.now }
{
    match schema.function(service, method) {
        Some(function) => !function.oneway,
        None => true,
    }
}

/// The value whose text the arguments are.
fn arguments(alloc: Global, text: &[u8]) -> Result<Value, CallFault>
    ensures { ReadsArguments result (reading_of text.now) }
{
    match read(alloc, text) {
        Ok(args) => Ok(args),
        Err(TextFault::At(_)) => Err(CallFault::Refused(CallRefusal::ArgsText)),
        Err(TextFault::NoMemory) => Err(CallFault::NoMemory),
    }
}

/// Who calls the service of a number.
fn client_of(
    alloc: Global,
    schema: Schema,
    service: u32,
    call: &PortCall<'_>,
) -> Result<Client, AllocError>
    requires sound { IsSound (schema_of schema) }
    requires place { IsPlaceIn (schema_of schema).services service }
    requires whole { separator_of call.now.name.now ≡ None }
    ensures { IfOk result (λ client. plain_client client ≡ caller (plain_port_call (schema_of schema) call.now) service) }
{
    let name = ByteText::new(call.name.to_vec(alloc)?);
    Ok(Client::new(
        schema,
        service,
        name,
        call.protocol,
        call.multiplexed,
        LONGEST_CALL,
    ))
}

/// The frame that asks for a call.
fn frame_of(
    alloc: Global,
    client: &Client,
    method: &[u8],
    args: &Value,
) -> Result<Vec<u8>, CallFault>
    ensures { AsksFrame (λ framed. framed.items) result (asked_frame (plain_client client.now) method.now (tree_of args.now) call_id) }
{
    match client.ask(alloc, method, args, CALL_ID) {
        Ok(framed) => Ok(framed),
        Err(AskFault::NoMemory) => Err(CallFault::NoMemory),
        Err(fault) => Err(CallFault::Refused(CallRefusal::Unasked(fault))),
    }
}

/// The frame that asks for a call whose arguments are a text.
fn frame_by(alloc: Global, client: &Client, call: &PortCall<'_>) -> Result<Vec<u8>, CallFault>
    ensures { FramesCall (λ framed. framed.items) (plain_client client.now) call.now.method.now (reading_of call.now.args.now) result }
{
    let args = arguments(alloc, call.args)?;
    frame_of(alloc, client, call.method, &args)
}

/// The line of a payload that answers a call.
fn line_of_payload(
    alloc: Global,
    client: &Client,
    method: &[u8],
    payload: &[u8],
) -> Result<Vec<u8>, CallFault>
    requires { MatchOption (function_named (plain_client client.now).schema (plain_client client.now).service method.now) ⊥ (λ f. f.oneway ≡ false) }
    ensures { HearsLine (λ line. line.items) result (heard (plain_client client.now) method.now call_id payload.now) }
{
    match client.read_reply(alloc, method, CALL_ID, payload) {
        Ok(heard) => Ok(heard_line(alloc, heard)?),
        Err(HeardFault::NoMemory) => Err(CallFault::NoMemory),
        Err(fault) => Err(CallFault::ReplyRefused(ReplyRefusal::Unheard(fault))),
    }
}

/// The line of what came back.
fn line_of_reply(
    alloc: Global,
    client: &Client,
    method: &[u8],
    reply: Option<Vec<u8>>,
) -> Result<Vec<u8>, CallFault>
    requires { IsSome reply → MatchOption (function_named (plain_client client.now).schema (plain_client client.now).service method.now) ⊥ (λ f. f.oneway ≡ false) }
    ensures { TellsReply (λ payload. payload.items) (λ line. line.items) (plain_client client.now) method.now reply result }
{
    match reply {
        Some(payload) => line_of_payload(alloc, client, method, &payload),
        None => Ok(SENT.to_vec(alloc)?),
    }
}

/// The fault of a port that gave no answer.
fn fault_of_asking(fault: AskingFault) -> CallFault
    ensures { result ≡ fault_of_asking fault }
{
    match fault {
        AskingFault::NetFault => CallFault::NetFault,
        AskingFault::Cut => CallFault::ReplyRefused(ReplyRefusal::Cut),
        AskingFault::SizeFault(size) => CallFault::ReplyRefused(ReplyRefusal::SizeFault(size)),
        AskingFault::NoMemory => CallFault::NoMemory,
    }
}

/// Sends a frame, reads what comes back, and writes the line that tells what it says.
fn ask_and_tell<B: Binder, K: Sink>(
    alloc: Global,
    binder: &mut B,
    output: &mut K,
    client: &Client,
    call: &PortCall<'_>,
    frame: &[u8],
    waits: bool,
) -> Result<(), CallFault>
    requires { waits ≡ true → MatchOption (function_named (plain_client client.now).schema (plain_client client.now).service call.now.method.now) ⊥ (λ f. f.oneway ≡ false) }
    ensures tells { TellsExchange (plain_client client.now) call.now.method.now
        (record { port = call.now.port; frame = frame.now; waits = waits })
        (record {
          dialled_before = record { called = B.called binder.old; handed = B.handed binder.old };
          dialled = record { called = B.called binder.new; handed = B.handed binder.new };
          taken_before = K.taken output.old;
          taken = K.taken output.new;
        }) result }
    ensures past { B.past binder.new ≡ B.past binder.old }
    ensures net_fault { result ≡ Err CallFault.NetFault → Rose (B.faults binder.old) (B.faults binder.new) }
    ensures write_fault { result ≡ Err CallFault.WriteFault → Rose (K.faults output.old) (K.faults output.new) }
    ensures binder_kept { result ≢ Err CallFault.NetFault → B.faults binder.new ≡ B.faults binder.old }
    ensures output_kept { result ≢ Err CallFault.WriteFault → K.faults output.new ≡ K.faults output.old }
{
    let reply = match ask_port(alloc, binder, call.port, frame, waits, LONGEST_CALL) {
        Ok(reply) => reply,
        Err(fault) => return Err(fault_of_asking(fault)),
    };
    let line = line_of_reply(alloc, client, call.method, reply)?;
    match write_all(output, &line) {
        Ok(()) => Ok(()),
        Err(_) => Err(CallFault::WriteFault),
    }
}

/// Makes a call of a service by its number.
fn call_service<B: Binder, K: Sink>(
    alloc: Global,
    schema: Schema,
    service: u32,
    binder: &mut B,
    output: &mut K,
    call: &PortCall<'_>,
) -> Result<(), CallFault>
    requires sound { IsSound (schema_of schema) }
    requires service { service_known (schema_of schema) call.now.name.now ≡ Some service }
    ensures means { MeansCall (plain_port_call (schema_of schema) call.now)
        (record {
          dialled_before = record { called = B.called binder.old; handed = B.handed binder.old };
          dialled = record { called = B.called binder.new; handed = B.handed binder.new };
          taken_before = K.taken output.old;
          taken = K.taken output.new;
        }) result }
    ensures past { B.past binder.new ≡ B.past binder.old }
    ensures net_fault { result ≡ Err CallFault.NetFault → Rose (B.faults binder.old) (B.faults binder.new) }
    ensures write_fault { result ≡ Err CallFault.WriteFault → Rose (K.faults output.old) (K.faults output.new) }
    ensures binder_kept { result ≢ Err CallFault.NetFault → B.faults binder.new ≡ B.faults binder.old }
    ensures output_kept { result ≢ Err CallFault.WriteFault → K.faults output.new ≡ K.faults output.old }
{
    let waits = waits_for(&schema, service, call.method);
    let client = client_of(alloc, schema, service, call)?;
    let frame = frame_by(alloc, &client, call)?;
    ask_and_tell(alloc, binder, output, &client, call, &frame, waits)
}

/// Makes a call at a port, under the sequence id 1: the service is looked up, the arguments are read, the port is dialled, the frame is sent, one frame is read where a reply is
/// waited for, the pipe is hung up, and the line that tells what the reply says is written. No port is dialled where the call is refused.
///
/// # Errors
///
/// `Refused` with the first thing that is wrong with the call. `NetFault` and `WriteFault` come only where the count of faults of the binder, or that of the output, rose.
/// `ReplyRefused` where what came back is no answer; nothing is written then.
pub fn call_port<B: Binder, K: Sink>(
    alloc: Global,
    schema: Schema,
    binder: &mut B,
    output: &mut K,
    call: &PortCall<'_>,
) -> Result<(), CallFault>
    requires sound { IsSound (schema_of schema) }
    // Ok says that the frame of the call was sent through one pipe, and that the line of the one frame that was read there, or of a call to which nothing is answered, was written.
    ensures means { MeansCall (plain_port_call (schema_of schema) call.now)
        (record {
          dialled_before = record { called = B.called binder.old; handed = B.handed binder.old };
          dialled = record { called = B.called binder.new; handed = B.handed binder.new };
          taken_before = K.taken output.old;
          taken = K.taken output.new;
        }) result }
    ensures past { B.past binder.new ≡ B.past binder.old }
    ensures net_fault { result ≡ Err CallFault.NetFault → Rose (B.faults binder.old) (B.faults binder.new) }
    ensures write_fault { result ≡ Err CallFault.WriteFault → Rose (K.faults output.old) (K.faults output.new) }
    // No other answer comes with a fault.
    ensures binder_kept { result ≢ Err CallFault.NetFault → B.faults binder.new ≡ B.faults binder.old }
    ensures output_kept { result ≢ Err CallFault.WriteFault → K.faults output.new ≡ K.faults output.old }
{
    match service_known(&schema, call.name) {
        Some(service) => call_service(alloc, schema, service, binder, output, call),
        None => Err(CallFault::Refused(CallRefusal::NoService)),
    }
}

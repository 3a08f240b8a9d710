//! A comparison: whether the values and calls of an IDL survive the one that comes after it.

ghost use Rattle.std.specs.Prelude.{◌≡◌, ◌≢◌, ℕ, List, Option};
ghost use Rattle.streams.specs.Cause.{Rose};
ghost use Rattle.streams.specs.Files.{File};
ghost use Rattle.schema.specs.SchemaOf.{schema_of};
ghost use Rattle.schema.specs.Sound.{IsSound};
ghost use Rattle.compat_check.specs.Answered.{plain_break};
ghost use Rattle.thrift_host.specs.Compats.{MeansCompat, SaysCompat};
ghost use Rattle.thrift_host.specs.CompatSteps.{EndsBroken, EndsComparing, EndsTelling, is_no_memory};
ghost use Rattle.thrift_host.specs.Runs.{HasSchema};

use crate::checking::{end_text, end_without_schema};
use crate::saying::end;
use crate::status::Status;
use command_line::ComparedIdls;
use compat_check::{Break, compat};
use compat_model::BreakKind;
use idl_check::program_schema;
use schema::Schema;
use std::alloc::Global;
use streams::{Files, Sink, write_all};

/// Compares an IDL with the one that comes after it: the answer goes to the output.
pub(crate) fn compare<F: Files, K: Sink, E: Sink>(
    alloc: Global,
    files: &mut F,
    output: &mut K,
    errors: &mut E,
    idls: &ComparedIdls,
) -> Status
    ensures means { (left : Option (List ℕ)) → MeansCompat (F.files files.old) idls.now.old idls.now.new result
        (record { left_before = left; left = left; taken_before = K.taken output.old; taken = K.taken output.new }) }
    ensures said { SaysCompat (F.files files.old) idls.now.old idls.now.new result
        (record { taken_before = E.taken errors.old; taken = E.taken errors.new; faults_before = E.faults errors.old; faults = E.faults errors.new }) }
    ensures files { F.files files.new ≡ F.files files.old }
    ensures sinks { F.sink_faults files.new ≡ F.sink_faults files.old }
    ensures file_fault { result ≡ Status.FileFault → Rose (F.faults files.old) (F.faults files.new) }
    ensures write_fault { result ≡ Status.WriteFault → Rose (K.faults output.old) (K.faults output.new) }
    ensures files_kept { result ≢ Status.FileFault → F.faults files.new ≡ F.faults files.old }
    ensures output_kept { result ≢ Status.WriteFault → K.faults output.new ≡ K.faults output.old }
{
    match program_schema(alloc, files, idls.old.as_str()) {
        Ok(schema) => compare_with(alloc, files, output, errors, &schema, idls.new.as_str()),
        Err(reason) => end_without_schema(alloc, errors, reason),
    }
}

/// Compares a schema with the IDL that comes after it.
fn compare_with<F: Files, K: Sink, E: Sink>(
    alloc: Global,
    files: &mut F,
    output: &mut K,
    errors: &mut E,
    before: &Schema,
    new: &str,
) -> Status
    requires sound { IsSound (schema_of before.now) }
    ensures means { (left : Option (List ℕ)) (old : List ℕ) → HasSchema (F.files files.old) old (schema_of before.now)
        → MeansCompat (F.files files.old) old new.now result
        (record { left_before = left; left = left; taken_before = K.taken output.old; taken = K.taken output.new }) }
    ensures said { (old : List ℕ) → HasSchema (F.files files.old) old (schema_of before.now) → SaysCompat (F.files files.old) old new.now result
        (record { taken_before = E.taken errors.old; taken = E.taken errors.new; faults_before = E.faults errors.old; faults = E.faults errors.new }) }
    ensures files { F.files files.new ≡ F.files files.old }
    ensures sinks { F.sink_faults files.new ≡ F.sink_faults files.old }
    ensures file_fault { result ≡ Status.FileFault → Rose (F.faults files.old) (F.faults files.new) }
    ensures write_fault { result ≡ Status.WriteFault → Rose (K.faults output.old) (K.faults output.new) }
    ensures files_kept { result ≢ Status.FileFault → F.faults files.new ≡ F.faults files.old }
    ensures output_kept { result ≢ Status.WriteFault → K.faults output.new ≡ K.faults output.old }
{
    match program_schema(alloc, files, new) {
        Ok(schema) => end_comparing(alloc, output, errors, before, &schema),
        Err(reason) => end_without_schema(alloc, errors, reason),
    }
}

/// Ends the command with what the change from one schema to another comes to.
fn end_comparing<K: Sink, E: Sink>(
    alloc: Global,
    output: &mut K,
    errors: &mut E,
    old: &Schema,
    new: &Schema,
) -> Status
    requires old { IsSound (schema_of old.now) }
    requires new { IsSound (schema_of new.now) }
    ensures ends { EndsComparing (record { old = schema_of old.now; new = schema_of new.now }) result (K.taken output.old) (K.taken output.new)
        (record { taken_before = E.taken errors.old; taken = E.taken errors.new; faults_before = E.faults errors.old; faults = E.faults errors.new }) }
    ensures write_fault { result ≡ Status.WriteFault → Rose (K.faults output.old) (K.faults output.new) }
    ensures output_kept { result ≢ Status.WriteFault → K.faults output.new ≡ K.faults output.old }
{
    match compat(alloc, old, new) {
        Ok(()) => end_text(output, errors, b"compatible\n"),
        Err(found) => end_broken(alloc, output, errors, &found),
    }
}

/// Ends the command with a break that was found.
fn end_broken<K: Sink, E: Sink>(
    alloc: Global,
    output: &mut K,
    errors: &mut E,
    found: &Break,
) -> Status
    ensures ends { EndsBroken (plain_break found.now) result (K.taken output.old) (K.taken output.new)
        (record { taken_before = E.taken errors.old; taken = E.taken errors.new; faults_before = E.faults errors.old; faults = E.faults errors.new }) }
    ensures write_fault { result ≡ Status.WriteFault → Rose (K.faults output.old) (K.faults output.new) }
    ensures output_kept { result ≢ Status.WriteFault → K.faults output.new ≡ K.faults output.old }
{
    if is_no_memory(found.kind) {
        return end(errors, Status::NoMemory);
    }
    match found.line(alloc) {
        Ok(line) => end_break(output, errors, &line),
        Err(_) => end(errors, Status::NoMemory),
    }
}

/// Ends the command with the line of a break for the output.
fn end_break<K: Sink, E: Sink>(output: &mut K, errors: &mut E, line: &[u8]) -> Status
    ensures ends { EndsTelling Status.Incompatible line.now result (K.taken output.old) (K.taken output.new)
        (record { taken_before = E.taken errors.old; taken = E.taken errors.new; faults_before = E.faults errors.old; faults = E.faults errors.new }) }
    ensures write_fault { result ≡ Status.WriteFault → Rose (K.faults output.old) (K.faults output.new) }
    ensures output_kept { result ≢ Status.WriteFault → K.faults output.new ≡ K.faults output.old }
{
    match write_all(output, line) {
        Ok(()) => end(errors, Status::Incompatible),
        Err(_) => end(errors, Status::WriteFault),
    }
}

/// Whether there was no memory to tell.
fn is_no_memory(kind: BreakKind) -> bool
    ensures { result ≡ is_no_memory kind }
{
    match kind {
        BreakKind::NoMemory => true,
        BreakKind::Gone
        | BreakKind::Kind
        | BreakKind::UnionField
        | BreakKind::Unlike
        | BreakKind::NewRequired
        | BreakKind::Oneway
        | BreakKind::Result
        | BreakKind::Throws => false,
    }
}
